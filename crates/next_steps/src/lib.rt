//! The next step that a user at a terminal is told of.
//!
//! [`advice_after`] says what follows a command, by its exit status and what it needed, and [`configuration_step`]
//! what follows if a configuration is lacking or refused. Each [`NextStep`] has its words ([`NextStep::text`]).
//! [`word_or`] decides whether a hint can show a name as a word of a command. [`folder_hint`], [`explain_hint`] and
//! [`undone_hint`] are the hints that have names in them.
//!
//! The contracts cite `specs/NextSteps.antt`, `specs/NamedHints.antt` and `specs/CommandWords.antt`.
#![tactic(auto)]

mod advice;
mod command_word;
mod named_hint;
mod next_step;

pub use advice::{
    Advice, CommandEnd, ConfigurationState, Requirement, advice_after, configuration_step,
};
pub use command_word::word_or;
pub use named_hint::{explain_hint, folder_hint, undone_hint};
pub use next_step::NextStep;
