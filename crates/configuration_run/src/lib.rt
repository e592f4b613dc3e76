//! A configuration without a repository, from its bytes on. There are its run over a tree with the report
//! written ([`try_over`]), what `check` prints about it ([`check_text`]), and the hooks that the environment
//! skips ([`skip_list_of`]).
//!
//! The contracts cite `specs/TryOver.antt`, `specs/TryFaults.antt` (the refusals of a run),
//! `specs/CheckText.antt` and `specs/SkipList.antt`. `specs/TryOver.antt` builds on the definitions of
//! `hook_run` (what a run is, its report, and where it is refused) and of `text_output` (how much of a text a
//! writer took). `specs/Reading.antt` serves private functions only.
#![tactic(auto)]

mod check;
mod configuration_bytes;
mod configuration_run;
mod run_ask;
mod skip_list;
mod try_fault;

pub use check::check_text;
pub use configuration_bytes::MOST_CONFIGURATION_BYTES;
pub use configuration_run::try_over;
pub use skip_list::skip_list_of;
pub use try_fault::TryFault;
