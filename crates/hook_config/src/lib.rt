//! Reads the bytes of a `.pre-commit-config.yaml` as a `Config`, or says by a `ConfigFault` why they aren't
//! one.
//!
//! `Config` holds `Hook`s. Their texts are `ConfigText`s, their patterns `SharedPattern`s, their tags
//! `TagNames` and their stages `Stages`. Their language is a `Language`, which holds the pattern of `pygrep`,
//! or the `CommandWords` of `system` and `script`. All patterns are built, and all entries are cut into
//! words. `ConfigWithNode` also holds the text's `Node`. A `ConfigFault` is a `ConfigKind` and its place.
//! `top_keys`, `repository_keys` and `hook_keys` give the keys that are known, each with its `KeyKind`.
//! `name_count_of_word` reads the number of one kind.
//!
//! The contracts cite these definitions:
//!
//! - `configuration_of` of `specs/Configuration.antt`, which says which `Config` a text's bytes describe, if
//!   any, and `Gives`;
//! - `HasShortTexts` of `specs/ShortTexts.antt`, and the limits of `specs/Limits.antt`;
//! - `first_word` of `specs/CommandWords.antt`, `name_count_of_word` of `specs/Kinds.antt`, and the words of
//!   `specs/KnownKeys.antt` and `specs/Stages.antt`;
//! - `number_of` and `name_of` of `specs/Refusals.antt`.
#![tactic(auto)]

mod command_words;
mod config_fault;
mod config_text;
mod configuration;
mod defaults;
mod fields;
mod hook_parts;
mod hook_table;
mod kinds;
mod known_keys;
mod languages;
pub mod laws;
mod limits;
mod reader;
mod repositories;
mod shared_pattern;
mod stage;
mod stage_lists;
mod tag_lists;
mod tag_names;
mod text_lists;
mod unknown_keys;

pub use command_words::CommandWords;
pub use config_fault::{ConfigFault, ConfigKind};
pub use config_text::ConfigText;
pub use configuration::{Config, Hook, Language};
pub use kinds::name_count_of_word;
pub use known_keys::{KeyKind, hook_keys, is_key, repository_keys, top_keys};
pub use limits::{MOST_HOOKS, MOST_NAMES, MOST_TEXT_BYTES};
pub use reader::{ConfigWithNode, read_config, read_config_with_node};
pub use shared_pattern::SharedPattern;
pub use stage::{Stage, Stages};
pub use tag_names::TagNames;
