//! What a text is read as: a configuration and its hooks.

use crate::command_words::CommandWords;
use crate::config_text::ConfigText;
use crate::shared_pattern::SharedPattern;
use crate::stage::Stages;
use crate::tag_names::TagNames;
use builtin_hooks::Grep;
use hook_base::{Items, Text};

/// What a `.pre-commit-config.yaml` asks for.
#[derive(Debug, Drop)]
pub struct Config {
    /// The hooks of all repositories, in the order of the text, at most `MOST_HOOKS`.
    pub hooks: Items<Hook>,
    /// Whether a run stops after the first hook that failed.
    pub fail_fast: bool,
    /// Found in the path of each file that any hook gets.
    pub files: SharedPattern,
    /// Not found in the path of any file that a hook gets.
    pub exclude: SharedPattern,
    /// The keys that no table knows, in the order of the text, each as often as it occurs there.
    pub unknown: Items<Text>,
}

/// One hook of a configuration (pre-commit.com, "Creating new hooks").
#[derive(Debug, Drop)]
pub struct Hook {
    /// The name by which the hook is asked for.
    pub id: ConfigText,
    /// What a report calls the hook.
    pub name: ConfigText,
    /// A second name to ask for the hook by. The empty text names nothing.
    pub alias: ConfigText,
    /// How the hook's entry is run.
    pub language: Language,
    /// With `fail` what the hook says, with `pygrep` the text of its pattern, and otherwise the text of the
    /// first words of its command.
    pub entry: ConfigText,
    /// The words that follow those of the entry. With `pygrep` they say how its pattern is looked for.
    pub args: Items<ConfigText>,
    /// Found in the path of each file that the hook gets.
    pub files: SharedPattern,
    /// Not found in the path of any file that the hook gets.
    pub exclude: SharedPattern,
    /// Each file that the hook gets has all of these tags.
    pub types: TagNames,
    /// Each file that the hook gets has at least one of these tags, if there are any.
    pub types_or: TagNames,
    /// No file that the hook gets has one of these tags.
    pub exclude_types: TagNames,
    /// The stages in which the hook runs: those that its table names, otherwise the configuration's default
    /// stages.
    pub stages: Stages,
    /// Whether the hook also runs if no file is selected for it.
    pub always_run: bool,
    /// Whether the hook's details are reported even if it passed.
    pub verbose: bool,
    /// Whether the hook is given the names of the files that are selected for it.
    pub pass_filenames: bool,
    /// Whether a run stops if this hook failed.
    pub fail_fast: bool,
    /// Whether no other child runs at the same time as one of this hook's.
    pub require_serial: bool,
    /// Found in the path of each further file that the hook's children see.
    pub x_reads: SharedPattern,
    /// Whether a child of the hook is given at most one name.
    pub x_per_file: bool,
    /// The most names that a child of the hook is given, from 1 to [`MOST_NAMES`](crate::MOST_NAMES). With
    /// `x_per_file` it is given at most one all the same.
    pub x_at_most: usize,
    /// The file that a hook's output would be written to. It is empty, since no such file is served.
    pub log_file: ConfigText,
    /// What would be installed for the hook. There are none, since none are served.
    pub additional_dependencies: Items<ConfigText>,
}

/// How a hook's entry is run (pre-commit.com, "Supported languages").
#[derive(Debug, Drop)]
pub enum Language {
    /// The hook always fails, and says its entry.
    Fail,
    /// The hook looks for its entry in files, as its arguments say, and fails if it prints anything.
    Pygrep(Grep),
    /// The hook starts the program that the first of these words names, as it is written.
    System(CommandWords),
    /// The hook starts the file of the repository that the first of these words names.
    Script(CommandWords),
}
