//! What a line of words asks the program for, as a value.

use crate::AnswerLimit;
use hook_base::{Items, Mode, Text};

/// What a line of words asks the program for.
#[derive(Debug, Drop)]
pub enum CommandLine {
    /// What is done without a repository.
    Standalone(Standalone),
    /// What is looked up in the repository, which stays as it is.
    LookUp(LookUp),
    /// A change of the repository or of its cached results.
    Update(Update),
}

/// What is done without a repository.
#[derive(Debug, Drop)]
pub enum Standalone {
    /// A new repository in the working folder.
    Init,
    /// A run of the configuration over the files, with its report written out.
    Try {
        /// The name of the file that holds the configuration.
        config: Text,
        /// The names of the files, one at least.
        paths: Items<Text>,
        /// When the report has colors.
        color: ColorChoice,
        /// How many commands may run at the same time, from 1 to 256, or `None` for the default.
        jobs: Option<u32>,
    },
    /// A check of the working folder's configuration: how many hooks it has, and its ignored keys.
    Check,
    /// An explanation of a configuration: why it is refused, or what its hooks will do.
    Explain {
        /// The name of the file that holds the configuration, or `None` for the working folder's.
        file: Option<Text>,
    },
}

/// What is looked up in the repository.
#[derive(Debug, Drop)]
pub enum LookUp {
    /// The staged files that differ from those of the last commit.
    Status,
    /// What the last run of hooks would change of the staged files.
    Fixes,
    /// The bytes of a file of the repository.
    Cat {
        /// The path, as a text that needn't be a legal path.
        path: Text,
        /// Which of the path's bytes.
        version: FileVersion,
    },
    /// The commits, the newest first.
    Log,
    /// A commit's message and its paths.
    Show {
        /// The commit's number.
        number: u32,
    },
    /// How many results of hooks' commands are cached.
    Memory,
}

/// A change of the repository or of its cached results.
#[derive(Debug, Drop)]
pub enum Update {
    /// Files of the working folder are staged, all or none.
    Add {
        /// The names of files and folders, which are their paths in the repository too. In words there is at
        /// least one.
        paths: PathSource,
        /// The mode that is asked for. With `None` a staged file keeps its mode, and another is plain.
        mode: Option<Mode>,
    },
    /// Paths are taken out of the staged files, all or none.
    Remove {
        /// The paths of staged files, and folders of staged files. In words there is at least one.
        paths: PathSource,
    },
    /// A run of hooks on the staged files.
    Run {
        /// The files that hooks may get.
        files: FileChoice,
        /// The id or alias of the hooks that are run, or `None` for all of the stage.
        only: Option<Text>,
        /// The stage whose hooks are run.
        stage: StageChoice,
        /// Whether every child is started, also if its result is cached.
        fresh: bool,
        /// What else is asked of the run.
        options: RunChoice,
    },
    /// The hooks that run at one stage of a commit that another program makes.
    Hook {
        /// Which hooks, and which file has the commit's message.
        hook: CommitHook,
        /// Whether every child is started, also if its result is cached.
        fresh: bool,
        /// What else is asked of the run.
        options: HookChoice,
    },
    /// The fixes are applied to the staged files.
    Accept,
    /// A commit of the staged files, through its hooks.
    Commit {
        /// The message, before any hook has seen it.
        message: Text,
        /// Whether the hooks of `pre-commit` and `commit-msg` are left out.
        no_verify: bool,
        /// When the reports have colors.
        color: ColorChoice,
        /// How many commands may run at the same time, from 1 to 256, or `None` for the default.
        jobs: Option<u32>,
    },
    /// All cached results are dropped.
    Forget,
    /// At most so many results are kept in the cache.
    Limit(AnswerLimit),
}

/// The staged files that the hooks of a run may get.
#[derive(Debug, Drop)]
pub enum FileChoice {
    /// Those that differ from the last commit.
    Changed,
    /// All of them.
    All,
    /// These, as texts that needn't be legal paths.
    Named(Items<Text>),
    /// Those that the file of this name lists, each ended by a NUL byte. `-` is standard input.
    Listed(Text),
}

/// The hooks that run at one stage of a commit. Those about a message have the name of the file that holds it.
#[derive(Debug, Drop)]
pub enum CommitHook {
    /// Those that run before the commit, on the staged files that differ from the last commit.
    PreCommit,
    /// Those that prepare the message in this file.
    PrepareCommitMsg(Text),
    /// Those that check the message in this file.
    CommitMsg(Text),
    /// Those that run after the commit.
    PostCommit,
}

/// Where the paths of a line are written.
#[derive(Debug, Drop)]
pub enum PathSource {
    /// In these words, as texts that needn't be legal paths.
    Words(Items<Text>),
    /// In the file of this name, each ended by a NUL byte. `-` is standard input.
    Listed(Text),
}

/// Which bytes of a path are looked up.
#[derive(Clone, Copy, Debug)]
pub enum FileVersion {
    /// Those that are staged.
    Staged,
    /// Those that the fixes give to it.
    Fixed,
    /// Those of the commit with this number.
    Committed(u32),
}

/// The options of a run that don't choose its files and hooks and aren't `--fresh`.
#[derive(Clone, Copy, Debug, PartialEq, Eq)]
pub struct RunChoice {
    /// Whether a hook counts as seeing every file of the tree, and no failure is taken from the cache. A hook
    /// that says which files its command reads, or whose command is a known tool's, is excepted from the
    /// first.
    pub cautious: bool,
    /// Whether the output of each hook is printed, and how many answers came from the cache.
    pub verbose: bool,
    /// When the report has colors.
    pub color: ColorChoice,
    /// How many commands may run at the same time, from 1 to 256, or `None` for the default.
    pub jobs: Option<u32>,
}

/// The options of `hook` other than `--fresh`, each as in `RunChoice`.
#[derive(Clone, Copy, Debug, PartialEq, Eq)]
pub struct HookChoice {
    /// Whether a hook counts as seeing every file of the tree, and no failure is taken from the cache.
    pub cautious: bool,
    /// When the report has colors.
    pub color: ColorChoice,
    /// How many commands may run at the same time, from 1 to 256, or `None` for the default.
    pub jobs: Option<u32>,
}

/// When a report has colors. They show how each hook ended.
#[derive(Clone, Copy, Debug, PartialEq, Eq)]
pub enum ColorChoice {
    /// If the environment or the terminal asks for them. This is the default.
    Auto,
    /// Always, whatever the environment and the terminal ask for.
    Always,
    /// Never, whatever the environment and the terminal ask for.
    Never,
}

/// A stage that a line may ask for.
#[derive(Clone, Copy, Debug, PartialEq, Eq)]
pub enum StageChoice {
    /// The hooks that run before a commit.
    PreCommit,
    /// The hooks that run only if they are asked for.
    Manual,
}
