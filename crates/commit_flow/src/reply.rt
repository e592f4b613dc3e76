//! What the commands of a host answer, as values.

use crate::{HostRefusal, StagingStop};
use hook_base::{Bytes, Changes, Content, Items, Text};
use hook_config::Stage;
use hook_run::RunRefusal;

/// The reply to a command.
#[derive(Debug, Drop)]
pub enum Reply {
    /// The file was added.
    Added,
    /// The path was removed.
    Removed,
    /// Several changes of the staged files were made.
    Staged,
    /// The fixes were accepted; this is their number.
    Accepted(u32),
    /// The hooks were run, and the changes that they made are the fixes.
    Ran {
        /// Whether no hook failed.
        passed: bool,
        /// The report on the hooks.
        report: Bytes,
        /// The fixes.
        changes: Changes,
        /// The ids of the unsteady hooks: their answer was another than the cached one.
        unsteady: Items<Text>,
    },
    /// The hooks about a message were run. The repository is as it was.
    MessageRan {
        /// Whether no hook failed.
        passed: bool,
        /// The report on the hooks.
        report: Bytes,
        /// The message that they leave.
        message: Content,
    },
    /// The commit was made.
    Committed {
        /// Its number.
        number: u32,
        /// The reports of the stages before the commit, in order.
        reports: Items<Bytes>,
        /// What became of the hooks after the commit.
        post: PostCommit,
    },
    /// A hook failed before the commit, which wasn't made.
    HooksFailed {
        /// The stage of the hook.
        stage: Stage,
        /// The reports of the stages up to this one, in order.
        reports: Items<Bytes>,
    },
    /// The cached results were removed; this is their number.
    Forgot(u64),
    /// How many results are cached at most is set, and so many are left.
    Limited(u64),
    /// One of several changes of the staged files was refused, and so all of them. The repository is as it
    /// was.
    EditRefused(StagingStop),
    /// The command was refused. The repository is as it was.
    Refused(HostRefusal),
}

/// What became of the hooks after a commit.
#[derive(Debug, Drop)]
pub enum PostCommit {
    /// They were run, and this is their report.
    Told(Bytes),
    /// Their run was refused. The commit remains: hooks of `post-commit` can't affect it (githooks(5),
    /// "post-commit").
    Stopped(RunRefusal),
}
