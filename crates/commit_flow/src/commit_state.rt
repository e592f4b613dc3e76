//! What passes from stage to stage of a commit.

ghost use Rattle.std.specs.Prelude.{◌≡◌, List, IfOk};
ghost use Rattle.hook_base.specs.declared.file.File.{File};
ghost use Rattle.commit_flow.specs.CommitStages.{course_after, tree_in, with_message_file, without_message_file};

use hook_base::{Content, FileEntry, Mode, OutOfMemory, RepoPath, Tree};
use hook_config::Stage;
use std::alloc::Global;

/// What passes from stage to stage of a commit: the files, and the message.
#[derive(Drop)]
pub(crate) struct CommitState {
    pub(crate) tree: Tree,
    pub(crate) message: Content,
}

impl CommitState {
    /// The course when a stage begins. In the two stages about the message, the message is a file of the
    /// tree.
    pub(crate) fn into_stage(self, alloc: Global, stage: Stage) -> Result<CommitState, OutOfMemory>
        ensures tree { IfOk result (λ begun. begun.tree ≡ tree_in stage self) }
        ensures after { IfOk result (λ begun. (tree : List File)
            → course_after stage begun tree ≡ course_after stage self tree) }
    {
        match stage {
            Stage::PrepareCommitMsg => self.with_message_file(alloc),
            Stage::CommitMsg => self.with_message_file(alloc),
            _ => Ok(self),
        }
    }

    /// The course after a stage that has left this tree.
    pub(crate) fn after_stage(
        self,
        alloc: Global,
        stage: Stage,
        tree: Tree,
    ) -> Result<CommitState, OutOfMemory>
        ensures { IfOk result (λ after. after ≡ course_after stage self tree) }
    {
        match stage {
            Stage::PrepareCommitMsg => without_message_file(alloc, tree),
            Stage::CommitMsg => without_message_file(alloc, tree),
            _ => Ok(CommitState {
                tree,
                message: self.message,
            }),
        }
    }

    fn with_message_file(self, alloc: Global) -> Result<CommitState, OutOfMemory>
        ensures { IfOk result (λ begun. begun.tree ≡ with_message_file self) }
    {
        let CommitState { tree, message } = self;
        let mut tree = tree;
        let path = RepoPath::message(alloc)?;
        let entry = FileEntry {
            mode: Mode::Plain,
            bytes: message.clone()?,
        };
        tree.put(path, entry)?;
        Ok(CommitState { tree, message })
    }
}

// The files of a tree without the message's file, and the message that was in it. The message is empty if
// there was no such file.
fn without_message_file(alloc: Global, tree: Tree) -> Result<CommitState, OutOfMemory>
    ensures { IfOk result (λ course. course ≡ without_message_file tree) }
{
    let mut tree = tree;
    let path = RepoPath::message(alloc)?;
    let message = match tree.get(&path) {
        Some(entry) => entry.bytes.clone()?,
        None => Content::copy_of(alloc, b"")?,
    };
    tree.remove(&path);
    Ok(CommitState { tree, message })
}
