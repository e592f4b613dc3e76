//! Which files of the tree a child has seen, and which answers change others.

ghost use Rattle.std.specs.Prelude.{◌≡◌, IfOk};
ghost use Rattle.child_port.specs.Seen.{is_stray, seen_of};

use crate::Answer;
use crate::indexed_files::indexed_files;
use crate::seen_indexes::seen_indexes;
use hook_base::{OutOfMemory, RepoPath, Text, Tree};
use std::alloc::{AllocError, Global};

/// The files of the tree that a child of this command has seen: all of them if it sees the `whole`. Otherwise
/// they are those at `extra` paths, and those whose path is one of the words without one leading `./`. An
/// extra path that the tree lacks adds none. The files are shared with the tree. `OutOfMemory` if memory is
/// refused.
pub fn seen_of(
    alloc: Global,
    words: &[Text],
    extra: &[RepoPath],
    whole: bool,
    tree: &Tree,
) -> Result<Tree, OutOfMemory>
    ensures { IfOk result (λ seen. seen ≡ seen_of words.now extra.now whole tree.now) }
{
    if whole {
        return tree.copy();
    }
    let mut indexes = seen_indexes(alloc, words, extra, tree)?;
    indexes.sort_unstable();
    indexed_files(alloc, tree, indexes.as_slice())
}

/// Whether an answer strays: its changes name a file that its child hasn't seen, even one with the bytes that
/// it had already. It allocates nothing.
pub fn is_stray(answer: &Answer, seen: &Tree) -> bool
    ensures { result ≡ is_stray answer.now seen.now }
{
    'changes: for change in answer.changes.as_slice() {
        if seen.get(&change.path).is_none() {
            return true;
        }
    }
    false
}
