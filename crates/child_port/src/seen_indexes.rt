//! The indexes in a tree of the files that a command's words and further paths name.

ghost use Rattle.std.specs.Prelude.{◌||◌, [], List, ℕ, Bool, IfOk, OnOk};
ghost use Rattle.std.specs.Str.{bytes_eq};
ghost use Rattle.child_port.specs.Indexes.{AreIndexesOf};
ghost use Rattle.child_port.specs.Seen.{is_seen_path};

use crate::path_index::path_index;
use crate::plain_word;
use hook_base::{OutOfMemory, RepoPath, Text, Tree};
use std::alloc::{AllocError, Global};

/// The indexes of the files whose path is an extra one, or one of the words without one leading `./`. They
/// are in the order of the extra paths and then of the words, and a file named more than once is listed each
/// time.
pub(crate) fn seen_indexes(
    alloc: Global,
    words: &[Text],
    extra: &[RepoPath],
    tree: &Tree,
) -> Result<Vec<usize>, OutOfMemory>
    ensures { IfOk result (λ indexes. AreIndexesOf (is_seen_path words.now extra.now) tree.now indexes.items) }
{
    let mut indexes = extra_indexes(alloc, extra, tree)?;
    let mut near = 0;
    'words: for word in words {
        near = push_index(&mut indexes, tree, plain_word(word.as_str()), near)?;
    }
    Ok(indexes)
}

// The same for the extra paths alone.
fn extra_indexes(alloc: Global, extra: &[RepoPath], tree: &Tree) -> Result<Vec<usize>, OutOfMemory>
    ensures { IfOk result (λ indexes. AreIndexesOf (is_seen_path [] extra.now) tree.now indexes.items) }
{
    let mut indexes = Vec::new(alloc);
    let mut near = 0;
    'extra: for path in extra {
        near = push_index(&mut indexes, tree, path.as_str(), near)?;
    }
    Ok(indexes)
}

// Adds the index of the file at a path, if there is one, and answers the index to try first for the next
// name. The names of a command are in the order of the paths, so the next one is mostly that of the next
// file.
fn push_index(
    indexes: &mut Vec<usize>,
    tree: &Tree,
    path: &str,
    near: usize,
) -> Result<usize, OutOfMemory>
    ensures { OnOk result ((keeps : List ℕ → Bool) → AreIndexesOf keeps tree.now indexes.old.items
        → AreIndexesOf (λ other. keeps other || bytes_eq path.now other) tree.now indexes.new.items) }
{
    let Some(index) = path_index(tree, path, near) else {
        return Ok(near);
    };
    indexes.push(index)?;
    Ok(index.saturating_add(1))
}
