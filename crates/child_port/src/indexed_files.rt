//! The files at indexes of a tree.

ghost use Rattle.std.specs.Prelude.{◌≡◌, ◌<◌, IfOk, IsTrue, length};
ghost use Rattle.std.specs.List.{All};
ghost use Rattle.child_port.specs.Indexes.{is_indexed};
ghost use Rattle.child_port.specs.SeenLemmas.{files_where};

use hook_base::{OutOfMemory, Tree};
use std::alloc::{AllocError, Global};

/// The files of the tree at these indexes, which share their contents with it. Rising indexes are the
/// cheapest: each file is then added after the last one, and if they are all indexes of the tree, the tree is
/// copied.
pub(crate) fn indexed_files(
    alloc: Global,
    tree: &Tree,
    indexes: &[usize],
) -> Result<Tree, OutOfMemory>
    requires { All (λ index. index < length tree.now) indexes.now }
    ensures { IfOk result (λ files. files ≡ files_where (is_indexed tree.now indexes.now) tree.now) }
{
    if are_all(tree, indexes) {
        tree.copy()
    } else {
        put_indexed(alloc, tree, indexes)
    }
}

// Whether all indexes of the tree occur in rising order, with any others in between.
fn are_all(tree: &Tree, indexes: &[usize]) -> bool
    requires { All (λ index. index < length tree.now) indexes.now }
    ensures { IsTrue result → tree.now ≡ files_where (is_indexed tree.now indexes.now) tree.now }
{
    let count = tree.len();
    let mut next = 0;
    'indexes: for index in indexes {
        if *index == next {
            next += 1;
        }
    }
    next == count
}

// The same files, one by one.
fn put_indexed(alloc: Global, tree: &Tree, indexes: &[usize]) -> Result<Tree, OutOfMemory>
    requires { All (λ index. index < length tree.now) indexes.now }
    ensures { IfOk result (λ files. files ≡ files_where (is_indexed tree.now indexes.now) tree.now) }
{
    let mut files = Tree::new(alloc);
    'indexes: for index in indexes {
        files.put_shared(tree.shared(*index).clone()?)?;
    }
    Ok(files)
}
