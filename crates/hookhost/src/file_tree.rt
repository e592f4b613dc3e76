//! The tree of the files that words name.
//!
//! The contracts cite `specs/FileTrees.antt`.

ghost use Rattle.std.specs.Prelude.{◌≡◌, IfOk};
ghost use Rattle.hookhost.specs.FileTrees.{HoldsFiles, plain_file};

use hook_base::{Bytes, Content, File, FileEntry, Mode, OutOfMemory, RepoPath, Tree};
use std::alloc::Global;

/// The tree's row of a file with these bytes, which hooks see as a plain file.
pub(crate) fn plain_file(alloc: Global, path: RepoPath, bytes: Vec<u8>) -> Result<File, OutOfMemory>
    ensures { IfOk result (λ file. file ≡ plain_file path bytes.items) }
{
    let bytes = Content::new(alloc, Bytes::from(bytes))?;
    let mode = Mode::Plain;
    Ok(File {
        path,
        entry: FileEntry { mode, bytes },
    })
}

/// The tree of the files. If several have the same path, it has one of them.
pub(crate) fn tree_of(alloc: Global, files: Vec<File>) -> Result<Tree, OutOfMemory>
    ensures { IfOk result (HoldsFiles files.items) }
{
    let mut files = files;
    // In this order each file is put at the tree's end, where nothing has to move.
    files.sort_by(|one, other| one.path.cmp(&other.path))?;
    tree_in_order(alloc, files)
}

fn tree_in_order(alloc: Global, files: Vec<File>) -> Result<Tree, OutOfMemory>
    ensures { IfOk result (HoldsFiles files.items) }
{
    let mut tree = Tree::new(alloc);
    'files: for file in files {
        tree.put(file.path, file.entry)?;
    }
    Ok(tree)
}
