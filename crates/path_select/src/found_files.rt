//! The files of a tree that one pattern selects.

ghost use Rattle.std.specs.Prelude.{◌≡◌, IfOk};
ghost use Rattle.path_select.specs.Selection.{found_in};

use crate::Pattern;
use crate::search::Search;
use hook_base::{Items, OutOfMemory, RepoPath, Tree};
use std::alloc::Global;

/// The paths of the tree's files in which the pattern is found, in their order. Neither other patterns nor
/// tags are looked at. It is what [`crate::select`] gives with all paths as candidates, if all other patterns
/// are the default ones of a configuration, and no tags are asked for ([`crate::laws`]). `OutOfMemory` if
/// memory is refused.
pub fn select_found(
    alloc: Global,
    pattern: &Pattern,
    tree: &Tree,
) -> Result<Items<RepoPath>, OutOfMemory>
    ensures { IfOk result (λ found. found ≡ found_in pattern.now tree.now) }
{
    let mut search = Search::new(alloc, pattern)?;
    let mut found = Vec::new(alloc);
    'files: for index in 0..tree.len() {
        let path = &tree.entry(index).path;
        if search.finds(path.as_str()) {
            found.push(path.clone()?)?;
        }
    }
    Ok(Items::from(found))
}
