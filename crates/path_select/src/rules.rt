//! What decides which files a hook gets.

use crate::Pattern;
use hook_base::Text;

/// The patterns of the whole configuration, and the patterns and tags of one hook.
#[derive(Clone, Copy)]
pub struct Rules<'a> {
    /// Found in the path of each file that any hook gets.
    pub top_files: &'a Pattern,
    /// Not found in the path of any file that a hook gets.
    pub top_exclude: &'a Pattern,
    /// Found in the path of each file that this hook gets.
    pub files: &'a Pattern,
    /// Not found in the path of any file that this hook gets.
    pub exclude: &'a Pattern,
    /// Each file has all of these tags (pre-commit.com, "Filtering files with types").
    pub types: &'a [Text],
    /// Each file has at least one of these tags, if there are any.
    pub types_or: &'a [Text],
    /// No file has one of these tags.
    pub exclude_types: &'a [Text],
}
