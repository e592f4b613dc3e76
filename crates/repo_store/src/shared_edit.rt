//! A change of the staged files as it is made.

use crate::shared::ListedFile;
use hook_base::RepoPath;

/// The file that is staged at a path from then on, or `None` if the path is no longer staged.
#[derive(Drop)]
pub(crate) struct SharedEdit {
    pub(crate) path: RepoPath,
    pub(crate) file: Option<ListedFile>,
}
