//! What is requested of the staged files.

use hook_base::{Bytes, Mode, Text};

/// A requested change of the staged files.
#[derive(Debug, Drop)]
pub enum StagingEdit {
    /// A file is staged, in place of the one at its path.
    Add {
        /// The path, as a text that may be no valid path.
        path: Text,
        /// The file's bytes.
        bytes: Bytes,
        /// The mode. With `None` it is that of the staged file at the path, or plain if there is none.
        mode: Option<Mode>,
    },
    /// A path is removed from the staged files.
    Remove {
        /// The path, as a text that may be no valid path.
        path: Text,
    },
}
