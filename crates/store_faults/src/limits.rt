//! How much a store takes (docs/REFERENCE.md, "Limits"). `specs/Limits` has the same limits for the
//! contracts, and [`crate::laws`] proves that they agree.

use hook_base::MOST_FILE_BYTES;

/// The most bytes of a file's contents, and of a commit's message: 16 MiB.
pub const MOST_CONTENT_BYTES: usize = MOST_FILE_BYTES;

/// The most files of a staged tree, and so the most fixes.
pub const MOST_FILES: usize = 100_000;

/// The most bytes of the paths of a staged tree together: 8 MiB.
pub const MOST_TREE_PATH_BYTES: usize = 8_388_608;

/// The most commits.
pub const MOST_COMMITS: usize = 100_000;

/// The highest limit on cached answers that a store accepts.
pub const MOST_ANSWERS: u32 = 100_000;

/// The limit on cached answers of a new store.
pub const FIRST_LIMIT: u32 = 10_000;
