//! Limits that the crates share (docs/REFERENCE.md, "Limits"), each proved to be that of `specs/Limits.antt`.

/// The most bytes that a path may have: 4,096. A path of exactly this length is legal.
pub const MOST_PATH_BYTES: usize = 4_096;

/// The most bytes that a file or the message of a commit may have: 16 MiB (16,777,216 bytes). A file of
/// exactly this size is allowed.
pub const MOST_FILE_BYTES: usize = 16_777_216;
