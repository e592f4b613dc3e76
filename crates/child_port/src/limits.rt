//! The limit of a child, proved to be that of `specs/Limits.antt`.

/// The most bytes that the two outputs of a child may have together: 1 MiB (1,048,576 bytes). Exactly this
/// many are allowed.
pub const MOST_OUTPUT_BYTES: usize = 1_048_576;
