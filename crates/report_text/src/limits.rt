//! The limit of a report, proved to be that of `specs/Limits.antt`.

/// The most bytes that a hook's name may have: 1 MiB (1,048,576 bytes). A name of exactly this length is
/// allowed.
pub const MOST_NAME_BYTES: usize = 1_048_576;
