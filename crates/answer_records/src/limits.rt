//! The limit of a record, proved to be that of `specs/Limits.antt`.

use hook_base::MOST_FILE_BYTES;

/// The most bytes that a record may have: as many as a file, 16 MiB. A record of exactly this size is
/// allowed.
pub const MOST_RECORD_BYTES: usize = MOST_FILE_BYTES;
