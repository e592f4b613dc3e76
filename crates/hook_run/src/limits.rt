//! The limit of a command, proved to be that of `specs/Limits.antt`.

/// The most bytes of a command: those of its words and names, and one between neighbours. They are 131,072
/// (2^17), the most that `pre_commit.xargs._get_platform_max_length` gives on POSIX.
pub const MOST_COMMAND_BYTES: usize = 131_072;
