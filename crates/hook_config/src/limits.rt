//! The limits of a configuration. Each is also in `specs/Limits.antt`, and the contracts of the code that
//! checks it are proved only if both are the same.

use yaml_profile::MOST_BYTES;

/// The greatest number of hooks of a configuration.
pub const MOST_HOOKS: usize = 500;

/// The most names that a child of a hook is given: 100,000. A hook may ask for fewer.
pub const MOST_NAMES: usize = 100_000;

/// The greatest number of bytes of a text of a configuration, which is that of the whole configuration.
pub const MOST_TEXT_BYTES: usize = MOST_BYTES;
