//! Laws about what the contracts cite. Each is a function without a result: what it ensures is a theorem.

ghost use Rattle.std.specs.Prelude.{◌≡◌};
ghost use Rattle.hook_base.specs.Limits.{most_file_bytes, most_path_bytes};

use crate::{MOST_FILE_BYTES, MOST_PATH_BYTES};

/// The limits in the code equal those of the definitions.
pub fn the_limits_are_those_defined()
    ensures path { MOST_PATH_BYTES ≡ most_path_bytes }
    ensures file { MOST_FILE_BYTES ≡ most_file_bytes }
{}
