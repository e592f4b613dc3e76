//! Laws about what the contracts cite. Each is a function without a result: what it ensures is a theorem.

ghost use Rattle.std.specs.Prelude.{◌≡◌};
ghost use Rattle.report_text.specs.Limits.{most_name_bytes};

use crate::MOST_NAME_BYTES;

/// The limit in the code is that of the definitions.
pub fn the_limit_is_that_defined()
    ensures { MOST_NAME_BYTES ≡ most_name_bytes }
{}
