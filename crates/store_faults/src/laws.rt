//! Laws of the limits. Each is a function without a result, and what it ensures is a theorem.

ghost use Rattle.std.specs.Prelude.{◌≡◌};
ghost use Rattle.store_faults.specs.Limits.{first_limit, most_answers, most_commits, most_content_bytes, most_files, most_tree_path_bytes};

use crate::limits::{
    FIRST_LIMIT, MOST_ANSWERS, MOST_COMMITS, MOST_CONTENT_BYTES, MOST_FILES, MOST_TREE_PATH_BYTES,
};

/// The limits in the code are those that the contracts name.
pub fn the_limits_are_those_of_the_contracts()
    ensures contents { MOST_CONTENT_BYTES ≡ most_content_bytes }
    ensures files { MOST_FILES ≡ most_files }
    ensures paths { MOST_TREE_PATH_BYTES ≡ most_tree_path_bytes }
    ensures commits { MOST_COMMITS ≡ most_commits }
    ensures answers { MOST_ANSWERS ≡ most_answers }
    ensures first { FIRST_LIMIT ≡ first_limit }
{}
