//! Laws of the definitions that the contracts cite. Each law is a function that returns nothing: what it
//! ensures is a theorem.

ghost use Rattle.std.specs.Prelude.{◌≡◌, ◌↔◌, ℕ, IsTrue, List};
ghost use Rattle.hook_base.specs.declared.file.FileEntry.{FileEntry};
ghost use Rattle.file_tags.specs.FileTags.{has_tag, tags_of_file};
ghost use Rattle.file_tags.specs.Reasons.{Reason};
ghost use Rattle.file_tags.specs.Shebangs.{most_shebang_bytes};
ghost use Rattle.file_tags.specs.TableRules.{are_rows, are_small};
ghost use Rattle.file_tags.specs.TagTables.{name_rows, extension_rows, interpreter_rows};

use crate::MOST_SHEBANG_BYTES;

/// The most bytes after `#!`: code and definitions have the same number.
pub fn the_limit_is_that_defined()
    ensures { MOST_SHEBANG_BYTES ≡ most_shebang_bytes }
{}

/// In each table every row gives a tag, and no name is empty or occurs twice. Extensions have no ASCII
/// capital letter.
#[tactic(auto, unfolding(crate::specs::TagTables::name_rows, crate::specs::TagTables::extension_rows, crate::specs::TagTables::interpreter_rows))]
pub fn the_tables_are_fit()
    ensures names { IsTrue (are_rows name_rows) }
    ensures extensions { IsTrue (are_rows extension_rows) }
    ensures small { IsTrue (are_small extension_rows) }
    ensures interpreters { IsTrue (are_rows interpreter_rows) }
{}

/// A file has a tag exactly if one of the rules gives it.
pub fn each_tag_has_a_reason()
    ensures { (tag path : List ℕ) (entry : FileEntry)
        → IsTrue (has_tag tag (tags_of_file path entry)) ↔ Reason tag path entry }
{}
