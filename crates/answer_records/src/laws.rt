//! Laws about what the contracts cite. Each is a function without a result: what it ensures is a theorem.

ghost use Rattle.std.specs.Prelude.{◌≡◌, ℕ, List};
ghost use Rattle.hook_base.specs.declared.change.Change.{Change};
ghost use Rattle.hook_base.specs.declared.file.File.{File};
ghost use Rattle.answer_records.specs.declared.changed_file.ChangedFile.{ChangedFile};
ghost use Rattle.answer_records.specs.declared.seen_file.SeenFile.{SeenFile};
ghost use Rattle.answer_records.specs.Limits.{most_record_bytes};
ghost use Rattle.answer_records.specs.Reading.{HaveDigests, HaveNewDigests, HaveOneRecord, IsChangesRecord, IsSeenRecord, IsWordsRecord, TellsItsValue};
ghost use Rattle.answer_records.specs.Records.{changed_of_changes, changes_record, seen_of_files, seen_record, words_record};

use crate::MOST_RECORD_BYTES;

/// The limit in the code is that of the definitions.
pub fn the_limit_is_that_defined()
    ensures { MOST_RECORD_BYTES ≡ most_record_bytes }
{}

/// Bytes are the record of one value at most: what is read from a record is what it was made of.
pub fn bytes_are_the_record_of_one_value()
    ensures words { TellsItsValue IsWordsRecord }
    ensures seen { TellsItsValue IsSeenRecord }
    ensures changes { TellsItsValue IsChangesRecord }
{}

/// Two different lists of words have different records.
pub fn a_record_tells_its_words()
    ensures { (words others : List (List ℕ)) → HaveOneRecord words_record words others → words ≡ others }
{}

/// Two different lists of seen files have different records.
pub fn a_record_tells_its_seen_files()
    ensures { (files others : List SeenFile) → HaveDigests files → HaveDigests others
        → HaveOneRecord seen_record files others → files ≡ others }
{}

/// Two different lists of changed files have different records.
pub fn a_record_tells_its_changed_files()
    ensures { (files others : List ChangedFile) → HaveNewDigests files → HaveNewDigests others
        → HaveOneRecord changes_record files others → files ≡ others }
{}

/// Files with the same record have the same paths, modes and digests of their bytes.
pub fn seen_files_of_one_record_are_alike()
    ensures { (files others : List File) → HaveOneRecord seen_record (seen_of_files files) (seen_of_files others)
        → seen_of_files files ≡ seen_of_files others }
{}

/// Changes with the same record have the same paths and the same digests of the new bytes.
pub fn changes_of_one_record_are_alike()
    ensures { (changes others : List Change)
        → HaveOneRecord changes_record (changed_of_changes changes) (changed_of_changes others)
        → changed_of_changes changes ≡ changed_of_changes others }
{}
