//! Laws of the definitions that the contracts cite, in YAML's own words. Each law is a function that
//! returns nothing: what it ensures is a theorem about the definitions alone.

ghost use Rattle.std.specs.Prelude.{◌≡◌, ℕ, ◌++◌, ◌<◌, true, false, List, [], ◌∷◌, length, Option, Some, None, IfSome, codes, encode_utf8_all};
ghost use Rattle.std.specs.List.{list_all, list_any};
ghost use Rattle.yaml_lines.specs.BlockLaws.{literal, all_indented, text_of_lines, begins_bare, ends_full};
ghost use Rattle.yaml_lines.specs.BlockTexts.{LineText, margin_of, extent, is_ragged, block_text};
ghost use Rattle.yaml_lines.specs.Characters.{blank_or_end, comment_or_end, is_over, most_bytes};
ghost use Rattle.yaml_lines.specs.Entries.{ContentLine, KeyAndValue, entry_of_line, is_item, item_of, value_behind};
ghost use Rattle.yaml_lines.specs.LineLaws.{saying, begins_text, holds_no_bar, ended};
ghost use Rattle.yaml_lines.specs.Lines.{standing, all_content_lines, last_value, content_lines_from};
ghost use Rattle.yaml_lines.specs.declared.header.Chomping.TheVariants.{Clip, Keep};
ghost use Rattle.yaml_lines.specs.declared.flow_state.FlowState.{FlowState};
ghost use Rattle.yaml_lines.specs.Meaning.{Meaning, text};
ghost use Rattle.yaml_lines.specs.QuotingLaws.{IsPlainAlone, in_quotes, fits_single, fits_double, doubled, escaped, written, holds_no_feed};
ghost use Rattle.yaml_lines.specs.Scalars.{scalar_meaning};

use crate::MOST_BYTES;

/// Quoting a text changes nothing but its mark. `make test`, `'make test'` and `"make test"` are the same
/// text; only the second and the third are marked as quoted.
///
/// This is true of every plain text without characters to which the quotes give a meaning. For single
/// quotes that is `'`, for double quotes `"` and a backslash, and for both a line feed. So `'8080'` and
/// `8080` have the same characters. A reader that separates texts from numbers sees by the mark which of
/// them may be a number.
pub fn quoting_keeps_the_text()
    ensures bare { (content bytes : List ℕ) → IsPlainAlone content bytes
        → scalar_meaning content ≡ Some (text bytes false) }
    ensures single { (content bytes : List ℕ) → IsPlainAlone content bytes → fits_single content ≡ true
        → scalar_meaning (in_quotes 39 content) ≡ Some (text bytes true) }
    ensures double { (content bytes : List ℕ) → IsPlainAlone content bytes → fits_double content ≡ true
        → scalar_meaning (in_quotes 34 content) ≡ Some (text bytes true) }
{}

/// Quoting a key changes nothing at all: `name: app`, `'name': app` and `"name": app` begin the same entry,
/// with the key `name` and the value `app`. This is true of the keys for which `quoting_keeps_the_text` is
/// true as texts.
pub fn quoting_a_key_changes_nothing()
    ensures bare { (key bytes behind : List ℕ) → IsPlainAlone key bytes → blank_or_end behind ≡ true
        → entry_of_line (key ++ 58 ∷ behind) ≡ Some (record { key = bytes; value = value_behind behind }) }
    ensures single { (key bytes behind : List ℕ) → IsPlainAlone key bytes → fits_single key ≡ true
        → blank_or_end behind ≡ true
        → entry_of_line (in_quotes 39 key ++ 58 ∷ behind) ≡ Some (record { key = bytes; value = value_behind behind }) }
    ensures double { (key bytes behind : List ℕ) → IsPlainAlone key bytes → fits_double key ≡ true
        → blank_or_end behind ≡ true
        → entry_of_line (in_quotes 34 key ++ 58 ∷ behind) ≡ Some (record { key = bytes; value = value_behind behind }) }
{}

/// Every text can be written in quotes. Single quotes need each `'` twice, and a text without a line feed.
/// Double quotes need a backslash before each `"` and each backslash, and `\n` for each line feed. So
/// `it's` is `'it''s'`, and `say "yes"` is `"say \"yes\""`.
pub fn every_text_can_be_quoted()
    ensures single { (characters : List ℕ) → holds_no_feed characters ≡ true
        → scalar_meaning (in_quotes 39 (written doubled characters)) ≡ Some (text (encode_utf8_all characters) true) }
    ensures double { (characters : List ℕ)
        → scalar_meaning (in_quotes 34 (written escaped characters)) ≡ Some (text (encode_utf8_all characters) true) }
{}

/// Comments and empty lines say nothing. Without the lines that hold only blanks, or blanks and a comment,
/// a text leaves the same content lines. If it can't be read, it can't be read without them either. So
///
/// ```yaml
/// # what is built
/// app:
///
///   - main.c
/// ```
///
/// leaves what `app:` and `  - main.c` leave.
///
/// `lines` says so inside a flow too, whatever is open there, and `text` says it of a whole text. Both need
/// that no line begins a block text, since in a block text such lines are part of the text. In a text
/// without `|` and `>` no line does, as `without_bars` says.
pub fn comments_and_empty_lines_say_nothing()
    ensures lines { (flow : FlowState) (lines : List LineText) → list_any begins_text lines ≡ false
        → all_content_lines (standing 0 flow) (saying lines) ≡ all_content_lines (standing 0 flow) lines }
    ensures text { (lines : List LineText) → list_any begins_text lines ≡ false
        → content_lines_from (saying lines) ≡ content_lines_from lines }
    ensures without_bars { (lines : List LineText) → list_all holds_no_bar lines ≡ true
        → content_lines_from (saying lines) ≡ content_lines_from lines }
{}

/// A comment after a text says nothing: `make # the default` and `'make'   # the default` are the texts
/// `make` and `'make'`. If a content is a text, plain or quoted, it is the same text with blanks after it,
/// and with blanks and a comment after it.
pub fn a_comment_behind_a_text_says_nothing()
    ensures { (content behind : List ℕ) (m : Meaning) → is_over behind ≡ true → scalar_meaning content ≡ Some m
        → scalar_meaning (content ++ behind) ≡ Some m }
{}

/// The last value on a line, and its column, are what the readers of items and entries find there:
/// - after a dash, it is the last value of what follows the dash, and that value belongs to the dash;
/// - of an entry, it is the entry's value, at the key's column;
/// - of a content that is neither an item nor an entry, it is the whole content if a dash comes before it,
///   and otherwise there is none.
///
/// A comment alone after a dash counts as the dash's value; it begins neither a block text nor a flow.
/// `dash` is the column of the last dash before the content line, which begins with no blank.
pub fn a_last_value_is_that_of_the_item_or_the_entry()
    ensures item { (p rest : ContentLine) (dash : Option ℕ) → is_item p.content ≡ true → item_of p ≡ Some (rest ∷ [])
        → last_value p.indent dash p.content ≡ last_value rest.indent (Some p.indent) rest.content }
    ensures empty_item { (p : ContentLine) (dash : Option ℕ) → is_item p.content ≡ true → item_of p ≡ Some []
        → IfSome (last_value p.indent dash p.content) (λ value. comment_or_end value.content ≡ true) }
    ensures entry { (p : ContentLine) (dash : Option ℕ) (entry : KeyAndValue) → blank_or_end p.content ≡ false
        → is_item p.content ≡ false → entry_of_line p.content ≡ Some entry
        → last_value p.indent dash p.content ≡ Some (record { column = p.indent; content = entry.value }) }
    ensures value { (p : ContentLine) (column : ℕ) → blank_or_end p.content ≡ false → is_item p.content ≡ false
        → entry_of_line p.content ≡ None
        → last_value p.indent (Some column) p.content ≡ Some (record { column = column; content = p.content }) }
    ensures text { (p : ContentLine) → blank_or_end p.content ≡ false → is_item p.content ≡ false
        → entry_of_line p.content ≡ None
        → last_value p.indent None p.content ≡ None }
{}

/// A text that is written in the lines of a literal block text is that text. Indent each line alike, deeper
/// than the key or the dash: `|` gives the lines as they were, each with its line feed.
///
/// The first line must hold something and begin with no space, since it gives the indentation. For `|` the
/// last line must hold something too; `|+` also keeps empty lines at the end. Blanks, `#`, quotes, dashes
/// and colons in the lines are text.
///
/// `margin` says which indentation is found, `belong` that each line belongs to the text, `even` that none
/// is refused.
pub fn a_text_in_lines_of_a_literal_block_text_is_that_text()
    ensures margin { (column margin : ℕ) (lines : List (List ℕ)) → column < margin → begins_bare lines ≡ true
        → margin_of column (all_indented margin lines) ≡ Some margin }
    ensures belong { (margin : ℕ) (lines : List (List ℕ))
        → extent (Some margin) (all_indented margin lines) ≡ length lines }
    ensures even { (margin : ℕ) (lines : List (List ℕ)) → begins_bare lines ≡ true
        → is_ragged (Some margin) (all_indented margin lines) ≡ false }
    ensures clipped { (margin : ℕ) (lines : List (List ℕ)) → ends_full lines ≡ true
        → block_text (literal Clip) (Some margin) (all_indented margin lines) ≡ text_of_lines lines }
    ensures kept { (margin : ℕ) (lines : List (List ℕ))
        → block_text (literal Keep) (Some margin) (all_indented margin lines) ≡ text_of_lines lines }
{}

/// The laws on quotes, on keys and on comments need each of their conditions:
/// - in single quotes `'it's'` is no text and no key;
/// - in double quotes neither `"a"b"` nor `"a\b"` is a text;
/// - a line feed ends a quoted text's line;
/// - `'a'b` isn't `'a'` with a comment, and `a#b` is a text of three characters;
/// - `a:b` is no entry;
/// - below `a: |` a comment's line is a line of the block text.
pub fn the_laws_ask_for_what_they_need()
    ensures single { IsPlainAlone (codes "it's") (codes "it's")
        × (scalar_meaning (in_quotes 39 (codes "it's")) ≡ None) }
    ensures double { let content = 97 ∷ 34 ∷ 98 ∷ [] in IsPlainAlone content content
        × (scalar_meaning (in_quotes 34 content) ≡ None) }
    ensures backslash { let content = 97 ∷ 92 ∷ 98 ∷ [] in IsPlainAlone content content
        × (scalar_meaning (in_quotes 34 content) ≡ None) }
    ensures feed { scalar_meaning (in_quotes 39 (97 ∷ 10 ∷ 98 ∷ [])) ≡ None }
    ensures key { entry_of_line (in_quotes 39 (codes "it's") ++ codes ": a") ≡ None }
    ensures colon { IsPlainAlone (codes "a") (codes "a") × (entry_of_line (codes "a" ++ codes ":b") ≡ None) }
    ensures behind { (scalar_meaning (codes "'a'") ≡ Some (text (codes "a") true))
        × (scalar_meaning (codes "'a'b") ≡ None) }
    ensures hash { scalar_meaning (codes "a#b") ≡ Some (text (codes "a#b") false) }
    ensures block_line { content_lines_from (ended (codes "a: |") ∷ ended (codes " #") ∷ [])
        ≡ Some (record { indent = 0; content = codes "a: |"; block = Some (35 ∷ 10 ∷ []) } ∷ []) }
    ensures without_it { content_lines_from (saying (ended (codes "a: |") ∷ ended (codes " #") ∷ []))
        ≡ Some (record { indent = 0; content = codes "a: |"; block = Some [] } ∷ []) }
{}

/// The most bytes that a text may have: code and definitions have the same number.
pub fn the_limit_is_the_definitions()
    ensures { MOST_BYTES ≡ most_bytes }
{}
