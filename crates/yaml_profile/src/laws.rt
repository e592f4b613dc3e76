//! Laws of the definitions that the contracts cite, in YAML's own words. Each law is a function that
//! returns nothing: what it ensures is a theorem about the definitions alone.

ghost use Rattle.std.specs.Prelude.{◌≡◌, ℕ, ◌≤◌, ◌++◌, List, [], ◌∷◌, length, map, Some, None, false};
ghost use Rattle.std.specs.List.{list_any};
ghost use Rattle.yaml_flows.specs.Flows.{flow_meaning};
ghost use Rattle.yaml_lines.specs.Characters.{characters_of, most_bytes};
ghost use Rattle.yaml_lines.specs.LineLaws.{saying, begins_text};
ghost use Rattle.yaml_lines.specs.Lines.{line_texts};
ghost use Rattle.yaml_lines.specs.Meaning.{Meaning};
ghost use Rattle.yaml_lines.specs.Entries.{ContentLine};
ghost use Rattle.yaml_profile.specs.Blocks.{node, whole_text};
ghost use Rattle.yaml_profile.specs.Moved.{moved};
ghost use Rattle.yaml_profile.specs.Words.{AreWords, list_of_words, item_line, flow_of_words, lines_of_words, WordEntry, AreWordEntries, entry_line, flow_of_entries, lines_of_entries, table_of_entries};
ghost use Rattle.yaml_profile.specs.Text.{meaning_of};
ghost use Rattle.yaml_profile.specs.TextsWithin.{HasTextsWithin};
ghost use Rattle.yaml_profile.specs.UniqueKeys.{HasUniqueKeys};

use yaml_lines::laws::comments_and_empty_lines_say_nothing;

/// A list of words is the same in lines and in brackets:
///
/// ```yaml
/// - main.c
/// - src/app.c
/// ```
///
/// and `[main.c,src/app.c]` are both the list of the texts `main.c` and `src/app.c`, neither of them
/// quoted.
///
/// `lines` says so of the lines of such a list, at any indentation, and `brackets` of the characters of the
/// flow. `text_of_lines` and `text_in_brackets` say it of the bytes of whole texts. Room for two nested
/// nodes is enough; if there is room for only one, neither is read.
pub fn a_list_has_one_meaning_in_both_forms()
    ensures lines { (room indent : ℕ) (words : List (List ℕ)) → 2 ≤ room → AreWords words
        → node room (map (item_line indent) words) ≡ Some (list_of_words words) }
    ensures brackets { (room : ℕ) (words : List (List ℕ)) → 2 ≤ room → AreWords words
        → flow_meaning room (flow_of_words words) ≡ Some (list_of_words words) }
    ensures no_room_for_lines { (indent : ℕ) (words : List (List ℕ)) → AreWords words
        → node 1 (map (item_line indent) words) ≡ None }
    ensures no_room_for_brackets { (words : List (List ℕ)) → AreWords words
        → flow_meaning 1 (flow_of_words words) ≡ None }
    ensures text_of_lines { (words : List (List ℕ)) (bytes : List ℕ) → AreWords words
        → characters_of bytes ≡ Some (lines_of_words words) → meaning_of bytes ≡ Some (list_of_words words) }
    ensures text_in_brackets { (words : List (List ℕ)) (bytes : List ℕ) → AreWords words
        → characters_of bytes ≡ Some (flow_of_words words ++ 10 ∷ [])
        → meaning_of bytes ≡ Some (list_of_words words) }
{}

/// A table of words is the same in lines and in braces:
///
/// ```yaml
/// id: names
/// language: fail
/// ```
///
/// and `{id: names,language: fail}` are both the table with these keys and values, and neither is read if a
/// key occurs twice.
///
/// `lines` says so of the lines of such a table, at any indentation, and `braces` of the characters of the
/// flow. `text_of_lines` and `text_in_braces` say it of the bytes of whole texts. Room for two nested nodes
/// is enough.
pub fn a_table_has_one_meaning_in_both_forms()
    ensures lines { (room indent : ℕ) (entries : List WordEntry) → 2 ≤ room → AreWordEntries entries
        → node room (map (entry_line indent) entries) ≡ table_of_entries entries }
    ensures braces { (room : ℕ) (entries : List WordEntry) → 2 ≤ room → AreWordEntries entries
        → flow_meaning room (flow_of_entries entries) ≡ table_of_entries entries }
    ensures text_of_lines { (entries : List WordEntry) (bytes : List ℕ) → AreWordEntries entries
        → characters_of bytes ≡ Some (lines_of_entries entries) → meaning_of bytes ≡ table_of_entries entries }
    ensures text_in_braces { (entries : List WordEntry) (bytes : List ℕ) → AreWordEntries entries
        → characters_of bytes ≡ Some (flow_of_entries entries ++ 10 ∷ [])
        → meaning_of bytes ≡ table_of_entries entries }
{}

/// Content lines that all move the same number of columns to the right mean the same. If the ones can't be
/// read, neither can the others. `lines` says so of the lines of a node within a text, and `whole_text` of all
/// lines that a text leaves after the document's mark.
pub fn indenting_every_line_changes_nothing()
    ensures lines { (room columns : ℕ) (lines : List ContentLine)
        → node room (map (moved columns) lines) ≡ node room lines }
    ensures whole { (room columns : ℕ) (lines : List ContentLine)
        → whole_text room (map (moved columns) lines) ≡ whole_text room lines }
{}

/// Comments and empty lines change no meaning. Let one text have the lines of another without those that
/// hold only blanks, or blanks and a comment. Both mean the same, and if one can't be read, neither can the
/// other:
///
/// ```yaml
/// # what is built
/// app: main.c
/// ```
///
/// means what `app: main.c` means. This needs that no line begins a block text, since such lines are part
/// of its text.
pub fn comments_and_empty_lines_change_no_meaning()
    ensures { (bytes others characters kept : List ℕ) → characters_of bytes ≡ Some characters
        → characters_of others ≡ Some kept
        → list_any begins_text (line_texts characters) ≡ false → line_texts kept ≡ saying (line_texts characters)
        → meaning_of others ≡ meaning_of bytes }
{
    comments_and_empty_lines_say_nothing();
}

/// No table that is read has a key twice, neither the table that the text is nor one anywhere within it.
/// (YAML 1.2.2, section 3.2.1.1 "Nodes".)
pub fn a_key_stands_in_its_table_once()
    ensures { (bytes : List ℕ) (meant : Meaning) → meaning_of bytes ≡ Some meant → HasUniqueKeys meant }
{}

/// No text and no key that is read is longer than its source, however deep it lies. The source has at most
/// [`MOST_BYTES`](yaml_lines::MOST_BYTES) bytes. Escapes, quotes, folded lines and the lines of flows only
/// make a text shorter.
pub fn no_text_is_longer_than_what_it_is_read_from()
    ensures texts { (bytes : List ℕ) (meant : Meaning) → meaning_of bytes ≡ Some meant
        → HasTextsWithin (length bytes) meant }
    ensures limit { (bytes : List ℕ) (meant : Meaning) → meaning_of bytes ≡ Some meant → length bytes ≤ most_bytes }
{}
