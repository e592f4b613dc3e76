//! What the tables give for a name.
//!
//! The contracts cite `specs/TagTables.antt` and `specs/FileTags.antt`.

ghost use Rattle.std.specs.Prelude.{◌≡◌, ◌∷◌};
ghost use Rattle.file_tags.specs.Cuts.{before_dots};
ghost use Rattle.file_tags.specs.FileTags.{name_tags};
ghost use Rattle.file_tags.specs.TagTables.{texts_of, rows_of_tag_table, name_rows, extension_rows, interpreter_rows, tags_in, tags_of_first};

use crate::cuts::cut_at_last;
use crate::tables::{EXTENSIONS, INTERPRETERS, NAMES};

// The tags of the first row that has the name; none if no row has it.
fn tags_in(
    rows: &'static [(&'static str, &'static [&'static str])],
    name: &str,
) -> &'static [&'static str]
    ensures { texts_of result.now ≡ tags_in (rows_of_tag_table rows.now) name.now }
{
    'rows: for row in rows {
        if row.0 == name {
            return row.1;
        }
    }
    &[]
}

#[tactic(auto, unfolding(crate::specs::TagTables::name_rows))]
fn row_of_name(name: &str) -> &'static [&'static str]
    ensures { texts_of result.now ≡ tags_in name_rows name.now }
{
    tags_in(&NAMES, name)
}

#[tactic(auto, unfolding(crate::specs::TagTables::interpreter_rows))]
fn row_of_interpreter(name: &str) -> &'static [&'static str]
    ensures { texts_of result.now ≡ tags_in interpreter_rows name.now }
{
    tags_in(&INTERPRETERS, name)
}

/// The tags of an extension in lower case.
#[tactic(auto, unfolding(crate::specs::TagTables::extension_rows))]
pub(crate) fn row_of_extension(extension: &str) -> &'static [&'static str]
    ensures { texts_of result.now ≡ tags_in extension_rows extension.now }
{
    tags_in(&EXTENSIONS, extension)
}

/// The tags of a file's whole name, otherwise of the first of its pieces between dots that has any.
/// (identify 2.5's tags_from_filename: `Dockerfile.xenial` is a `Dockerfile`.)
pub(crate) fn name_tags(name: &str) -> &'static [&'static str]
    ensures { texts_of result.now ≡ name_tags name.now }
{
    let mut tags = row_of_name(name);
    'pieces: for piece in name.split('.') {
        if tags.is_empty() {
            tags = row_of_name(piece);
        }
    }
    tags
}

/// The tags of an interpreter, otherwise of the longest part of its name before a dot that has any.
/// (identify 2.5's tags_from_interpreter: `python3.5.2`, `python3.5`, `python3`.)
pub(crate) fn interpreter_tags(interpreter: &str) -> &'static [&'static str]
    ensures { texts_of result.now ≡ tags_of_first interpreter_rows (interpreter.now ∷ before_dots interpreter.now) }
{
    let mut name = interpreter;
    'dots: while let Some((before, _)) = cut_at_last(name, '.') {
        let tags = row_of_interpreter(name);
        if !tags.is_empty() {
            return tags;
        }
        name = before;
    }
    row_of_interpreter(name)
}
