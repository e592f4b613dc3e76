//! Names, and where they are cut.
//!
//! The contracts cite `specs/Cuts.antt` and `specs/LastCuts.antt`.

ghost use Rattle.std.specs.Prelude.{◌≡◌, ◌<◌};
ghost use Rattle.file_tags.specs.Cuts.{is_path_slash, last_part, extension_of};
ghost use Rattle.file_tags.specs.LastCuts.{IsCutAtLast, has_other_than_dots};

// What comes before the last such character and what follows it. `None` if there is none.
pub(crate) fn cut_at_last(text: &str, mark: char) -> Option<(&str, &str)>
    requires { mark < 128 }
    ensures { IsCutAtLast mark text.now result }
{
    text.rsplit_once(mark)
}

/// What follows the last slash, or all of the text if there is none.
pub(crate) fn last_part(text: &str) -> &str
    ensures { result.now ≡ last_part is_path_slash text.now }
{
    match cut_at_last(text, '/') {
        Some((_, after)) => after,
        None => text,
    }
}

/// What follows the last dot that has another character somewhere before it, or nothing if there is no such
/// dot. (The extension of Python 3.11's os.path.splitext, without its dot.)
pub(crate) fn extension_of(name: &str) -> &str
    ensures { result.now ≡ extension_of name.now }
{
    match cut_at_last(name, '.') {
        Some((before, after)) if has_other_than_dots(before.as_bytes()) => after,
        _ => "",
    }
}

fn has_other_than_dots(bytes: &[u8]) -> bool
    ensures { result ≡ has_other_than_dots bytes.now }
{
    bytes.iter().any(|byte| *byte != b'.')
}
