//! The hooks that the environment skips.
//!
//! The contracts cite `specs/SkipList.antt`.

ghost use Rattle.std.specs.Prelude.{◌≡◌, IfOk};
ghost use Rattle.configuration_run.specs.SkipList.{skip_list, without_spaces, without_spaces_after, without_spaces_before};

use hook_base::{Items, OutOfMemory, Text};
use std::alloc::Global;

/// The ids and aliases that the text of `SKIP` names (pre-commit.com, "Temporarily disabling hooks"). They
/// are the pieces between its commas, without the spaces around them, except those that are then empty.
pub fn skip_list_of(alloc: Global, text: &str) -> Result<Items<Text>, OutOfMemory>
    ensures { IfOk result (λ names. names ≡ skip_list text.now) }
{
    let mut names = Vec::new(alloc);
    'pieces: for piece in text.split(',') {
        let name = without_spaces(piece);
        if !name.is_empty() {
            names.push(Text::copy_of(alloc, name)?)?;
        }
    }
    Ok(Items::from(names))
}

fn without_spaces(text: &str) -> &str
    ensures { result.now ≡ without_spaces text.now }
{
    without_spaces_after(without_spaces_before(text))
}

fn without_spaces_before(text: &str) -> &str
    ensures { result.now ≡ without_spaces_before text.now }
{
    let mut rest = text;
    'spaces: while let Some(behind) = rest.strip_prefix(' ') {
        rest = behind;
    }
    rest
}

fn without_spaces_after(text: &str) -> &str
    ensures { result.now ≡ without_spaces_after text.now }
{
    let mut rest = text;
    'spaces: while let Some(before) = rest.strip_suffix(' ') {
        rest = before;
    }
    rest
}
