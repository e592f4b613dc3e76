//! `explain`: why a configuration is refused, or what its hooks will do.

ghost use Rattle.std.specs.Prelude.{◌≡◌};
ghost use Rattle.hookhost.specs.Names.{shown_name};

use crate::files::{is_standard_input, read_word};
use crate::folder_files::readable_files;
use crate::stop::CommandStop;
use configuration_explain::{Explanation, explain};
use hook_base::Text;
use hook_cli::MOST_CONFIGURATION_BYTES;

/// The explanation of the configuration in a file or in standard input, for the regular files that can be
/// found in the working folder. A file that can't be read is `CommandStop::CannotUse`, and want of memory is
/// `CommandStop::Refused`.
pub(crate) fn explain_file(rt: &HostRuntime, word: Text) -> Result<Explanation, CommandStop> {
    let name = word.clone()?;
    let bytes = match read_word(rt, word.as_str(), MOST_CONFIGURATION_BYTES + 1) {
        Ok(bytes) => bytes,
        Err(error) => return Err(CommandStop::of_file(&error, word)),
    };
    let mut paths = Vec::new(rt.alloc());
    'files: for path in readable_files(rt)? {
        paths.push(Text::from(path))?;
    }
    let explanation = explain(
        rt.alloc(),
        shown(name.as_str()),
        bytes.as_slice(),
        paths.as_slice(),
    )?;
    Ok(explanation)
}

// How messages show a file: by its name, or `<stdin>` for standard input.
fn shown(name: &str) -> &str
    ensures { result.now ≡ shown_name name.now }
{
    if is_standard_input(name) {
        "<stdin>"
    } else {
        name
    }
}
