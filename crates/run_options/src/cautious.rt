//! What a command is taken to read in a cautious run. (docs/REFERENCE.md, "Cached results".)

ghost use Rattle.std.specs.Prelude.{◌≡◌, IfSome};
ghost use Rattle.std.specs.Option.{option_copied};
ghost use Rattle.hook_config.specs.Limits.{IsShort};
ghost use Rattle.run_options.specs.Cautious.{command_reads, new_reads, reads_of_tool};
ghost use Rattle.run_options.specs.Tools.{tool_in, tool_rows};

use crate::harmless::are_harmless;
use crate::tools::tool_named;
use hook_base::Text;
use hook_config::{Hook, Language};

// The pattern that is found in every path.
const EVERY_PATH: &str = "";

// The pattern that is found in no path, which a hook has if it doesn't say what it reads.
const NO_PATH: &str = "^$";

/// The text of the pattern that the hook has in a cautious run in place of its own. Nothing if it keeps its
/// own, because it says what it reads, or starts no command.
pub(crate) fn new_reads(hook: &Hook) -> Option<&'static str>
    ensures reads { option_copied result ≡ new_reads hook.now }
    ensures short { IfSome result (λ reads. IsShort reads.now) }
{
    if hook.x_reads.as_pattern().as_str() != NO_PATH {
        return None;
    }
    match &hook.language {
        Language::Fail | Language::Pygrep(_) => None,
        Language::System(words) => Some(command_reads(
            words.as_slice(),
            hook.pass_filenames,
            hook.always_run,
        )),
        Language::Script(_) => Some(EVERY_PATH),
    }
}

/// The text of the pattern that is found in each path that a command may read, besides the files that it is
/// given. It is that of the tool that the first word names, if the words after it let the tool read nothing
/// else. Otherwise it is the empty one, which is found in every path.
///
/// A command that isn't given the names of its files, or that may be started without any, may look for files
/// itself, so it reads every path.
pub fn command_reads(words: &[Text], pass_filenames: bool, always_run: bool) -> &'static str
    ensures reads { result.now ≡ command_reads words.now pass_filenames always_run }
    ensures short { IsShort result.now }
{
    match words {
        [name, others @ ..] if pass_filenames && !always_run => {
            tool_reads(name.as_str(), others)
        }
        _ => EVERY_PATH,
    }
}

// What the tool of that name reads if it is given these words.
fn tool_reads(name: &str, words: &[Text]) -> &'static str
    ensures reads { result.now ≡ reads_of_tool (tool_in tool_rows name.now) words.now }
    ensures short { IsShort result.now }
{
    match tool_named(name) {
        Some((kind, reads, _)) if are_harmless(kind, words) => reads,
        _ => EVERY_PATH,
    }
}
