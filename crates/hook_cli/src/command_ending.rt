//! How a command over a repository ends, and its exit status (docs/REFERENCE.md, "The command line").

ghost use Rattle.std.specs.Prelude.{◌≡◌, ◌⊎◌};
ghost use Rattle.hook_cli.specs.Printing.{status_of};

// The exit status of a command that is done.
const DONE: u8 = 0;

// The exit status of a command in which a hook failed.
const HOOK_FAILED: u8 = 1;

// The exit status of a refusal, and of a command whose text a writer didn't accept.
const REFUSED: u8 = 3;

/// How a command over a repository ends.
#[derive(Clone, Copy, Debug, PartialEq, Eq)]
pub enum CommandEnding {
    /// It is done, and its text is on standard output.
    Done,
    /// A hook failed, and the command's text is on standard output.
    Failed,
    /// It is refused, and standard error says why.
    Refused,
    /// Standard output gave an error while it took the text, and standard error says so. What the command did
    /// remains.
    CutOff,
    /// Standard error gave an error while it took what the command had to say there.
    Untold,
}

/// The exit status of an ending: 0, 1 or 3.
pub(crate) fn status_of(ending: CommandEnding) -> u8
    ensures exits { result ≡ status_of ending }
    ensures one_of { (result ≡ 0) ⊎ (result ≡ 1) ⊎ (result ≡ 3) }
{
    match ending {
        CommandEnding::Done => DONE,
        CommandEnding::Failed => HOOK_FAILED,
        CommandEnding::Refused | CommandEnding::CutOff | CommandEnding::Untold => REFUSED,
    }
}
