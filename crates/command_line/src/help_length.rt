//! How much of the help is printed.
//!
//! The contract cites `specs/HelpLengths.antt`.

ghost use Rattle.std.specs.Prelude.{◌≡◌, map};
ghost use Rattle.command_line.specs.HelpLengths.{help_asked, is_short_help};

// The end of the short help, in the words in which `clap` ends an error.
const MORE: &str = "For more information, try '--help'.";

/// How much of the help is printed.
#[derive(Clone, Copy, Debug, PartialEq, Eq)]
pub(crate) enum HelpLength {
    /// The usage, and a line for each value.
    Short,
    /// The same, then the examples, the exit statuses and the refusals.
    Whole,
}

impl HelpLength {
    /// What follows the usage and the values; `whole` is all that the long help has there.
    pub(crate) fn of<'a>(self, whole: &'a str) -> &'a str {
        match self {
            HelpLength::Short => MORE,
            HelpLength::Whole => whole,
        }
    }
}

/// How much of the help the words ask for: the first word that asks for help decides, as it does for `clap`.
/// Words after `--` are looked at too, though they ask for no help: `clap` prints none after it, so the
/// answer doesn't matter.
pub(crate) fn help_asked(words: &[&str]) -> HelpLength
    ensures { result ≡ help_asked (map (λ s. s.now) words.now) }
{
    'words: for word in words {
        if is_short_help(word) {
            return HelpLength::Short;
        }
        if *word == "--help" {
            return HelpLength::Whole;
        }
    }
    HelpLength::Whole
}

fn is_short_help(word: &str) -> bool
    ensures { result ≡ is_short_help word.now }
{
    word.starts_with("-h")
}
