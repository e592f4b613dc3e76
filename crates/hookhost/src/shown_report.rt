//! The report of a run as it is shown at a terminal, each hook's part once that hook has ended.
//!
//! The contracts cite `specs/UnshownTexts.antt`.

ghost use Rattle.std.specs.Prelude.{◌≡◌, drop};
ghost use Rattle.hookhost.specs.UnshownTexts.{is_all_shown, is_output, rest_of_report, unshown};

use crate::colored_report::colored_text;
use std::alloc::{AllocError, Global};
use std::env;
use std::fs::{File, OpenOptions};
use std::io::{self, IsTerminal, Stderr, Stdout, Write};

// The variable by which Git's hook, which reads standard output, has the report shown on standard error. It
// names the file in which the hook finds what was shown.
const SHOWN: &str = "HOOKHOST_SHOWN";

/// What is shown of a report by now.
#[derive(Drop)]
pub(crate) struct ShownReport {
    alloc: Global,
    screen: Screen,
    is_colored: bool,
    // What is shown, and how many bytes of it the writer of the report has reached.
    shown: Vec<u8>,
    written: usize,
    // Nothing more is shown, since a part wasn't taken.
    is_over: bool,
}

// Where a report is shown.
#[derive(Drop)]
enum Screen {
    // On standard output, to which the report is written in the end.
    Output(Stdout),
    // On standard error, and noted in a file.
    Error(Stderr, File),
}

impl ShownReport {
    /// A report of which nothing is shown yet. `None` if there is no terminal to show it.
    pub(crate) fn at_terminal(rt: &HostRuntime, is_colored: bool) -> Option<ShownReport> {
        let screen = screen_of(rt)?;
        Some(ShownReport {
            alloc: rt.alloc(),
            screen,
            is_colored,
            shown: Vec::new(rt.alloc()),
            written: 0,
            is_over: false,
        })
    }

    /// Shows the next part of the report. If the terminal doesn't take it, or memory is refused, nothing more
    /// is shown.
    pub(crate) fn show(&mut self, part: &[u8]) {
        if !self.is_over {
            self.is_over = self.show_part(part).is_err();
        }
    }

    fn show_part(&mut self, part: &[u8]) -> io::Result<()> {
        let part = if self.is_colored {
            colored_text(self.alloc, part)?
        } else {
            part.to_vec(self.alloc)?
        };
        self.shown.reserve(part.len())?;
        self.screen.write(part.as_slice())?;
        self.shown.extend_from_slice(part.as_slice())?;
        Ok(())
    }

    /// What isn't on standard output yet of the text that the report goes on with. Once a text isn't what is
    /// shown there, that is all of it and of what follows.
    pub(crate) fn rest<'t>(&mut self, text: &'t [u8]) -> &'t [u8]
        ensures { result.now ≡ rest_of_report self.old text.entry.now }
    {
        if !self.screen.is_output() {
            return text;
        }
        let rest = unshown(self.left(), text);
        if is_all_shown(self.left(), text) {
            self.written = self.written.saturating_add(text.len());
        } else {
            self.written = self.shown.len();
        }
        rest
    }

    // What is shown beyond what the writer of the report has reached.
    fn left(&self) -> &[u8]
        ensures { result.now ≡ drop self.now.written self.now.shown.items }
    {
        if self.written < self.shown.len() {
            &self.shown[self.written..]
        } else {
            &[]
        }
    }
}

impl Screen {
    fn is_output(&self) -> bool
        ensures { result ≡ is_output self.now }
    {
        match self {
            Screen::Output(_) => true,
            Screen::Error(_, _) => false,
        }
    }

    fn write(&mut self, part: &[u8]) -> io::Result<()> {
        match self {
            Screen::Output(output) => {
                output.write_all(part)?;
                output.flush()
            }
            Screen::Error(error, noted) => {
                error.write_all(part)?;
                error.flush()?;
                noted.write_all(part)
            }
        }
    }
}

fn screen_of(rt: &HostRuntime) -> Option<Screen> {
    let output = rt.stdout();
    if output.is_terminal() {
        return Some(Screen::Output(output));
    }
    let error = rt.stderr();
    if !error.is_terminal() {
        return None;
    }
    let Ok(place) = env::var(rt, SHOWN) else {
        return None;
    };
    match OpenOptions::new().append(true).open(rt, place.as_str()) {
        Ok(noted) => Some(Screen::Error(error, noted)),
        Err(_error) => None,
    }
}

// Whether all of a text is shown, if this is shown from its begin on.
fn is_all_shown(shown: &[u8], text: &[u8]) -> bool
    ensures { result ≡ is_all_shown shown.now text.now }
{
    shown.starts_with(text)
}

// What isn't shown of a text, if this is shown. It is all of the text if that doesn't go on with it.
fn unshown<'t>(shown: &[u8], text: &'t [u8]) -> &'t [u8]
    ensures { result.now ≡ unshown shown.now text.entry.now }
{
    if is_all_shown(shown, text) {
        return &[];
    }
    if text.starts_with(shown) {
        &text[shown.len()..]
    } else {
        text
    }
}
