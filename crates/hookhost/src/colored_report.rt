//! The report in colors, for a terminal: how each hook ended is at the end of its first line.
//!
//! The contracts cite `specs/ColoredTexts.antt`.

ghost use Rattle.std.specs.Prelude.{◌≡◌, ◌++◌, IfOk, OnOk};
ghost use Rattle.hookhost.specs.ColoredTexts.{colored_line, colored_text, colors_by, next_line, wanted_colors, with_color};

use crate::environment::variable;
use crate::heard_children::SharedReport;
use crate::runs::RealChildren;
use crate::shown_report::ShownReport;
use hook_cli::ColorChoice;
use std::alloc::{AllocError, Global};
use std::cell::RefCell;
use std::io::{self, IsTerminal, Printer, Write};
use std::rc::Rc;

// The variable that says `always`, `never` or `auto`, as pre-commit's option `--color` does.
const WHEN: &str = "PRE_COMMIT_COLOR";

// The variable by which a user wants no colors, unless it is the empty text (no-color.org).
const NONE: &str = "NO_COLOR";

// The colors of the words with which hooks end, which are pre-commit's.
const PASSED: &[u8] = b"\x1b[42m";

const FAILED: &[u8] = b"\x1b[41m";

const WITHOUT_FILES: &[u8] = b"\x1b[46;30m";

const SKIPPED: &[u8] = b"\x1b[43;30m";

// What follows a colored word: it resets all attributes (ECMA-48, section 8.3.117, SGR).
const PLAIN: &[u8] = b"\x1b[m";

/// Whether the report gets colors: by the choice, otherwise by `PRE_COMMIT_COLOR`, and otherwise if standard
/// output is a terminal that knows them and `NO_COLOR` is unset or empty.
pub(crate) fn wants_colors(rt: &HostRuntime, choice: ColorChoice) -> bool {
    match wanted_colors(choice, variable(rt, WHEN).as_str()) {
        Some(wanted) => wanted,
        None => knows_colors(rt),
    }
}

// Whether colors are wanted by the choice, otherwise by the text of the variable, or `None` if neither says so.
fn wanted_colors(choice: ColorChoice, when: &str) -> Option<bool>
    ensures { result ≡ wanted_colors choice when.now }
{
    match choice {
        ColorChoice::Always => Some(true),
        ColorChoice::Never => Some(false),
        ColorChoice::Auto => colors_by(when),
    }
}

fn colors_by(when: &str) -> Option<bool>
    ensures { result ≡ colors_by when.now }
{
    if when == "always" {
        return Some(true);
    }
    if when == "never" {
        return Some(false);
    }
    None
}

fn knows_colors(rt: &HostRuntime) -> bool {
    rt.stdout().is_terminal()
        && variable(rt, NONE).is_empty()
        && variable(rt, "TERM").as_str() != "dumb"
}

/// The writer for the report of a run of these children, which show it while it comes.
pub(crate) fn report_writer<'r>(
    rt: &'r HostRuntime,
    color: ColorChoice,
    children: &mut RealChildren,
) -> ColoredReport<Printer<'r, HostRuntime>> {
    let is_colored = wants_colors(rt, color);
    let shown = match ShownReport::at_terminal(rt, is_colored) {
        Some(report) => Rc::new(rt.alloc(), RefCell::new(report)).ok(),
        None => None,
    };
    if let Some(shown) = &shown {
        children.show_report(shown.clone().ok());
    }
    ColoredReport {
        alloc: rt.alloc(),
        writer: io::writer(rt),
        is_on: is_colored,
        shown,
    }
}

/// A writer that colors how hooks ended, in the lines that end within what it is given in one call. It leaves
/// out what is shown at the terminal by then.
#[derive(Drop)]
pub(crate) struct ColoredReport<W: Write + Drop> {
    alloc: Global,
    writer: W,
    is_on: bool,
    shown: Option<SharedReport>,
}

impl<W: Write + Drop> ColoredReport<W> {
    // Writes the rest of a text of which a part may be shown already.
    fn write_rest(&mut self, text: &[u8]) -> io::Result<()> {
        let Some(shown) = &self.shown else {
            return self.writer.write_all(text);
        };
        match shown.try_borrow_mut() {
            Ok(mut shown) => self.writer.write_all(shown.rest(text)),
            Err(_) => self.writer.write_all(text),
        }
    }
}

impl<W: Write + Drop> Write for ColoredReport<W> {
    fn write(&mut self, buf: &[u8]) -> io::Result<usize> {
        if !self.is_on && self.shown.is_none() {
            return self.writer.write(buf);
        }
        if self.is_on {
            // If memory for the colors is refused, the report has none.
            if let Ok(colored) = colored_text(self.alloc, buf) {
                self.write_rest(colored.as_slice())?;
                return Ok(buf.len());
            }
        }
        self.write_rest(buf)?;
        Ok(buf.len())
    }

    fn flush(&mut self) -> io::Result<()> {
        self.writer.flush()
    }
}

/// The text with the ends of its lines in colors: how each hook ended. It fails only for lack of memory.
pub(crate) fn colored_text(alloc: Global, text: &[u8]) -> Result<Vec<u8>, AllocError>
    ensures { IfOk result (λ colored. colored.items ≡ colored_text text.now) }
{
    let mut colored = Vec::new(alloc);
    let mut is_first = true;
    'lines: for line in text.split(|byte| *byte == b'\n') {
        push_next_line(&mut colored, is_first, line)?;
        is_first = false;
    }
    Ok(colored)
}

fn push_next_line(colored: &mut Vec<u8>, is_first: bool, line: &[u8]) -> Result<(), AllocError>
    ensures { OnOk result (colored.new.items ≡ colored.old.items ++ next_line is_first line.now) }
{
    if is_first {
        return push_line(colored, line);
    }
    colored.push(b'\n')?;
    push_line(colored, line)
}

fn push_line(colored: &mut Vec<u8>, line: &[u8]) -> Result<(), AllocError>
    ensures { OnOk result (colored.new.items ≡ colored.old.items ++ colored_line line.now) }
{
    if line.ends_with(b".Passed") {
        return push_colored(colored, line, PASSED, 6);
    }
    if line.ends_with(b".Failed") {
        return push_colored(colored, line, FAILED, 6);
    }
    if line.ends_with(b"(no files to check)Skipped") {
        return push_colored(colored, line, WITHOUT_FILES, 7);
    }
    if line.ends_with(b".Skipped") {
        return push_colored(colored, line, SKIPPED, 7);
    }
    colored.extend_from_slice(line)
}

// Appends the line, whose last `word` bytes get the color.
fn push_colored(
    colored: &mut Vec<u8>,
    line: &[u8],
    color: &[u8],
    word: usize,
) -> Result<(), AllocError>
    ensures { OnOk result (colored.new.items ≡ colored.old.items ++ with_color color.now word line.now) }
{
    let (before, word) = line.split_at(line.len().saturating_sub(word));
    colored.extend_from_slice(before)?;
    colored.extend_from_slice(color)?;
    colored.extend_from_slice(word)?;
    colored.extend_from_slice(PLAIN)
}
