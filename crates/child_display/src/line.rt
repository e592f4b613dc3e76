//! The line that is shown for a child.
//!
//! The contracts cite `specs/Lines.antt`.

ghost use Rattle.std.specs.Prelude.{◌≡◌, ◌++◌, ◌∷◌, IfOk, OnOk, chars, encode_utf8_all, string_bytes};
ghost use Rattle.std.specs.List.{flat_map};
ghost use Rattle.child_display.specs.Lines.{clearing, columns_of_char, command_text, cut_to, hook_head, shown_hook_text, line_of_child, line_of_hook, line_of_text, shown_char};

use crate::ShownHook;
use hook_base::{OutOfMemory, Text};
use std::alloc::Global;
use unicode_width::UnicodeWidthChar;

// DEC's private mode 7 (DECAWM), reset and set: whether text that is wider than the terminal goes on in its
// next line.
const WRAPPING_OFF: &str = "\u{1b}[?7l";

const WRAPPING_ON: &str = "\u{1b}[?7h";

/// The line of a child with these words, after `before` other children were started, on a terminal with
/// `columns` columns. The text is cut to the columns, by the widths that `unicode_width` gives for single
/// characters; a control character is shown as a question mark. A narrower terminal cuts the line itself.
/// `OutOfMemory` if memory is refused.
pub fn line_of_child(
    alloc: Global,
    words: &[Text],
    before: u64,
    columns: usize,
) -> Result<String, OutOfMemory>
    ensures { IfOk result (λ line. string_bytes line ≡ line_of_child words.now before columns) }
{
    let text = command_text(alloc, words, before)?;
    line_of_text(alloc, text.as_str(), columns)
}

/// The same for a child of this hook, which the line names before the words: its place among the hooks of its
/// stage, how many these are, and its name.
pub fn line_of_hook(
    alloc: Global,
    hook: &ShownHook,
    words: &[Text],
    before: u64,
    columns: usize,
) -> Result<String, OutOfMemory>
    ensures { IfOk result (λ line. string_bytes line ≡ line_of_hook hook.now words.now before columns) }
{
    let text = hook_text(alloc, hook, words, before)?;
    line_of_text(alloc, text.as_str(), columns)
}

fn line_of_text(alloc: Global, text: &str, columns: usize) -> Result<String, OutOfMemory>
    ensures { IfOk result (λ line. string_bytes line ≡ line_of_text text.now columns) }
{
    let mut line = String::from_str(alloc, WRAPPING_OFF)?;
    push_cut(&mut line, text, columns)?;
    line.push_str(WRAPPING_ON)?;
    Ok(line)
}

/// What clears the line: the cursor goes to its beginning, and everything from there on is erased (ECMA-48,
/// section 8.3.41, EL).
pub fn clearing() -> &'static str
    ensures { result.now ≡ clearing }
{
    "\r\u{1b}[K"
}

fn command_text(alloc: Global, words: &[Text], before: u64) -> Result<String, OutOfMemory>
    ensures { IfOk result (λ text. string_bytes text ≡ command_text words.now before) }
{
    let mut text = format!(in alloc; "[{before}]")?;
    push_words(&mut text, words)?;
    Ok(text)
}

fn hook_text(
    alloc: Global,
    hook: &ShownHook,
    words: &[Text],
    before: u64,
) -> Result<String, OutOfMemory>
    ensures { IfOk result (λ text. string_bytes text ≡ shown_hook_text hook.now words.now before) }
{
    let mut text = hook_head(alloc, hook, before)?;
    push_words(&mut text, words)?;
    Ok(text)
}

fn hook_head(alloc: Global, hook: &ShownHook, before: u64) -> Result<String, OutOfMemory>
    ensures { IfOk result (λ text. string_bytes text ≡ hook_head hook.now before) }
{
    let (place, of, name) = (hook.place, hook.stage_hooks, hook.name.as_str());
    let text = format!(in alloc; "[{before}] {place}/{of} {name}:")?;
    Ok(text)
}

// Appends each word after a blank.
fn push_words(text: &mut String, words: &[Text]) -> Result<(), OutOfMemory>
    ensures { OnOk result (string_bytes text.new ≡ string_bytes text.old ++ flat_map (λ word. 32 ∷ word) words.now) }
{
    for word in words {
        text.push(' ')?;
        text.push_str(word.as_str())?;
    }
    Ok(())
}

// Appends the text's characters to the line as they are shown, up to the first that doesn't fit.
fn push_cut(line: &mut String, text: &str, columns: usize) -> Result<(), OutOfMemory>
    ensures { OnOk result (string_bytes line.new
        ≡ string_bytes line.old ++ encode_utf8_all (cut_to columns (chars text.now))) }
{
    let mut left = columns;
    'characters: for c in text.chars() {
        let width = columns_of_char(c);
        if width > left {
            break;
        }
        left -= width;
        line.push(shown_char(c))?;
    }
    Ok(())
}

fn shown_char(c: char) -> char
    ensures { result ≡ shown_char c }
{
    if c.width().is_some() { c } else { '?' }
}

fn columns_of_char(c: char) -> usize
    ensures { result ≡ columns_of_char c }
{
    c.width().unwrap_or(1)
}
