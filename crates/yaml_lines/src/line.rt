//! A line that holds something.
//!
//! The contracts cite `ContentLine` of `specs/Entries.antt`.

ghost use Rattle.std.specs.Prelude.{◌≡◌, ◌+◌, ◌≤◌, length, option_copied};
ghost use Rattle.yaml_lines.specs.Characters.{most_bytes};

use crate::BlockText;
use std::marker::Model;

/// A line that holds something: its number from 1, where its content begins, the content, and the block
/// text that follows it, if there is one.
///
/// As [`read_lines`](crate::read_lines) gives it, the content begins with neither a blank nor a comment;
/// both may end it. Contracts see its content line, so only tests check the number.
#[derive(Debug, Drop)]
pub struct Line<'a, 'b> {
    number: usize,
    indent: usize,
    content: &'b [char],
    block: Option<BlockText<'a, 'b>>,
}

impl<'a, 'b> Model for Line<'a, 'b> {
    ghost use Rattle.std.specs.Prelude.{◌+◌, ◌≤◌, length};
    ghost use Rattle.yaml_lines.specs.Characters.{most_bytes};
    ghost use Rattle.yaml_lines.specs.Entries.{ContentLine};

    ghost Value = { ContentLine };

    ghost view = { λ line. record { indent = line.indent; content = line.content.now; block = line.block } };

    ghost invariant = { λ line. line.indent + length line.content.now ≤ most_bytes };
}

impl<'a, 'b> Line<'a, 'b> {
    /// The line with this number, whose content begins after `indent` columns. Its columns are at most
    /// [`MOST_BYTES`](crate::MOST_BYTES), as in any text.
    pub fn new(
        number: usize,
        indent: usize,
        content: &'b [char],
        block: Option<BlockText<'a, 'b>>,
    ) -> Self
        requires { indent + length content.now ≤ most_bytes }
        ensures { result ≡ record { indent = indent; content = content.now; block = block.entry } }
    {
        Line {
            number,
            indent,
            content,
            block,
        }
    }

    /// The line's number in the text, from 1.
    pub fn number(&self) -> usize {
        self.number
    }

    /// How many columns come before the content.
    pub fn indent(&self) -> usize
        ensures { result ≡ self.now.indent }
    {
        self.indent
    }

    /// The content's characters.
    pub fn content(&self) -> &'b [char]
        ensures characters { result.now ≡ self.now.content }
        ensures bounded { self.now.indent + length self.now.content ≤ most_bytes }
    {
        self.content
    }

    /// The block text that the content's last value begins.
    pub fn block(&self) -> Option<&BlockText<'a, 'b>>
        ensures { option_copied result ≡ self.now.block }
    {
        self.block.as_ref()
    }
}
