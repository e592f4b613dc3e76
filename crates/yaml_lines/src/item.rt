//! A list's item: what follows its dash. (YAML 1.2.2, section 8.2.1.)
//!
//! The contracts cite `specs/Entries.antt`.

ghost use Rattle.std.specs.Prelude.{◌≡◌, true, option_to_list};
ghost use Rattle.yaml_lines.specs.Entries.{is_item, item_of};
ghost use Rattle.yaml_lines.specs.Faults.{GivesSurely};

use crate::scan::{all_spaces, blank_or_end, blanks, comment_or_end, front, skip};
use crate::{BlockText, Line, YamlFault, YamlKind};

/// Whether the content begins a list's item: with a `-` before a blank or the end.
#[tactic(auto, unfolding(crate::specs::Entries::is_item))]
pub fn is_item(content: &[char]) -> bool
    ensures { result ≡ is_item content.now }
{
    match content {
        ['-', rest @ ..] => blank_or_end(rest),
        _ => false,
    }
}

// A copy of the line's block text, if it has one.
fn same_block<'a, 'b>(line: &Line<'a, 'b>) -> Option<BlockText<'a, 'b>>
    ensures { result ≡ line.now.block }
{
    match line.block() {
        Some(block) => Some(block.again()),
        None => None,
    }
}

/// What follows the dash of an item, as a line whose indentation is the column of its first character. None
/// if nothing or a comment follows. A tab between is `TabIndent`.
pub fn after_dash<'a, 'b>(line: &Line<'a, 'b>) -> Result<Option<Line<'a, 'b>>, YamlFault>
    requires { is_item line.now.content ≡ true }
    ensures { GivesSurely option_to_list result (item_of line.now) }
{
    let rest = skip(line.content(), 1);
    let blanks = blanks(rest);
    let content = skip(rest, blanks);
    if comment_or_end(content) {
        return Ok(None);
    }
    if !all_spaces(front(rest, blanks)) {
        return Err(YamlFault {
            kind: YamlKind::TabIndent,
            line: line.number(),
        });
    }
    let column = line.indent() + 1 + blanks;
    Ok(Some(Line::new(line.number(), column, content, same_block(line))))
}
