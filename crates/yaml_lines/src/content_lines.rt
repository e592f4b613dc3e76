//! The content lines of a text: its lines without comments, empty lines and the lines of block texts.
//!
//! The contracts cite `specs/Lines.antt`.

ghost use Rattle.std.specs.Prelude.{◌≡◌, ◌+◌, ◌^◌, ◌<◌, ◌≤◌, IfOk, IfErr, IfSome, length};
ghost use Rattle.yaml_lines.specs.Characters.{most_bytes};
ghost use Rattle.yaml_lines.specs.Entries.{ContentLine};
ghost use Rattle.yaml_lines.specs.Faults.{Gives, GivesSurely, GivesUpTo, IsInLines, StandsWithin};
ghost use Rattle.yaml_lines.specs.Lines.{bare, is_mark, is_start, last_value, left_at_line, left_by, left_of, content_lines_from, with_flow, with_text, with_value};

use crate::block_lines::{begins_block, extent, header_of, margin_of, ragged_at};
use crate::flow_state::{FlowState, skim, state_behind};
use crate::last_value::{LastValue, last_value};
use crate::line_state::LineState;
use crate::scan::{
    after_blanks, all_allowed, begins_with_tab, blank_or_end, comment_or_end, is_over, skip, spaces,
};
use crate::{BlockText, Header, Line, RawLine, YamlFault, YamlKind};
use std::alloc::{AllocError, Global};
use std::marker::Model;

/// The lines of a text that were read before the first fault.
#[derive(Drop)]
pub struct Lines<'a, 'b> {
    /// All lines that hold something if there is no fault, otherwise those before it.
    pub lines: Vec<Line<'a, 'b>>,
    /// The first fault, in one of the text's lines. It is never `OutOfMemory`.
    pub fault: Option<YamlFault>,
}

// What one line of the text leaves: its content line, and where the next line is. There is no content line
// if the line holds only blanks or a comment, or belongs to a block text.
#[derive(Drop)]
struct LeftLine<'a, 'b> {
    line: Option<Line<'a, 'b>>,
    next: LineState,
}

impl<'a, 'b> Model for LeftLine<'a, 'b> {
    ghost use Rattle.yaml_lines.specs.Lines.{Left};

    ghost Value = { Left };

    ghost view = { λ left. record { content_line = left.line; next = left.next } };
}

// A line without a block text. After it, this flow is open.
fn bare<'a, 'b>(
    number: usize,
    indent: usize,
    content: &'b [char],
    flow: FlowState,
) -> LeftLine<'a, 'b>
    requires { indent + length content.now ≤ most_bytes }
    ensures { result ≡ bare indent content.now flow }
{
    LeftLine {
        line: Some(Line::new(number, indent, content, None)),
        next: LineState { taken: 0, flow },
    }
}

// A line whose last value is a block text with this header and margin.
#[tactic(auto, unfolding(crate::specs::Lines::with_text))]
fn with_text<'a, 'b>(
    number: usize,
    indent: usize,
    content: &'b [char],
    later: &'a [RawLine<'b>],
    margin: Option<usize>,
    header: Header,
) -> Result<LeftLine<'a, 'b>, YamlFault>
    requires content { indent + length content.now ≤ most_bytes }
    requires numbers { number + length later.now < 2 ^ 64 }
    ensures meant { GivesSurely (λ left. left) result (with_text indent content.now later.now margin header) }
    ensures place { IfErr result (StandsWithin number (number + length later.now)) }
{
    if let Some(at) = ragged_at(margin, later) {
        return Err(YamlFault {
            kind: YamlKind::Layout,
            line: number + 1 + at,
        });
    }
    let taken = extent(margin, later);
    let block = BlockText::new(header, margin, &later[..taken]);
    Ok(LeftLine {
        line: Some(Line::new(number, indent, content, Some(block))),
        next: LineState {
            taken,
            flow: FlowState::outside(),
        },
    })
}

// A line, with the block text or the flow that its last value begins, if it begins one.
#[tactic(auto, unfolding(crate::specs::Lines::with_value))]
fn with_value<'a, 'b>(
    number: usize,
    indent: usize,
    content: &'b [char],
    later: &'a [RawLine<'b>],
    value: Option<LastValue<'b>>,
) -> Result<LeftLine<'a, 'b>, YamlFault>
    requires content { indent + length content.now ≤ most_bytes }
    requires numbers { number + length later.now < 2 ^ 64 }
    ensures meant { GivesSurely (λ left. left) result (with_value indent content.now later.now value.entry) }
    ensures place { IfErr result (StandsWithin number (number + length later.now)) }
{
    let Some(value) = value else {
        return Ok(bare(number, indent, content, state_behind(content)));
    };
    if !begins_block(value.content()) {
        return Ok(bare(number, indent, content, state_behind(value.content())));
    }
    match header_of(value.content()) {
        Ok(header) => with_text(
            number,
            indent,
            content,
            later,
            margin_of(value.column(), later),
            header,
        ),
        Err(kind) => Err(YamlFault { kind, line: number }),
    }
}

// A line within this flow, or outside of flows.
#[tactic(auto, unfolding(crate::specs::Lines::with_flow))]
fn with_flow<'a, 'b>(
    alloc: Global,
    flow: FlowState,
    number: usize,
    indent: usize,
    content: &'b [char],
    later: &'a [RawLine<'b>],
) -> Result<LeftLine<'a, 'b>, YamlFault>
    requires content { indent + length content.now ≤ most_bytes }
    requires numbers { number + length later.now < 2 ^ 64 }
    ensures meant { Gives (λ left. left) result (with_flow flow indent content.now later.now) }
    ensures place { IfErr result (StandsWithin number (number + length later.now)) }
{
    if !flow.is_over() {
        return Ok(bare(number, indent, content, skim(flow, content)));
    }
    let value = last_value(alloc, indent, content)?;
    with_value(number, indent, content, later, value)
}

// What the line leaves, if these lines follow it. A tab can't indent (YAML 1.2.2, section 6.1).
fn left_of<'a, 'b>(
    alloc: Global,
    flow: FlowState,
    number: usize,
    text: &'b [char],
    later: &'a [RawLine<'b>],
) -> Result<LeftLine<'a, 'b>, YamlFault>
    requires content { length text.now ≤ most_bytes }
    requires numbers { number + length later.now < 2 ^ 64 }
    ensures meant { Gives (λ left. left) result (left_of flow text.now later.now) }
    ensures place { IfErr result (StandsWithin number (number + length later.now)) }
{
    if !all_allowed(text) {
        return Err(YamlFault {
            kind: YamlKind::Unsupported,
            line: number,
        });
    }
    if comment_or_end(after_blanks(text)) {
        return Ok(LeftLine {
            line: None,
            next: LineState { taken: 0, flow },
        });
    }
    let indent = spaces(text);
    let content = skip(text, indent);
    if begins_with_tab(content) {
        return Err(YamlFault {
            kind: YamlKind::TabIndent,
            line: number,
        });
    }
    with_flow(alloc, flow, number, indent, content, later)
}

// What the line leaves at this place. A line of a block text leaves nothing.
#[tactic(auto, unfolding(crate::specs::Lines::left_at_line))]
fn left_at<'a, 'b>(
    alloc: Global,
    at: LineState,
    number: usize,
    text: &'b [char],
    later: &'a [RawLine<'b>],
) -> Result<LeftLine<'a, 'b>, YamlFault>
    requires content { length text.now ≤ most_bytes }
    requires numbers { number + length later.now < 2 ^ 64 }
    ensures meant { Gives (λ left. left) result (left_at_line at text.now later.now) }
    ensures place { IfErr result (StandsWithin number (number + length later.now)) }
{
    if at.taken == 0 {
        return left_of(alloc, at.flow, number, text, later);
    }
    if !all_allowed(text) {
        return Err(YamlFault {
            kind: YamlKind::Unsupported,
            line: number,
        });
    }
    Ok(LeftLine {
        line: None,
        next: LineState {
            taken: at.taken - 1,
            flow: at.flow,
        },
    })
}

// Whether the line is a document mark or a directive: `---`, `...` or `%`. (YAML 1.2.2, sections 9.1.2 and
// 6.8.)
fn is_mark(line: &Line) -> bool
    ensures { result ≡ is_mark line.now }
{
    line.indent() == 0
        && match line.content() {
            ['-', '-', '-', rest @ ..] | ['.', '.', '.', rest @ ..] => blank_or_end(rest),
            ['%', ..] => true,
            _ => false,
        }
}

// Whether the line is `---`, with at most a comment after it. (YAML 1.2.2, section 9.1.4.)
fn is_start(line: &Line) -> bool
    ensures { result ≡ is_start line.now }
{
    line.indent() == 0
        && match line.content() {
            ['-', '-', '-', rest @ ..] => is_over(rest),
            _ => false,
        }
}

/// The lines that hold something, up to the first fault. A `---` alone on the first of them is left out,
/// and so are the lines of block texts.
///
/// A tab in an indentation is `TabIndent`.
///
/// These are `Unsupported`:
/// - a control character other than a tab or a line's end, and a carriage return without a line feed;
/// - a document's mark in any other place;
/// - a block text's header with a digit.
///
/// Any other bad header is `Layout`. So is a line with more spaces than the first text line of its block
/// text, if it comes before that line.
pub fn read_lines<'a, 'b>(
    alloc: Global,
    raws: &'a [RawLine<'b>],
) -> Result<Lines<'a, 'b>, AllocError>
    ensures meant { IfOk result (λ read. GivesUpTo read.lines.items read.fault (content_lines_from raws.now)) }
    ensures place { IfOk result (λ read. IfSome read.fault (IsInLines (length raws.now))) }
{
    let mut lines = Vec::new(alloc);
    let mut fresh = true;
    let mut at = LineState {
        taken: 0,
        flow: FlowState::outside(),
    };
    for (i, raw) in raws.iter().enumerate() {
        let later = &raws[i + 1..];
        let LeftLine { line, next } = match left_at(alloc, at, i + 1, raw.text(), later) {
            Ok(left) => left,
            Err(fault) => {
                return match fault.kind {
                    YamlKind::OutOfMemory => Err(AllocError),
                    _ => Ok(Lines {
                        lines,
                        fault: Some(fault),
                    }),
                };
            }
        };
        at = next;
        let Some(line) = line else {
            continue;
        };
        if !is_mark(&line) {
            lines.push(line)?;
        } else if !(fresh && is_start(&line)) {
            let fault = YamlFault {
                kind: YamlKind::Unsupported,
                line: i + 1,
            };
            return Ok(Lines {
                lines,
                fault: Some(fault),
            });
        }
        fresh = false;
    }
    Ok(Lines { lines, fault: None })
}
