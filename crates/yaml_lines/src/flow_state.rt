//! Where the lines of a flow end: the number of its open brackets, kept from line to line.
//!
//! The contracts cite `specs/FlowLines.antt`.

ghost use Rattle.std.specs.Prelude.{◌≡◌, option_map};
ghost use Rattle.yaml_lines.specs.FlowLines as flows;
ghost use Rattle.yaml_lines.specs.FlowTexts.{text_at};

use crate::MOST_NODES;
use crate::flow_text::{behind_text, ends_key};
use crate::gap::{after_gap, after_start};
use crate::quoted_text::begins_quoted;
use std::marker::Model;

// How many brackets are open, and whether the last token was a quoted text. After a quoted text any colon
// ends the key (YAML 1.2.2, section 7.4.2).
#[derive(Clone, Copy)]
pub(crate) struct FlowState {
    depth: usize,
    quoted: bool,
}

impl FlowState {
    // Before a flow, or after its end.
    pub(crate) fn outside() -> FlowState
        ensures { result ≡ flows.outside }
    {
        FlowState {
            depth: 0,
            quoted: false,
        }
    }

    // Whether no bracket is open.
    pub(crate) fn is_over(&self) -> bool
        ensures { result ≡ flows.is_closed self.now }
    {
        self.depth == 0
    }
}

// What is open after a token, and the characters that follow it.
#[derive(Drop)]
struct Behind<'a> {
    state: FlowState,
    rest: &'a [char],
}

impl<'a> Model for Behind<'a> {
    ghost use Rattle.yaml_lines.specs.FlowLines as flows;

    ghost Value = { flows.Behind };

    ghost view = { λ behind. record { state = behind.state; rest = behind.rest.now } };
}

impl<'a> Behind<'a> {
    ghost use Rattle.yaml_lines.specs.FlowLines as flows;

    fn new(depth: usize, quoted: bool, rest: &'a [char]) -> Self
        ensures { result ≡ record { state = flows.state depth quoted; rest = rest.now } }
    {
        Behind {
            state: FlowState { depth, quoted },
            rest,
        }
    }
}

// One bracket more. The count stops at the most brackets that a flow can have open and still be read.
fn one_deeper(depth: usize) -> usize
    ensures { result ≡ flows.one_deeper depth }
{
    if depth < MOST_NODES { depth + 1 } else { depth }
}

// After the text that the characters begin with. If they begin with no text, after the first of them, which
// `others` follow.
fn text_token<'a>(depth: usize, text: &'a [char], others: &'a [char]) -> Behind<'a>
    ensures { result ≡ flows.behind_text depth others.now (text_at text.now) }
{
    match behind_text(text) {
        Some(rest) => Behind::new(depth, begins_quoted(text), rest),
        None => Behind::new(depth, false, others),
    }
}

// After the token that the characters begin with.
#[tactic(auto, unfolding(crate::specs::FlowLines::behind_token))]
fn behind_token<'a>(before: FlowState, text: &'a [char]) -> Behind<'a>
    ensures { result ≡ flows.behind_token before text.now }
{
    let FlowState { depth, quoted } = before;
    match text {
        [] => Behind::new(depth, quoted, text),
        ['[' | '{', rest @ ..] => Behind::new(one_deeper(depth), false, rest),
        [']' | '}', rest @ ..] => Behind::new(depth.saturating_sub(1), false, rest),
        [',', rest @ ..] => Behind::new(depth, false, rest),
        [':', rest @ ..] if quoted || ends_key(rest) => Behind::new(depth, false, rest),
        [_, rest @ ..] => text_token(depth, text, rest),
    }
}

// What is open after a line with this content.
#[tactic(auto, unfolding(crate::specs::FlowLines::skim))]
pub(crate) fn skim(before: FlowState, content: &[char]) -> FlowState
    ensures { result ≡ flows.skim before content.now }
{
    behind_all(before, after_start(content))
}

// What is open after all tokens of these characters, or after the flow's last bracket.
fn behind_all(before: FlowState, text: &[char]) -> FlowState
    ensures { result ≡ (flows.behind_all before text.now).state }
{
    let mut state = before;
    let mut left = text;
    for _ in 0..text.len() {
        if left.is_empty() {
            return state;
        }
        let Behind { state: next, rest } = behind_token(state, left);
        if next.is_over() {
            return next;
        }
        state = next;
        left = after_gap(rest);
    }
    state
}

/// Whether the value begins as a flow does: with `[` or `{`.
pub fn begins_flow(value: &[char]) -> bool
    ensures { result ≡ flows.begins_flow value.now }
{
    matches!(value, ['[' | '{', ..])
}

// What is open after a line outside of flows whose last value this is.
pub(crate) fn state_behind(value: &[char]) -> FlowState
    ensures { result ≡ flows.state_behind value.now }
{
    if begins_flow(value) {
        skim(FlowState::outside(), value)
    } else {
        FlowState::outside()
    }
}
