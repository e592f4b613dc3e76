//! Texts in single and double quotes. (YAML 1.2.2, sections 7.3.2 and 7.3.1.)
//!
//! The contracts cite `specs/Quoted.antt`.

ghost use Rattle.std.specs.Prelude.{◌≡◌, ◌+◌, ◌*◌, ◌^◌, ◌<◌, IfErr, IfSome, length, string_bytes};
ghost use Rattle.yaml_lines.specs.Faults.{Gives, GivesSurely, StandsAt};
ghost use Rattle.yaml_lines.specs.Quoted.{after_quote, begins_quoted, coded, double_step, escaped, four_digits, named, pair_of, quoted_of, quoted_within, single_step, step_of, two_digits};

use crate::{YamlFault, YamlKind};
use std::alloc::Global;
use std::marker::Model;

/// A quoted text, and what follows its closing quote. Contracts see the text's bytes and the characters
/// that follow.
#[derive(Debug, Drop)]
pub struct QuotedText<'a> {
    text: String,
    rest: &'a [char],
}

impl<'a> Model for QuotedText<'a> {
    ghost use Rattle.std.specs.Prelude.{string_bytes};
    ghost use Rattle.yaml_lines.specs.Quoted.{Quoted};

    ghost Value = { Quoted };

    ghost view = { λ quoted. record { text = string_bytes quoted.text; rest = quoted.rest.now } };
}

impl<'a> QuotedText<'a> {
    /// The text between the quotes, with its escapes decoded.
    pub fn into_text(self) -> String
        ensures { string_bytes result ≡ self.entry.text }
    {
        let QuotedText { text, rest: _ } = self;
        text
    }

    /// The characters after the closing quote.
    pub fn rest(&self) -> &'a [char]
        ensures { result.now ≡ self.now.rest }
    {
        self.rest
    }
}

// One character of a quoted text, or none at its end, and what follows.
#[derive(Drop)]
pub(crate) struct QuoteStep<'a> {
    pub(crate) character: Option<char>,
    pub(crate) rest: &'a [char],
}

impl<'a> Model for QuoteStep<'a> {
    ghost use Rattle.yaml_lines.specs.Quoted.{QuotedStep};

    ghost Value = { QuotedStep };

    ghost view = { λ step. record { character = step.character; rest = step.rest.now } };
}

impl<'a> QuoteStep<'a> {
    ghost use Rattle.std.specs.Prelude.{Some, None};

    fn character(c: char, rest: &'a [char]) -> Self
        ensures { result ≡ record { character = Some c; rest = rest.now } }
    {
        QuoteStep {
            character: Some(c),
            rest,
        }
    }

    fn end(rest: &'a [char]) -> Self
        ensures { result ≡ record { character = None; rest = rest.now } }
    {
        QuoteStep {
            character: None,
            rest,
        }
    }
}

// What follows a quote in single quotes: a second quote makes one, and anything else comes after the text.
fn after_quote<'a>(text: &'a [char]) -> QuoteStep<'a>
    ensures { result ≡ after_quote text.now }
{
    match text {
        ['\'', rest @ ..] => QuoteStep::character('\'', rest),
        _ => QuoteStep::end(text),
    }
}

// A step in single quotes: two quotes are one, and a single one ends the text. (YAML 1.2.2, section 7.3.2.)
#[tactic(auto, unfolding(crate::specs::Quoted::single_step))]
fn single_step<'a>(text: &'a [char]) -> Result<QuoteStep<'a>, YamlKind>
    ensures { GivesSurely (λ step. step) result (single_step text.now) }
{
    match text {
        [] => Err(YamlKind::Quote),
        [c, rest @ ..] => match *c {
            '\'' => Ok(after_quote(rest)),
            '\n' => Err(YamlKind::Quote),
            c => Ok(QuoteStep::character(c, rest)),
        },
    }
}

// The number that two digits in base 16 write.
fn pair(a: char, b: char) -> Option<u32>
    ensures value { result ≡ pair_of a b }
    ensures small { IfSome result (λ code. code < 256) }
{
    Some(a.to_digit(16)? * 16 + b.to_digit(16)?)
}

// The character of the code. A surrogate's code is `Quote`.
fn coded<'a>(code: u32, rest: &'a [char]) -> Result<QuoteStep<'a>, YamlKind>
    requires { code < 2 ^ 16 }
    ensures { GivesSurely (λ step. step) result (coded rest.now code) }
{
    match char::from_u32(code) {
        Some(c) => Ok(QuoteStep::character(c, rest)),
        None => Err(YamlKind::Quote),
    }
}

#[tactic(auto, unfolding(crate::specs::Quoted::two_digits))]
fn two_digits<'a>(text: &'a [char]) -> Result<QuoteStep<'a>, YamlKind>
    ensures { GivesSurely (λ step. step) result (two_digits text.now) }
{
    let [a, b, rest @ ..] = text else {
        return Err(YamlKind::Unsupported);
    };
    match pair(*a, *b) {
        Some(code) => coded(code, rest),
        None => Err(YamlKind::Unsupported),
    }
}

#[tactic(auto, unfolding(crate::specs::Quoted::four_digits))]
fn four_digits<'a>(text: &'a [char]) -> Result<QuoteStep<'a>, YamlKind>
    ensures { GivesSurely (λ step. step) result (four_digits text.now) }
{
    let [a, b, c, d, rest @ ..] = text else {
        return Err(YamlKind::Unsupported);
    };
    let Some(high) = pair(*a, *b) else {
        return Err(YamlKind::Unsupported);
    };
    match pair(*c, *d) {
        Some(low) => coded(high * 256 + low, rest),
        None => Err(YamlKind::Unsupported),
    }
}

// The character that a letter names after a backslash. (YAML 1.2.2, section 5.7, has more of them.)
#[tactic(auto, unfolding(crate::specs::Quoted::named))]
fn named(letter: char) -> Option<char>
    ensures { result ≡ named letter }
{
    match letter {
        '\\' | '"' | '/' => Some(letter),
        'n' => Some('\n'),
        't' => Some('\t'),
        'r' => Some('\r'),
        '0' => Some('\0'),
        _ => None,
    }
}

// The character of an escape, from what follows its backslash.
#[tactic(auto, unfolding(crate::specs::Quoted::escaped))]
fn escaped<'a>(text: &'a [char]) -> Result<QuoteStep<'a>, YamlKind>
    ensures { GivesSurely (λ step. step) result (escaped text.now) }
{
    match text {
        [] => Err(YamlKind::Quote),
        [letter, rest @ ..] => match *letter {
            'x' => two_digits(rest),
            'u' => four_digits(rest),
            letter => match named(letter) {
                Some(c) => Ok(QuoteStep::character(c, rest)),
                None => Err(YamlKind::Unsupported),
            },
        },
    }
}

// A step in double quotes: a backslash begins an escape. (YAML 1.2.2, section 7.3.1.)
#[tactic(auto, unfolding(crate::specs::Quoted::double_step))]
fn double_step<'a>(text: &'a [char]) -> Result<QuoteStep<'a>, YamlKind>
    ensures { GivesSurely (λ step. step) result (double_step text.now) }
{
    match text {
        [] => Err(YamlKind::Quote),
        [c, rest @ ..] => match *c {
            '"' => Ok(QuoteStep::end(rest)),
            '\\' => escaped(rest),
            '\n' => Err(YamlKind::Quote),
            c => Ok(QuoteStep::character(c, rest)),
        },
    }
}

// A step in the quotes of this mark.
pub(crate) fn step<'a>(mark: char, text: &'a [char]) -> Result<QuoteStep<'a>, YamlKind>
    ensures { GivesSurely (λ step. step) result (step_of mark text.now) }
{
    if mark == '\'' {
        single_step(text)
    } else {
        double_step(text)
    }
}

// How many characters come before the first quote of this mark: the capacity to begin with. An ASCII text
// without escapes and quotes has as many bytes.
fn before_quote(mark: char, text: &[char]) -> usize {
    text.iter().position(|c| *c == mark).unwrap_or(0)
}

// The text up to the closing quote. `mark` is the quote.
#[tactic(auto, using(crate::proofs::FaultLines::memory_line))]
fn quoted_within<'a>(
    alloc: Global,
    number: usize,
    mark: char,
    text: &'a [char],
) -> Result<QuotedText<'a>, YamlFault>
    ensures meant { Gives (λ quoted. quoted) result (quoted_within mark (length text.now) text.now) }
    ensures place { IfErr result (StandsAt number) }
{
    let mut read = String::with_capacity(alloc, before_quote(mark, text))?;
    let mut rest = text;
    for _ in 0..text.len() {
        let QuoteStep {
            character,
            rest: others,
        } = match step(mark, rest) {
            Ok(step) => step,
            Err(kind) => return Err(YamlFault::at(kind, number)),
        };
        match character {
            Some(c) => read.push(c)?,
            None => return Ok(QuotedText {
                text: read,
                rest: others,
            }),
        }
        rest = others;
    }
    Err(YamlFault {
        kind: YamlKind::Quote,
        line: number,
    })
}

/// Whether the characters begin with a quote, single or double.
pub fn begins_quoted(text: &[char]) -> bool
    ensures { result ≡ begins_quoted text.now }
{
    matches!(text, ['\'' | '"', ..])
}

/// The quoted text that the characters begin with, in single or double quotes.
///
/// A text that doesn't end before a line feed or the last character is `Quote`, and so is the code of a
/// surrogate. Any escape other than `\\ \" \/ \n \t \r \0 \xHH \uHHHH` is `Unsupported`. Characters that
/// begin with no quote are `Layout`. All are in line `number`. `OutOfMemory` is in line 0.
#[tactic(auto, unfolding(crate::specs::Quoted::quoted_of))]
pub fn read_quoted<'a>(
    alloc: Global,
    number: usize,
    text: &'a [char],
) -> Result<QuotedText<'a>, YamlFault>
    ensures meant { Gives (λ quoted. quoted) result (quoted_of text.now) }
    ensures place { IfErr result (StandsAt number) }
{
    match text {
        [mark, rest @ ..] if *mark == '\'' || *mark == '"' => quoted_within(
            alloc, number, *mark, rest,
        ),
        _ => Err(YamlFault {
            kind: YamlKind::Layout,
            line: number,
        }),
    }
}
