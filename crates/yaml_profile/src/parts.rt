//! Where the lines that belong to the part above them end.
//!
//! The contracts cite `specs/Blocks.antt`.

ghost use Rattle.std.specs.Prelude.{◌≡◌, ◌≤◌, length};
ghost use Rattle.std.specs.List.{prefix_len};
ghost use Rattle.yaml_profile.specs.Blocks.{begins_closing, cut, parts, is_deeper, is_below_key, is_in_flow};

use yaml_lines::{Line, is_item};

/// The leading lines that are deeper than `indent`, and the others.
pub(crate) fn split_deeper<'a, 'b, 'c>(
    lines: &'a [Line<'b, 'c>],
    indent: usize,
) -> (&'a [Line<'b, 'c>], &'a [Line<'b, 'c>])
    ensures below { result.0.now ≡ (cut (is_deeper indent) lines.now).before }
    ensures rest { parts (is_deeper indent) result.1.now ≡ (cut (is_deeper indent) lines.now).parts }
    ensures fewer { length result.1.now ≤ length lines.now }
{
    lines.split_at(count_deeper(lines, indent))
}

/// The same with the lines that belong to a table's key at `indent`: those that are deeper, and those that
/// are as deep and begin an item of a list or with a closing bracket.
pub(crate) fn split_below_key<'a, 'b, 'c>(
    lines: &'a [Line<'b, 'c>],
    indent: usize,
) -> (&'a [Line<'b, 'c>], &'a [Line<'b, 'c>])
    ensures below { result.0.now ≡ (cut (is_below_key indent) lines.now).before }
    ensures rest { parts (is_below_key indent) result.1.now ≡ (cut (is_below_key indent) lines.now).parts }
    ensures fewer { length result.1.now ≤ length lines.now }
{
    lines.split_at(count_below_key(lines, indent))
}

fn count_deeper(lines: &[Line<'_, '_>], indent: usize) -> usize
    ensures within { result ≤ length lines.now }
    ensures value { result ≡ prefix_len (is_deeper indent) lines.now }
{
    for (count, line) in lines.iter().enumerate() {
        if line.indent() <= indent {
            return count;
        }
    }
    lines.len()
}

fn begins_closing(content: &[char]) -> bool
    ensures { result ≡ begins_closing content.now }
{
    matches!(content, [']' | '}', ..])
}

// Whether the line belongs to the key above it: it is deeper, or it is as deep and begins an item or with a
// closing bracket. (YAML 1.2.2, section 8.2.3, lets the items of a key's list be as deep as the key.)
fn is_line_below_key(line: &Line<'_, '_>, indent: usize) -> bool
    ensures { result ≡ is_below_key indent line.now }
{
    let content = line.content();
    line.indent() > indent
        || (line.indent() == indent && (is_item(content) || begins_closing(content)))
}

// Whether the line belongs to the flow that begins on a line at `indent`.
fn is_line_in_flow(line: &Line<'_, '_>, indent: usize) -> bool
    ensures { result ≡ is_in_flow indent line.now }
{
    line.indent() > indent || (line.indent() == indent && begins_closing(line.content()))
}

/// How many of the lines belong to the flow that begins on a line at `indent`.
pub(crate) fn count_in_flow(lines: &[Line<'_, '_>], indent: usize) -> usize
    ensures within { result ≤ length lines.now }
    ensures value { result ≡ prefix_len (is_in_flow indent) lines.now }
{
    for (count, line) in lines.iter().enumerate() {
        if !is_line_in_flow(line, indent) {
            return count;
        }
    }
    lines.len()
}

fn count_below_key(lines: &[Line<'_, '_>], indent: usize) -> usize
    ensures within { result ≤ length lines.now }
    ensures value { result ≡ prefix_len (is_below_key indent) lines.now }
{
    for (count, line) in lines.iter().enumerate() {
        if !is_line_below_key(line, indent) {
            return count;
        }
    }
    lines.len()
}
