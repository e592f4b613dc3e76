//! What is said about a configuration that is refused. (docs/REFERENCE.md, "What `explain` says".)

use crate::escaped_texts::{push_number, push_quoted, push_shown};
use crate::finding::{Finding, finding_of};
use crate::findings::{MOST_FINDINGS, findings_in};
use crate::marks::marks_in;
use crate::places::{Place, PlacedFinding, places_of};
use crate::plain_text::{GOES_ON, goes_on};
use crate::repeated_key::{Doubled, doubled_in};
use crate::sentence::push_sentence;
use crate::shown_line::{line_at, push_own_line};
use crate::yaml_sentence::{yaml_column, yaml_sentence};
use hook_config::{ConfigFault, ConfigKind};
use std::alloc::{AllocError, Global};
use yaml_profile::{Node, YamlFault, YamlKind, read};

/// A text of bytes, and its name.
#[derive(Clone, Copy)]
pub(crate) struct NamedBytes<'b> {
    pub(crate) name: &'b str,
    pub(crate) bytes: &'b [u8],
}

/// Puts where each fault is, what it is, and the line itself, in the order of the lines. A fault of the YAML
/// is put alone. Otherwise all faults of the configuration are put, and this fault is one of them.
/// `AllocError` if memory is refused.
pub(crate) fn push_refused(
    alloc: Global,
    text: &mut String,
    file: NamedBytes<'_>,
    fault: ConfigFault,
) -> Result<(), AllocError> {
    if let ConfigKind::Yaml(fault) = fault.kind {
        return push_yaml_fault(alloc, text, file, fault);
    }
    match read(alloc, file.bytes) {
        Ok(node) => push_configuration_faults(alloc, text, file, &node, fault),
        Err(refused) if refused.kind == YamlKind::OutOfMemory => Err(AllocError),
        Err(other) => push_yaml_fault(alloc, text, file, other),
    }
}

fn push_yaml_fault(
    alloc: Global,
    text: &mut String,
    file: NamedBytes<'_>,
    fault: YamlFault,
) -> Result<(), AllocError> {
    if fault.kind == YamlKind::DoubledKey {
        let marks = marks_in(alloc, file.bytes)?;
        if let Some(doubled) = doubled_in(marks.as_slice(), fault.line) {
            return push_doubled(alloc, text, file, doubled);
        }
    }
    push_plain_fault(alloc, text, file, fault)
}

// A key of one of the configuration's tables that is there already.
fn push_doubled(
    alloc: Global,
    text: &mut String,
    file: NamedBytes<'_>,
    doubled: Doubled<'_>,
) -> Result<(), AllocError> {
    let place = Place {
        line: doubled.later.line,
        column: Some(doubled.later.column),
    };
    push_place(alloc, text, file.name, place.line)?;
    text.push_str("the key ")?;
    push_quoted(text, doubled.later.key().unwrap_or(""))?;
    text.push_str(" stands in its table already, in line ")?;
    push_number(alloc, text, doubled.earlier.line)?;
    text.push_str(": leave one of the two out\n")?;
    let line = line_at(alloc, file.bytes, place.line)?;
    push_own_line(text, line.as_str(), place)
}

fn push_plain_fault(
    alloc: Global,
    text: &mut String,
    file: NamedBytes<'_>,
    fault: YamlFault,
) -> Result<(), AllocError> {
    let line = line_at(alloc, file.bytes, fault.line)?;
    push_place(alloc, text, file.name, fault.line)?;
    text.push_str(sentence_of(alloc, file.bytes, fault, line.as_str())?)?;
    text.push('\n')?;
    if fault.kind == YamlKind::TooLarge {
        return Ok(());
    }
    let place = Place {
        line: fault.line,
        column: yaml_column(fault.kind, line.as_str()),
    };
    push_own_line(text, line.as_str(), place)
}

// The sentence for the fault in this line.
fn sentence_of(
    alloc: Global,
    bytes: &[u8],
    fault: YamlFault,
    line: &str,
) -> Result<&'static str, AllocError> {
    let before = line_at(alloc, bytes, fault.line.saturating_sub(1))?;
    if fault.kind == YamlKind::Layout && goes_on(before.as_str(), line) {
        return Ok(GOES_ON);
    }
    Ok(yaml_sentence(fault.kind, line))
}

fn push_configuration_faults(
    alloc: Global,
    text: &mut String,
    file: NamedBytes<'_>,
    node: &Node,
    fault: ConfigFault,
) -> Result<(), AllocError> {
    let mut findings = findings_in(alloc, node)?;
    let first = finding_of(alloc, node, fault)?;
    if !findings
        .as_slice()
        .iter()
        .any(|other| other.is_of_same(first))
    {
        findings.push(first)?;
    }
    for one in places_of(alloc, file.bytes, findings.as_slice())?.as_slice() {
        push_finding(alloc, text, file, one)?;
    }
    push_more(text, findings.as_slice())
}

fn push_finding(
    alloc: Global,
    text: &mut String,
    file: NamedBytes<'_>,
    one: &PlacedFinding<'_>,
) -> Result<(), AllocError> {
    push_place(alloc, text, file.name, one.place.line)?;
    push_sentence(alloc, text, &one.finding)?;
    text.push('\n')?;
    let line = line_at(alloc, file.bytes, one.place.line)?;
    push_own_line(text, line.as_str(), one.place)
}

// Says that no further faults are listed, if there are as many as are listed at most.
fn push_more(text: &mut String, findings: &[Finding<'_>]) -> Result<(), AllocError> {
    if findings.len() < MOST_FINDINGS {
        return Ok(());
    }
    text.push_str("no more than 100 faults are told at once\n")
}

// The name of the file and the line, before the sentence.
fn push_place(alloc: Global, text: &mut String, name: &str, line: usize) -> Result<(), AllocError> {
    push_shown(text, name)?;
    text.push(':')?;
    push_number(alloc, text, line)?;
    text.push_str(": ")
}
