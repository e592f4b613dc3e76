//! The kinds of faults of a YAML text by their names.

use std::alloc::{AllocError, Global};
use trial_rows::{AnswerBytes, Stop, text_of};
use yaml_flows::{FaultPlace, FlowFault};
use yaml_lines::{YamlFault, YamlKind};

/// The fault that refused memory becomes.
pub(crate) fn fault_of(alloc: Global, name: &[u8]) -> Result<AnswerBytes, Stop> {
    match name {
        b"AllocError" => Ok(refused(alloc, YamlFault::from(AllocError))),
        _ => Err(Stop::BadLine),
    }
}

/// A fault's kind by its name, and its line.
pub(crate) fn refused(alloc: Global, fault: YamlFault) -> AnswerBytes {
    let answer = AnswerBytes::new(alloc).debug(fault.kind);
    answer.text(" in line ").shown(fault.line)
}

/// The kind's number, its message, and the message of a fault of it in line 4.
pub(crate) fn told(alloc: Global, name: &[u8]) -> Result<AnswerBytes, Stop> {
    let kind = named(text_of(name)?).ok_or(Stop::BadLine)?;
    let answer = AnswerBytes::new(alloc).shown(kind.number()).text("; ");
    let answer = answer.shown(kind).text("; ");
    Ok(answer.shown(YamlFault { kind, line: 4 }))
}

/// The message of a fault of this kind at the end of a flow.
pub(crate) fn flow_told(alloc: Global, name: &[u8]) -> Result<AnswerBytes, Stop> {
    let kind = named(text_of(name)?).ok_or(Stop::BadLine)?;
    let place = FaultPlace::End;
    Ok(AnswerBytes::new(alloc).shown(FlowFault { kind, place }))
}

fn named(name: &str) -> Option<YamlKind> {
    match name {
        "NotUtf8" => Some(YamlKind::NotUtf8),
        "TabIndent" => Some(YamlKind::TabIndent),
        "Unsupported" => Some(YamlKind::Unsupported),
        "Layout" => Some(YamlKind::Layout),
        "Quote" => Some(YamlKind::Quote),
        "DoubledKey" => Some(YamlKind::DoubledKey),
        "TooDeep" => Some(YamlKind::TooDeep),
        "TooLarge" => Some(YamlKind::TooLarge),
        "OutOfMemory" => Some(YamlKind::OutOfMemory),
        _ => None,
    }
}
