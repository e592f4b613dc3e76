//! Why a flow can't be read, and where.

ghost use Rattle.std.specs.Prelude.{◌≡◌};

use std::alloc::{AllocError, AllocFailed};
use thiserror::Error;
use yaml_lines::YamlKind;

/// The place of a fault in the text of a flow.
#[derive(Clone, Copy, Debug, PartialEq, Eq)]
pub enum FaultPlace {
    /// At a character. `feeds_left` counts the line feeds in the text from it on.
    Within { feeds_left: usize },
    /// At the end of the text: a closing bracket is missing. The kind is `Layout` there.
    End,
}

/// Why a flow can't be read, and the first place at which it can't.
#[derive(Clone, Copy, Debug, PartialEq, Eq, Error)]
#[error("{kind}")]
pub struct FlowFault {
    /// Why it can't be read.
    pub kind: YamlKind,
    /// Where. It says nothing if memory was refused.
    pub place: FaultPlace,
}

impl From<AllocError> for FlowFault {
    ghost use Rattle.yaml_lines.specs.declared.fault.YamlKind.TheVariants.{OutOfMemory};
    ghost use Rattle.std.specs.Prelude.{◌≡◌};

    ghost from_gives = { λ _ fault. fault.kind ≡ OutOfMemory };

    fn from(_refused: AllocError) -> Self {
        in_last_line(YamlKind::OutOfMemory)
    }
}

impl<T: Drop> From<AllocFailed<T>> for FlowFault {
    ghost use Rattle.yaml_lines.specs.declared.fault.YamlKind.TheVariants.{OutOfMemory};
    ghost use Rattle.std.specs.Prelude.{◌≡◌};

    ghost from_gives = { λ _ fault. fault.kind ≡ OutOfMemory };

    fn from(refused: AllocFailed<T>) -> Self {
        FlowFault::from(AllocError::from(refused))
    }
}

/// A fault of this kind at the first of these characters, which are the last of the text.
pub(crate) fn fault_at(kind: YamlKind, rest: &[char]) -> FlowFault
    ensures { result.kind ≡ kind }
{
    let place = match rest {
        [] => FaultPlace::End,
        _ => FaultPlace::Within {
            feeds_left: rest.iter().filter(|c| **c == '\n').count(),
        },
    };
    FlowFault { kind, place }
}

/// A fault of this kind in the last line.
pub(crate) fn in_last_line(kind: YamlKind) -> FlowFault
    ensures { result.kind ≡ kind }
{
    FlowFault {
        kind,
        place: FaultPlace::Within { feeds_left: 0 },
    }
}

/// Why no text begins here: `Unsupported` if a form begins that this profile leaves out, otherwise
/// `Layout`.
pub(crate) fn no_text(rest: &[char]) -> FlowFault {
    let kind = match rest {
        ['&' | '*' | '!' | '%' | '@' | '`', ..] | ['?', ' ' | '\t', ..] => YamlKind::Unsupported,
        _ => YamlKind::Layout,
    };
    fault_at(kind, rest)
}

/// Why no node is read when no further one may be nested. An empty place is no node.
pub(crate) fn no_room(rest: &[char]) -> FlowFault {
    let kind = match rest {
        [] | [',' | ']' | '}', ..] => YamlKind::Layout,
        _ => YamlKind::TooDeep,
    };
    fault_at(kind, rest)
}
