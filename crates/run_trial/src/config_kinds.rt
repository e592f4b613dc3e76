//! The refusals of a configuration.

use hook_config::{ConfigFault, ConfigKind};
use std::alloc::Global;
use trial_rows::{AnswerBytes, Stop, only, text_of};
use yaml_profile::{YamlFault, YamlKind};

/// `config_kind NAME`: the kind's number and name, how it is shown, and how a fault of it is shown; then the
/// number and the name of that fault.
pub(crate) fn told(alloc: Global, arguments: &[Vec<u8>]) -> Result<AnswerBytes, Stop> {
    let kind = kind_of(text_of(only(arguments)?)?).ok_or(Stop::BadLine)?;
    let fault = ConfigFault { kind, at: 3 };
    let answer = AnswerBytes::new(alloc).shown(kind.number());
    let answer = answer.texts(&[" ", kind.name(), ": "]).shown(kind);
    let answer = answer.text("\n").shown(fault.number());
    let answer = answer.texts(&[" ", fault.name(), ": "]).shown(fault);
    Ok(answer.text("\n"))
}

fn kind_of(word: &str) -> Option<ConfigKind> {
    match word {
        "yaml" => Some(ConfigKind::Yaml(YamlFault {
            kind: YamlKind::Layout,
            line: 7,
        })),
        "shape" => Some(ConfigKind::Shape),
        "missing key" => Some(ConfigKind::MissingKey),
        "bad stage" => Some(ConfigKind::BadStage),
        "bad language" => Some(ConfigKind::BadLanguage),
        "remote repository" => Some(ConfigKind::RemoteRepo),
        "bad pattern" => Some(ConfigKind::BadPattern),
        "bad entry" => Some(ConfigKind::BadEntry),
        "bad arguments" => Some(ConfigKind::BadArgs),
        "unsupported" => Some(ConfigKind::Unsupported),
        "too many" => Some(ConfigKind::TooMany),
        "out of memory" => Some(ConfigKind::OutOfMemory),
        _ => None,
    }
}
