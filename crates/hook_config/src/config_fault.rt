//! Why bytes aren't a configuration, and where.

ghost use Rattle.std.specs.Prelude.{◌≡◌};
ghost use Rattle.hook_config.specs.Refusals.{configuration_fault_number, configuration_fault_name};

use crate::limits::MOST_HOOKS;
use arg_partition::WordsFault;
use builtin_hooks::GrepFault;
use hook_base::OutOfMemory;
use path_select::PatternFault;
use std::alloc::{AllocError, AllocFailed};
use thiserror::Error;
use yaml_profile::{YamlFault, YamlKind};

/// Why bytes aren't a configuration.
#[derive(Clone, Copy, Debug, PartialEq, Eq, Error)]
pub enum ConfigKind {
    /// The bytes aren't YAML of this project's profile (docs/REFERENCE.md, "The configuration's text: a
    /// profile of YAML").
    #[error("the text is not YAML that can be read")]
    Yaml(YamlFault),
    /// A node is of another kind than its place wants, or a text is longer than a text may be.
    #[error("a value is of the wrong kind")]
    Shape,
    /// A key that its table has to have isn't there.
    #[error("a required key is missing")]
    MissingKey,
    /// A text in a list of stages names no stage.
    #[error("a stage is not known")]
    BadStage,
    /// A language isn't one of the four that are served.
    #[error("a language is not known")]
    BadLanguage,
    /// A repository is not `local`.
    #[error("a repository is not `local`")]
    RemoteRepo,
    /// `regex` doesn't take a text as a pattern: it is none, nests too deep, or is too big once it is built.
    #[error("a pattern cannot be read")]
    BadPattern,
    /// An entry can't be cut into words, has none, or its first word is empty.
    #[error("an entry cannot be read")]
    BadEntry,
    /// An argument isn't one that the language takes.
    #[error("an argument is not known")]
    BadArgs,
    /// A key that is served only if its value is empty has another one.
    #[error("a key is not supported")]
    Unsupported,
    /// There are more than `MOST_HOOKS` hooks.
    #[error("there are more than {most} hooks", most = MOST_HOOKS)]
    TooMany,
    /// Memory was refused.
    #[error("out of memory")]
    OutOfMemory,
}

impl From<AllocError> for ConfigKind {
    ghost use Rattle.std.specs.Prelude.{◌≡◌};
    ghost use Rattle.hook_config.specs.declared.config_fault.ConfigKind.TheVariants.{OutOfMemory};

    ghost from_gives = { λ _ kind. kind ≡ OutOfMemory };

    fn from(_refused: AllocError) -> Self {
        ConfigKind::OutOfMemory
    }
}

impl<T: Drop> From<AllocFailed<T>> for ConfigKind {
    ghost use Rattle.std.specs.Prelude.{◌≡◌};
    ghost use Rattle.hook_config.specs.declared.config_fault.ConfigKind.TheVariants.{OutOfMemory};

    ghost from_gives = { λ _ kind. kind ≡ OutOfMemory };

    fn from(_refused: AllocFailed<T>) -> Self {
        ConfigKind::OutOfMemory
    }
}

impl From<PatternFault> for ConfigKind {
    ghost use Rattle.std.specs.Prelude.{◌≡◌};
    ghost use Rattle.hook_config.specs.Refusals.{of_pattern};

    ghost from_gives = { λ fault kind. kind ≡ of_pattern fault };

    fn from(fault: PatternFault) -> Self {
        match fault {
            PatternFault::NotAPattern => ConfigKind::BadPattern,
            PatternFault::OutOfMemory => ConfigKind::OutOfMemory,
        }
    }
}

impl From<GrepFault> for ConfigKind {
    ghost use Rattle.std.specs.Prelude.{◌≡◌};
    ghost use Rattle.hook_config.specs.Refusals.{of_grep};

    ghost from_gives = { λ fault kind. kind ≡ of_grep fault };

    fn from(fault: GrepFault) -> Self {
        match fault {
            GrepFault::NotAPattern => ConfigKind::BadPattern,
            GrepFault::BadArg => ConfigKind::BadArgs,
            GrepFault::OutOfMemory => ConfigKind::OutOfMemory,
        }
    }
}

impl From<WordsFault> for ConfigKind {
    ghost use Rattle.std.specs.Prelude.{◌≡◌};
    ghost use Rattle.hook_config.specs.Refusals.{of_words};

    ghost from_gives = { λ fault kind. kind ≡ of_words fault };

    fn from(fault: WordsFault) -> Self {
        match fault {
            WordsFault::OpenQuote | WordsFault::NothingEscaped => ConfigKind::BadEntry,
            WordsFault::OutOfMemory => ConfigKind::OutOfMemory,
        }
    }
}

impl ConfigKind {
    /// The refusal's number, from 1 to 12.
    pub fn number(&self) -> u8
        ensures { result ≡ configuration_fault_number self.now }
    {
        match self {
            ConfigKind::Yaml(_) => 1,
            ConfigKind::Shape => 2,
            ConfigKind::MissingKey => 3,
            ConfigKind::BadStage => 4,
            ConfigKind::BadLanguage => 5,
            ConfigKind::RemoteRepo => 6,
            ConfigKind::BadPattern => 7,
            ConfigKind::BadEntry => 8,
            ConfigKind::BadArgs => 9,
            ConfigKind::Unsupported => 10,
            ConfigKind::TooMany => 11,
            ConfigKind::OutOfMemory => 12,
        }
    }

    /// The refusal's name, as it is printed after its number.
    pub fn name(&self) -> &'static str
        ensures { result.now ≡ configuration_fault_name self.now }
    {
        match self {
            ConfigKind::Yaml(_) => "Yaml",
            ConfigKind::Shape => "Shape",
            ConfigKind::MissingKey => "MissingKey",
            ConfigKind::BadStage => "BadStage",
            ConfigKind::BadLanguage => "BadLanguage",
            ConfigKind::RemoteRepo => "RemoteRepo",
            ConfigKind::BadPattern => "BadPattern",
            ConfigKind::BadEntry => "BadEntry",
            ConfigKind::BadArgs => "BadArgs",
            ConfigKind::Unsupported => "Unsupported",
            ConfigKind::TooMany => "TooMany",
            ConfigKind::OutOfMemory => "OutOfMemory",
        }
    }
}

/// A refused configuration, and where it is wrong.
#[derive(Clone, Copy, Debug, PartialEq, Eq, Error)]
#[error("{kind}")]
pub struct ConfigFault {
    /// What is wrong.
    pub kind: ConfigKind,
    /// For `Yaml` the line of the text, counted from 1. Otherwise the hook's number, counted from 1 over all
    /// repositories, or 0 outside hooks.
    pub at: u64,
}

impl ConfigFault {
    /// The refusal's number, from 1 to 12.
    pub fn number(&self) -> u8
        ensures { result ≡ configuration_fault_number self.now.kind }
    {
        self.kind.number()
    }

    /// The refusal's name, as it is printed after its number.
    pub fn name(&self) -> &'static str
        ensures { result.now ≡ configuration_fault_name self.now.kind }
    {
        self.kind.name()
    }
}

// A fault outside hooks.
impl From<ConfigKind> for ConfigFault {
    ghost use Rattle.std.specs.Prelude.{◌≡◌};

    ghost from_gives = { λ kind fault. fault ≡ record { kind = kind; at = 0 } };

    fn from(kind: ConfigKind) -> Self {
        ConfigFault { kind, at: 0 }
    }
}

// A fault of the text, at its line. A refusal of memory has no line.
impl From<YamlFault> for ConfigFault {
    ghost use Rattle.std.specs.Prelude.{◌≡◌};
    ghost use Rattle.hook_config.specs.Refusals.{of_yaml};

    ghost from_gives = { λ fault refusal. refusal ≡ of_yaml fault };

    fn from(fault: YamlFault) -> Self {
        match fault.kind {
            YamlKind::OutOfMemory => ConfigFault::from(ConfigKind::OutOfMemory),
            _ => ConfigFault {
                kind: ConfigKind::Yaml(fault),
                at: fault.line as u64,
            },
        }
    }
}

// Memory was refused.
impl From<OutOfMemory> for ConfigFault {
    ghost use Rattle.std.specs.Prelude.{◌≡◌};
    ghost use Rattle.hook_config.specs.declared.config_fault.ConfigKind.TheVariants.{OutOfMemory};

    ghost from_gives = { λ _ fault. fault ≡ record { kind = OutOfMemory; at = 0 } };

    fn from(_refused: OutOfMemory) -> Self {
        ConfigFault {
            kind: ConfigKind::OutOfMemory,
            at: 0,
        }
    }
}
