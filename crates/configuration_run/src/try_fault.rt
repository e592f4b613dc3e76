//! The refusals of a run.
//!
//! The contracts cite `specs/TryFaults.antt`.

use hook_base::OutOfMemory;
use hook_config::{ConfigFault, ConfigKind};
use std::alloc::{AllocError, AllocFailed};
use thiserror::Error;

/// Why a run of a configuration was refused.
#[derive(Clone, Copy, Debug, PartialEq, Eq, Error)]
pub enum TryFault {
    /// The reader gave an error.
    #[error("the configuration cannot be read to its end")]
    Read,
    /// The bytes that were read are no configuration, as when there are more than a configuration may have,
    /// or `regex` refuses one of their patterns.
    #[error("the configuration is refused: {0}")]
    Config(ConfigFault),
    /// The writer gave an error. A part of the report may be written.
    #[error("the report cannot be written")]
    Write,
    /// Memory was refused.
    #[error("out of memory")]
    OutOfMemory,
    /// A child is needed, and the children have given as many outcomes as can be counted.
    #[error("no more children can be counted")]
    Spent,
}

impl TryFault {
    ghost use Rattle.std.specs.Prelude.{◌≡◌};
    ghost use Rattle.configuration_run.specs.TryFaults.{try_fault_name, try_fault_number};

    /// The refusal's number, from 1 to 5.
    pub fn number(&self) -> u8
        ensures { result ≡ try_fault_number self.now }
    {
        match self {
            TryFault::Read => 1,
            TryFault::Config(_) => 2,
            TryFault::Write => 3,
            TryFault::OutOfMemory => 4,
            TryFault::Spent => 5,
        }
    }

    /// The refusal's name, as it is printed after its number.
    pub fn name(&self) -> &'static str
        ensures { result.now ≡ try_fault_name self.now }
    {
        match self {
            TryFault::Read => "Read",
            TryFault::Config(_) => "Config",
            TryFault::Write => "Write",
            TryFault::OutOfMemory => "OutOfMemory",
            TryFault::Spent => "Spent",
        }
    }
}

impl From<OutOfMemory> for TryFault {
    ghost use Rattle.std.specs.Prelude.{◌≡◌};
    ghost use Rattle.configuration_run.specs.declared.try_fault.TryFault.TheVariants.{OutOfMemory};

    ghost from_gives = { λ _ fault. fault ≡ OutOfMemory };

    fn from(_refused: OutOfMemory) -> Self {
        TryFault::OutOfMemory
    }
}

impl From<AllocError> for TryFault {
    ghost use Rattle.std.specs.Prelude.{◌≡◌};
    ghost use Rattle.configuration_run.specs.declared.try_fault.TryFault.TheVariants.{OutOfMemory};

    ghost from_gives = { λ _ fault. fault ≡ OutOfMemory };

    fn from(_refused: AllocError) -> Self {
        TryFault::OutOfMemory
    }
}

/// Want of memory while the configuration is read is the run's own refusal.
impl From<ConfigFault> for TryFault {
    ghost use Rattle.configuration_run.specs.TryFaults.{IsTryFaultOf};

    ghost from_gives = { IsTryFaultOf };

    fn from(fault: ConfigFault) -> Self {
        match fault.kind {
            ConfigKind::OutOfMemory => TryFault::OutOfMemory,
            _ => TryFault::Config(fault),
        }
    }
}
