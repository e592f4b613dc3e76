//! Why a command of a host is refused.

ghost use Rattle.std.specs.Prelude.{◌≡◌};
ghost use Rattle.commit_flow.specs.Refusals.{inner_number_of, host_refusal_name, host_refusal_number};
ghost use Rattle.commit_flow.specs.declared.host_refusal.HostRefusal.TheVariants.{OutOfMemory};

use hook_base::{OutOfMemory, PathFault};
use hook_config::{ConfigFault, ConfigKind};
use hook_run::RunRefusal;
use repo_store::{StagingFault, StoreFault};
use result_book::BookFault;
use std::alloc::AllocFailed;
use thiserror::Error;

/// Why a command of a host is refused. The commits, the staged files and the fixes are as before the command.
/// After a crash, or if a fault of the disk has shut the store, its file holds all that was there before, or
/// all that the command makes.
#[derive(Clone, Copy, Debug, PartialEq, Eq, Error)]
pub enum HostRefusal {
    /// Memory was refused, in whatever part of the program.
    #[error("out of memory")]
    OutOfMemory,
    /// The store refuses, for another reason than lack of memory, a collision, or too many commits, files or
    /// paths.
    #[error("the store refuses: {0}")]
    Store(StoreFault),
    /// A text is no path inside a repository.
    #[error("{0}")]
    BadPath(PathFault),
    /// Nothing is staged at a path.
    #[error("the path is not staged")]
    NotStaged,
    /// A file or a message of more than 16 MiB.
    #[error("a file or a message of more than 16 MiB")]
    TooLarge,
    /// More than 100,000 commits, or a staged tree of more than 100,000 files or 8 MiB of paths.
    #[error("more commits, staged files or paths than a store takes")]
    TooMany,
    /// No configuration is staged.
    #[error("no configuration is staged")]
    NoConfig,
    /// The staged configuration can't be read.
    #[error("the configuration is refused: {0}")]
    BadConfig(ConfigFault),
    /// The run asks for a name that no hook of the stage has.
    #[error("no hook of the stage has that id or alias")]
    NoSuchHook,
    /// The staged files are those of the last commit, or there are none before the first. Git prevents such a
    /// commit too (git-commit(1), "--allow-empty").
    #[error("nothing is staged that is not committed")]
    NothingStaged,
    /// There are no fixes to accept.
    #[error("there are no fixes")]
    NoFixes,
    /// The message of a commit is empty once it is cleaned. Git prevents such a commit too (git-commit(1),
    /// "--allow-empty-message").
    #[error("the message is empty")]
    EmptyMessage,
    /// Other contents are kept under the same digest.
    #[error("other contents have the same digest")]
    Collision,
    /// A child is needed, and the children have reported as many outcomes as can be counted, 2^64 - 1.
    #[error("no more children can be counted")]
    Spent,
    /// A staged path is a folder of the new path, or the new path a folder of a staged one.
    #[error("a staged path is a folder of the path, or lies in it")]
    Clash,
}

impl HostRefusal {
    /// The refusal's number, from 1 to 15 (docs/REFERENCE.md, "The host of a repository").
    pub fn number(&self) -> u8
        ensures { result ≡ host_refusal_number self.now }
    {
        match self {
            HostRefusal::OutOfMemory => 1,
            HostRefusal::Store(_) => 2,
            HostRefusal::BadPath(_) => 3,
            HostRefusal::NotStaged => 4,
            HostRefusal::TooLarge => 5,
            HostRefusal::TooMany => 6,
            HostRefusal::NoConfig => 7,
            HostRefusal::BadConfig(_) => 8,
            HostRefusal::NoSuchHook => 9,
            HostRefusal::NothingStaged => 10,
            HostRefusal::NoFixes => 11,
            HostRefusal::EmptyMessage => 12,
            HostRefusal::Collision => 13,
            HostRefusal::Spent => 14,
            HostRefusal::Clash => 15,
        }
    }

    /// The refusal's name, as it is printed after its number.
    pub fn name(&self) -> &'static str
        ensures { result.now ≡ host_refusal_name self.now }
    {
        match self {
            HostRefusal::OutOfMemory => "OutOfMemory",
            HostRefusal::Store(_) => "Store",
            HostRefusal::BadPath(_) => "BadPath",
            HostRefusal::NotStaged => "NotStaged",
            HostRefusal::TooLarge => "TooLarge",
            HostRefusal::TooMany => "TooMany",
            HostRefusal::NoConfig => "NoConfig",
            HostRefusal::BadConfig(_) => "BadConfig",
            HostRefusal::NoSuchHook => "NoSuchHook",
            HostRefusal::NothingStaged => "NothingStaged",
            HostRefusal::NoFixes => "NoFixes",
            HostRefusal::EmptyMessage => "EmptyMessage",
            HostRefusal::Collision => "Collision",
            HostRefusal::Spent => "Spent",
            HostRefusal::Clash => "Clash",
        }
    }

    /// The number of the cause in a refusal of a store, a path or a configuration, among the faults of its
    /// kind. It is printed after the name. `None` for the other refusals.
    pub fn inner_number(&self) -> Option<u8>
        ensures { result ≡ inner_number_of self.now }
    {
        match self {
            HostRefusal::Store(fault) => Some(fault.number()),
            HostRefusal::BadPath(fault) => Some(fault.number()),
            HostRefusal::BadConfig(fault) => Some(fault.number()),
            _ => None,
        }
    }
}

impl From<OutOfMemory> for HostRefusal {
    ghost from_gives = { λ _ refusal. refusal ≡ OutOfMemory };

    fn from(_refused: OutOfMemory) -> Self {
        HostRefusal::OutOfMemory
    }
}

impl<T: Drop> From<AllocFailed<T>> for HostRefusal {
    ghost from_gives = { λ _ refusal. refusal ≡ OutOfMemory };

    fn from(_refused: AllocFailed<T>) -> Self {
        HostRefusal::OutOfMemory
    }
}

impl From<PathFault> for HostRefusal {
    ghost use Rattle.std.specs.Prelude.{◌≡◌};
    ghost use Rattle.commit_flow.specs.Refusals.{of_path};

    ghost from_gives = { λ fault refusal. refusal ≡ of_path fault };

    /// Lack of memory is `OutOfMemory`, and every other fault `BadPath`.
    fn from(fault: PathFault) -> Self {
        match fault {
            PathFault::OutOfMemory => HostRefusal::OutOfMemory,
            other => HostRefusal::BadPath(other),
        }
    }
}

impl From<StoreFault> for HostRefusal {
    ghost use Rattle.std.specs.Prelude.{◌≡◌};
    ghost use Rattle.commit_flow.specs.Refusals.{of_store};

    ghost from_gives = { λ fault refusal. refusal ≡ of_store fault };

    /// Lack of memory, a collision, and too many commits, files or paths are refusals of the host itself.
    /// Every other fault is `Store`.
    fn from(fault: StoreFault) -> Self {
        match fault {
            StoreFault::OutOfMemory => HostRefusal::OutOfMemory,
            StoreFault::Collision => HostRefusal::Collision,
            StoreFault::TooMany => HostRefusal::TooMany,
            other => HostRefusal::Store(other),
        }
    }
}

impl From<StagingFault> for HostRefusal {
    ghost use Rattle.std.specs.Prelude.{◌≡◌};
    ghost use Rattle.commit_flow.specs.Refusals.{of_staging};

    ghost from_gives = { λ fault refusal. refusal ≡ of_staging fault };

    /// A change of the staged files is refused in the same way as the command that makes only this change.
    fn from(fault: StagingFault) -> Self {
        match fault {
            StagingFault::BadPath(fault) => HostRefusal::BadPath(fault),
            StagingFault::NotStaged => HostRefusal::NotStaged,
            StagingFault::Clash => HostRefusal::Clash,
            StagingFault::Store(StoreFault::TooLarge) => HostRefusal::TooLarge,
            StagingFault::Store(fault) => HostRefusal::from(fault),
        }
    }
}

impl From<ConfigFault> for HostRefusal {
    ghost use Rattle.std.specs.Prelude.{◌≡◌};
    ghost use Rattle.commit_flow.specs.Refusals.{of_config};

    ghost from_gives = { λ fault refusal. refusal ≡ of_config fault };

    /// Lack of memory is `OutOfMemory`, and every other fault `BadConfig`.
    fn from(fault: ConfigFault) -> Self {
        match fault.kind {
            ConfigKind::OutOfMemory => HostRefusal::OutOfMemory,
            _ => HostRefusal::BadConfig(fault),
        }
    }
}

impl From<BookFault> for HostRefusal {
    ghost use Rattle.std.specs.Prelude.{◌≡◌};
    ghost use Rattle.commit_flow.specs.Refusals.{of_book};

    ghost from_gives = { λ fault refusal. refusal ≡ of_book fault };

    /// Lack of memory is `OutOfMemory`. A fault of the store becomes the same refusal as in other commands.
    fn from(fault: BookFault) -> Self {
        match fault {
            BookFault::OutOfMemory => HostRefusal::OutOfMemory,
            BookFault::Store(fault) => HostRefusal::from(fault),
        }
    }
}

impl From<RunRefusal> for HostRefusal {
    ghost use Rattle.std.specs.Prelude.{◌≡◌};
    ghost use Rattle.commit_flow.specs.Refusals.{of_run};

    ghost from_gives = { λ refused refusal. refusal ≡ of_run refused };

    /// What stops hooks is a refusal of the host itself. A fault of the book becomes the same refusal as in
    /// other commands.
    fn from(refused: RunRefusal) -> Self {
        match refused {
            RunRefusal::OutOfMemory => HostRefusal::OutOfMemory,
            RunRefusal::Book(fault) => HostRefusal::from(fault),
            RunRefusal::NoSuchHook => HostRefusal::NoSuchHook,
            RunRefusal::Spent => HostRefusal::Spent,
        }
    }
}
