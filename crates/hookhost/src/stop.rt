//! Why the program ends without having done what its words ask for, and how it says so.

ghost use Rattle.std.specs.Prelude.{◌≡◌, ◌↔◌, IsTrue, OnOk};
ghost use Rattle.text_output.specs.Outputs.{Has, output_of};
ghost use Rattle.hookhost.specs.Stops.{IsNoMemory, IsStopOfFile, StopsFor, of_check, of_command, status_of_stop, unusable_line};

use commit_flow::HostRefusal;
use hook_base::{OutOfMemory, Text};
use hook_cli::TryFault;
use hook_config::ConfigFault;
use repository_files::{LOCK, RepositoryFault, STORE};
use std::alloc::{AllocError, AllocFailed};
use std::io::{self, Write};
use text_output::{Unwritten, write_out, write_path};

// The exit status if the words name no command.
const USAGE: u8 = 2;

// The exit status of a refusal.
const REFUSED: u8 = 3;

/// Why what was asked for isn't on standard output, or not all of it.
#[derive(Debug, Drop)]
pub(crate) enum CommandStop {
    /// The words name no command, or ask for help.
    Usage(clap::Error),
    /// A word isn't UTF-8.
    NotText,
    /// The file of this word can't be used.
    CannotUse(Text),
    /// The run was refused.
    Refused(TryFault),
    /// The configuration was read alone, and refused.
    NoConfiguration(ConfigFault),
    /// The repository's files can't be used.
    NoRepository(RepositoryFault),
    /// No new repository can be made.
    NoNewRepository(RepositoryFault),
    /// A command on the repository was refused before the host was asked.
    RefusedCommand(HostRefusal),
}

impl CommandStop {
    /// What an error of reading the process's words means.
    pub(crate) fn of_words(error: io::Error) -> CommandStop
        ensures { StopsFor CommandStop.NotText error result }
    {
        if is_memory(&error) {
            CommandStop::Refused(TryFault::OutOfMemory)
        } else {
            CommandStop::NotText
        }
    }

    /// What an error of reading the word's file means.
    pub(crate) fn of_file(error: &io::Error, word: Text) -> CommandStop
        ensures why { StopsFor (CommandStop.CannotUse word) error.now result }
        ensures either { IsStopOfFile word result }
    {
        if is_memory(error) {
            CommandStop::Refused(TryFault::OutOfMemory)
        } else {
            CommandStop::CannotUse(word)
        }
    }
}

impl CommandStop {
    /// The same stop if a configuration is read alone: want of memory is then its refusal.
    pub(crate) fn of_check(self) -> CommandStop
        ensures { result ≡ of_check self }
    {
        match self {
            CommandStop::Refused(TryFault::OutOfMemory) => {
                CommandStop::NoConfiguration(ConfigFault::from(OutOfMemory))
            }
            stop => stop,
        }
    }

    /// The same stop if a command on the repository is asked for: want of memory is then the host's refusal.
    pub(crate) fn of_command(self) -> CommandStop
        ensures { result ≡ of_command self }
    {
        match self {
            CommandStop::Refused(TryFault::OutOfMemory) => CommandStop::RefusedCommand(
                HostRefusal::OutOfMemory,
            ),
            stop => stop,
        }
    }
}

/// Whether the program itself was refused memory: the system's own want of memory has an error number,
/// ENOMEM.
pub(crate) fn is_memory(error: &io::Error) -> bool
    ensures { IsTrue result ↔ IsNoMemory error.now }
{
    error.kind() == io::ErrorKind::OutOfMemory && error.raw_os_error().is_none()
}

impl From<clap::Error> for CommandStop {
    ghost use Rattle.hookhost.specs.Stops.{IsUsageOf};

    ghost from_gives = { IsUsageOf };

    fn from(error: clap::Error) -> CommandStop {
        if error.kind() == clap::error::ErrorKind::OutOfMemory {
            CommandStop::Refused(TryFault::OutOfMemory)
        } else {
            CommandStop::Usage(error)
        }
    }
}

impl From<TryFault> for CommandStop {
    ghost use Rattle.std.specs.Prelude.{◌≡◌};
    ghost use Rattle.hookhost.specs.declared.stop.CommandStop.TheVariants.{Refused};

    ghost from_gives = { λ fault stop. stop ≡ Refused fault };

    fn from(fault: TryFault) -> CommandStop {
        CommandStop::Refused(fault)
    }
}

impl From<ConfigFault> for CommandStop {
    ghost use Rattle.std.specs.Prelude.{◌≡◌};
    ghost use Rattle.hookhost.specs.declared.stop.CommandStop.TheVariants.{NoConfiguration};

    ghost from_gives = { λ fault stop. stop ≡ NoConfiguration fault };

    fn from(fault: ConfigFault) -> CommandStop {
        CommandStop::NoConfiguration(fault)
    }
}

impl From<RepositoryFault> for CommandStop {
    ghost use Rattle.std.specs.Prelude.{◌≡◌};
    ghost use Rattle.hookhost.specs.declared.stop.CommandStop.TheVariants.{NoRepository};

    ghost from_gives = { λ fault stop. stop ≡ NoRepository fault };

    fn from(fault: RepositoryFault) -> CommandStop {
        CommandStop::NoRepository(fault)
    }
}

impl From<OutOfMemory> for CommandStop {
    ghost use Rattle.std.specs.Prelude.{◌≡◌};
    ghost use Rattle.hookhost.specs.declared.stop.CommandStop.TheVariants.{Refused};
    ghost use Rattle.configuration_run.specs.declared.try_fault.TryFault.TheVariants.{OutOfMemory};

    ghost from_gives = { λ _ stop. stop ≡ Refused OutOfMemory };

    fn from(_refused: OutOfMemory) -> CommandStop {
        CommandStop::Refused(TryFault::OutOfMemory)
    }
}

impl From<AllocError> for CommandStop {
    ghost use Rattle.std.specs.Prelude.{◌≡◌};
    ghost use Rattle.hookhost.specs.declared.stop.CommandStop.TheVariants.{Refused};
    ghost use Rattle.configuration_run.specs.declared.try_fault.TryFault.TheVariants.{OutOfMemory};

    ghost from_gives = { λ _ stop. stop ≡ Refused OutOfMemory };

    fn from(_refused: AllocError) -> CommandStop {
        CommandStop::Refused(TryFault::OutOfMemory)
    }
}

impl<T: Drop> From<AllocFailed<T>> for CommandStop {
    ghost use Rattle.std.specs.Prelude.{◌≡◌};
    ghost use Rattle.hookhost.specs.declared.stop.CommandStop.TheVariants.{Refused};
    ghost use Rattle.configuration_run.specs.declared.try_fault.TryFault.TheVariants.{OutOfMemory};

    ghost from_gives = { λ _ stop. stop ≡ Refused OutOfMemory };

    fn from(_refused: AllocFailed<T>) -> CommandStop {
        CommandStop::Refused(TryFault::OutOfMemory)
    }
}

/// Says on standard error why the program stops, and returns its exit status. If standard error takes
/// nothing, that is ignored.
pub(crate) fn tell(rt: &HostRuntime, stop: &CommandStop) -> u8
    ensures { result ≡ status_of_stop stop.now }
{
    let (is_said, status) = match stop {
        CommandStop::Usage(error) => (rt.eprint(error).is_ok(), USAGE),
        CommandStop::NotText => (rt.eprintln("error: a word is not UTF-8").is_ok(), USAGE),
        CommandStop::CannotUse(word) => (
            say_unusable(&mut rt.stderr(), word.as_str()).is_ok(),
            REFUSED,
        ),
        CommandStop::Refused(fault) => (say_refused(rt, fault.number(), fault.name()), REFUSED),
        CommandStop::NoConfiguration(fault) => (
            say_refused(rt, fault.number(), fault.name()),
            REFUSED,
        ),
        CommandStop::NoRepository(fault) | CommandStop::NoNewRepository(fault) => (
            say_unused(rt, fault),
            REFUSED,
        ),
        CommandStop::RefusedCommand(refusal) => (
            say_refused(rt, refusal.number(), refusal.name()),
            REFUSED,
        ),
    };
    let _ = is_said;
    status
}

fn say_unused(rt: &HostRuntime, fault: &RepositoryFault) -> bool {
    match fault {
        RepositoryFault::CannotUseStore => say_unusable(&mut rt.stderr(), STORE).is_ok(),
        RepositoryFault::CannotUseLock => say_unusable(&mut rt.stderr(), LOCK).is_ok(),
        RepositoryFault::NoStore(fault) => say_refused(rt, fault.number(), fault.name()),
    }
}

// A name whose bytes would end the line is in double quotes.
fn say_unusable<W: Write>(writer: &mut W, name: &str) -> Result<(), Unwritten>
    ensures { OnOk result (Has (output_of (W.contents writer.old) (W.contents writer.new)) (unusable_line name.now)) }
{
    write_out(writer, b"hookhost: cannot use ")?;
    write_path(writer, name)?;
    write_out(writer, b"\n")
}

fn say_refused(rt: &HostRuntime, number: u8, name: &str) -> bool {
    eprintln!(rt; "hookhost: refused: {number} {name}").is_ok()
}
