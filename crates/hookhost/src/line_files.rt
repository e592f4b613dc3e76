//! What the files hold that a line names and that are read before the lock is taken.

ghost use Rattle.std.specs.Prelude.{IfErr};
ghost use Rattle.hookhost.specs.Stops.{IsStopOfItsFile};

use crate::message_file::message_of;
use crate::names::names_of;
use crate::stop::CommandStop;
use hook_base::{Bytes, Items, Text};
use hook_cli::Update;

/// What the files of a line hold.
#[derive(Drop)]
pub(crate) struct LineFiles {
    /// The names that the file of `--paths-from` lists, and none without that option.
    pub(crate) names: Items<Text>,
    /// The message in the file of `hook`, and nothing for another line.
    pub(crate) message: Bytes,
}

/// What the files of a line hold, as `names_of` and `message_of` read them. A file that can't be used is
/// `CommandStop::CannotUse`. Names that aren't UTF-8 are `CommandStop::NotText`, and want of memory is
/// `CommandStop::RefusedCommand`.
pub(crate) fn files_of(rt: &HostRuntime, update: &Update) -> Result<LineFiles, CommandStop>
    ensures { IfErr result (IsStopOfItsFile update.now) }
{
    Ok(LineFiles {
        names: names_of(rt, update)?,
        message: message_of(rt, update)?,
    })
}
