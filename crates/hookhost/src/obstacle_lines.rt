//! Reports what was in the way of children: of their files, and of a start.
//!
//! The contracts cite `specs/ObstacleLines.antt`.

ghost use Rattle.std.specs.Prelude.{OnOk};
ghost use Rattle.text_output.specs.Outputs.{Has, output_of};
ghost use Rattle.hookhost.specs.ObstacleLines.{error_after, obstacle_line};

use crate::runs::RealChildren;
use process_children::Obstacle;
use std::io::Write;
use text_output::{Unwritten, write_out, write_path};

// What comes before the place that was in the way of files, and before the word that could not be started.
const AT: &str = "hookhost: ";

const CANNOT_START: &str = "hookhost: cannot start ";

/// Says on standard error which file or folder was first in the way of the children's files, and which word
/// could not be started first. Each comes with the system's error there. Nothing is said if there was no such
/// trouble, of an empty place or word, or if memory is refused.
pub(crate) fn tell_trouble(rt: &HostRuntime, children: &RealChildren) {
    let children = children.children().children();
    tell(rt, AT, children.trouble());
    tell(rt, CANNOT_START, children.unstarted());
}

fn tell(rt: &HostRuntime, before: &str, trouble: Option<&Obstacle>) {
    if let Some(trouble) = trouble {
        let (place, error) = (trouble.place(), trouble.error());
        if place.is_empty() {
            return;
        }
        if let Ok(error) = format!(in rt.alloc(); "{error}") {
            let _said = say(&mut rt.stderr(), before, place, error.as_str());
        }
    }
}

fn say<W: Write>(writer: &mut W, before: &str, place: &str, error: &str) -> Result<(), Unwritten>
    ensures { OnOk result (Has (output_of (W.contents writer.old) (W.contents writer.new))
        (obstacle_line before.now place.now error.now)) }
{
    write_out(writer, before.as_bytes())?;
    write_path(writer, place)?;
    say_error(writer, error)
}

fn say_error<W: Write>(writer: &mut W, error: &str) -> Result<(), Unwritten>
    ensures { OnOk result (Has (output_of (W.contents writer.old) (W.contents writer.new)) (error_after error.now)) }
{
    write_out(writer, b": ")?;
    write_out(writer, error.as_bytes())?;
    write_out(writer, b"\n")
}
