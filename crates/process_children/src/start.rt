//! Starting a child.

use crate::input;
use crate::obstacle::{Obstacle, at_place};
use hook_base::Text;
use std::alloc::Global;
use std::fs::{File, Files};
use std::io;
use std::io::ErrorKind;
use std::process::{Child, Command, Processes, Stdio};

// The variable of a child that has seen the file of Git's state.
const SEES_STATE: &str = "HOOKHOST_SEES_GIT_STATE";

/// Starts the words in a folder, in the environment of this process. Standard input is empty and locked on a
/// byte, and each output is a pipe. If it is known whether the child has seen Git's state, a variable says
/// so. A program word with a slash, but not at the front, is a path from the folder. One without a slash is
/// looked for along `PATH`, as execvp of exec(3) does. No other open file is passed on.
///
/// The error is the program word and the system's error if it can't be started (execve(2)). No word at all is
/// an error too.
pub(crate) fn start<R: Files<File = File> + Processes>(
    runtime: &R,
    alloc: Global,
    folder: &str,
    input_byte: u64,
    words: &[Text],
    sees_state: Option<bool>,
) -> Result<Child<R::Started>, Obstacle> {
    let Some((program, arguments)) = words.split_first() else {
        let error = io::Error::new(ErrorKind::InvalidInput, "there is no word to start");
        return Err(Obstacle::at(alloc, "", error));
    };
    let mut command = Command::new(alloc, program.as_str())?;
    for argument in arguments {
        let _command = command.arg(argument.as_str())?;
    }
    match sees_state {
        Some(true) => {
            let _command = command.env(SEES_STATE, "1")?;
        }
        Some(false) => {
            let _command = command.env_remove(SEES_STATE)?;
        }
        None => {}
    }
    let command = command.current_dir(folder)?;
    let input = input::open(runtime, input_byte);
    let command = command.stdin(at_place(alloc, program.as_str(), input)?);
    let command = command.stdout(Stdio::piped());
    let command = command.stderr(Stdio::piped());
    at_place(alloc, program.as_str(), command.spawn(runtime))
}
