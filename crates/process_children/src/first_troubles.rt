//! The first trouble with the files of children, and with a start.

use crate::obstacle::Obstacle;
use crate::stop::ChildStop;
use child_port::Fault;

/// The first trouble with the files of children, and the first with a start.
#[derive(Debug, Drop)]
pub(crate) struct FirstTroubles {
    of_files: Option<Obstacle>,
    of_a_start: Option<Obstacle>,
}

impl FirstTroubles {
    /// No trouble yet.
    pub(crate) fn new() -> FirstTroubles {
        FirstTroubles {
            of_files: None,
            of_a_start: None,
        }
    }

    /// The first trouble of laying files or reading them back.
    pub(crate) fn of_files(&self) -> Option<&Obstacle> {
        self.of_files.as_ref()
    }

    /// The first word that could not be started.
    pub(crate) fn of_a_start(&self) -> Option<&Obstacle> {
        self.of_a_start.as_ref()
    }

    /// Notes how laying files or reading them back ended: a trouble is the fault `ScratchFailed`, unless
    /// memory was refused.
    pub(crate) fn note_files<T>(&mut self, ended: Result<T, Obstacle>) -> Result<T, ChildStop> {
        noted(&mut self.of_files, ended, Fault::ScratchFailed)
    }

    /// Notes how a start ended: a trouble is the fault `NotStarted`, unless memory was refused.
    pub(crate) fn note_start<T>(&mut self, ended: Result<T, Obstacle>) -> Result<T, ChildStop> {
        noted(&mut self.of_a_start, ended, Fault::NotStarted)
    }
}

// Turns the trouble of a result into a stop, and keeps it if it is a fault and the first one.
fn noted<T>(
    first: &mut Option<Obstacle>,
    ended: Result<T, Obstacle>,
    fault: Fault,
) -> Result<T, ChildStop> {
    match ended {
        Ok(value) => Ok(value),
        Err(trouble) => {
            let stop = ChildStop::of(trouble.error(), fault);
            if first.is_none() && matches!(stop, ChildStop::Fault(_)) {
                *first = Some(trouble);
            }
            Err(stop)
        }
    }
}
