//! Children that run at the same time in one scratch folder, which none of them may change.

use crate::ending::ChildEnding;
use crate::kept_folder::keep_as;
use crate::known_files::KnownFiles;
use crate::last_change::last_change;
use crate::links::WantedFiles;
use crate::outputs::NO_LIMIT;
use crate::read_back::read_back;
use crate::run_folders::FoldersAhead;
use crate::side_by_side::RunningChildren;
use child_port::{Answer, ChildAsk};
use hook_base::{Changes, Tree};
use std::alloc::Global;
use std::fs::{File, Files};
use std::process::{Processes, SystemProcess};

/// Starts the children in the first folder, at most so many at once, waits for all, and returns what each
/// answered, in their order. The folder is laid and read back once. There is no answer of a child that gave
/// none.
///
/// `None` if anything in the folder was changed, even if it is as before: a child may have found what another
/// one did. `None` too if changes needn't show in the times of files, or if the folder was lost.
pub(crate) fn answers_together<
    R: Files<File = File> + Processes<Started = SystemProcess> + AllocGlobal,
>(
    folders: &FoldersAhead<'_, R>,
    asks: &[ChildAsk],
    most: usize,
    tree: &Tree,
    known: &mut KnownFiles,
    piece: &mut [u8],
) -> Option<Vec<Option<Answer>>> {
    let (runtime, scratch) = (folders.runtime, folders.first);
    let alloc = runtime.alloc();
    let wanted = WantedFiles {
        tree,
        links: folders.links,
    };
    let mut laid = keep_as(runtime, alloc, scratch.place(), wanted, known, piece).ok()?;
    let device = known.device()?;
    let last = last_change(runtime, &mut laid.own, tree).ok()?;
    let start = scratch.moment_after(last, device).ok()??;
    known.child_starts(laid.found());
    let inside = laid.own.inside("").ok()?;
    let answers = answers_in(folders, inside.as_str(), asks, most, piece)?;
    let last = last_change(runtime, &mut laid.own, tree).ok()?;
    if !last.is_before(start) {
        return None;
    }
    let changes = read_back(runtime, alloc, laid, tree, known, piece).ok()?;
    changes.is_empty().then_some(answers)
}

// What the children answered, none of which is taken to have changed a file.
fn answers_in<R: Files<File = File> + Processes<Started = SystemProcess> + AllocGlobal>(
    folders: &FoldersAhead<'_, R>,
    inside: &str,
    asks: &[ChildAsk],
    most: usize,
    piece: &mut [u8],
) -> Option<Vec<Option<Answer>>> {
    let runtime = folders.runtime;
    let alloc = runtime.alloc();
    let mut answers = Vec::with_capacity(alloc, asks.len()).ok()?;
    for _ask in asks {
        answers.push(None).ok()?;
    }
    let mut running = RunningChildren::with_room(alloc, most).ok()?;
    let mut next = 0;
    for _ in 0..u64::MAX {
        next = start_some(folders, inside, asks, most, next, &mut running);
        if running.len() == 0 {
            break;
        }
        running.read(piece, NO_LIMIT);
        for _ in 0..most {
            let Some((number, ending)) = running.take_ended() else {
                break;
            };
            if let (Some(place), Ok(ending)) = (answers.get_mut(number), ending) {
                *place = Some(unchanging(alloc, ending));
            }
        }
    }
    Some(answers)
}

// The answer of a child that ended so, and changed nothing.
fn unchanging(alloc: Global, ending: ChildEnding) -> Answer {
    Answer {
        status: ending.status,
        output: ending.output,
        changes: Changes::new(alloc),
    }
}

// Starts further children, as long as fewer run than may at once. Returns the number of the next one.
fn start_some<R: Files<File = File> + Processes<Started = SystemProcess> + AllocGlobal>(
    folders: &FoldersAhead<'_, R>,
    inside: &str,
    asks: &[ChildAsk],
    most: usize,
    next: usize,
    running: &mut RunningChildren<SystemProcess>,
) -> usize {
    let mut next = next;
    for _ in 0..asks.len() {
        if running.len() >= most {
            break;
        }
        let Some(ask) = asks.get(next) else {
            break;
        };
        if let Some(child) = folders.start(folders.first, inside, ask) {
            running.add(next, child);
        }
        next = next.saturating_add(1);
    }
    next
}
