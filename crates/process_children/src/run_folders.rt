//! The scratch folders of a run: that of the turns, and further ones for children ahead of their turns.

use crate::known_in_folders::KnownInFolders;
use crate::links::last_name;
use crate::scratch_folder::{AtEnd, ScratchFolder};
use crate::start::start;
use child_port::{Answer, ChildAsk};
use hook_base::{RepoPath, Tree};
use memchr::memmem;
use std::fs;
use std::fs::{File, Files};
use std::io::ErrorKind;
use std::process::{Child, Processes};

/// The folders of a run, and what children find besides the files of their tree.
#[derive(Drop)]
pub(crate) struct FoldersAhead<'a, R> {
    /// The system.
    pub runtime: &'a R,
    /// The folder of the turns, whose number is 0.
    pub first: &'a ScratchFolder,
    /// The others, in the order of their numbers.
    pub further: &'a [ScratchFolder],
    /// The places that links lead to.
    pub links: &'a [String],
    /// The file that represents Git's state, if children learn whether they have seen it.
    pub state: Option<&'a RepoPath>,
    /// Whether a program that children call works in the first folder alone, and otherwise records the call next
    /// to the folder.
    pub records_calls: bool,
}

impl<'a, R> FoldersAhead<'a, R> {
    /// The folder with this number.
    pub(crate) fn folder(&self, at: usize) -> Option<&'a ScratchFolder> {
        if at == 0 {
            Some(self.first)
        } else {
            self.further.get(at.saturating_sub(1))
        }
    }
}

impl<'a, R: Files<File = File> + Processes + AllocGlobal> FoldersAhead<'a, R> {
    /// Starts a child in a folder of the run, whose place this is too. `None` if that fails: its turn then says
    /// why.
    pub(crate) fn start(
        &self,
        scratch: &ScratchFolder,
        inside: &str,
        ask: &ChildAsk,
    ) -> Option<Child<R::Started>> {
        let (alloc, byte) = (self.runtime.alloc(), scratch.input_byte());
        let (words, state) = (ask.words.as_slice(), sees_state(self.state, &ask.seen));
        start(self.runtime, alloc, inside, byte, words, state).ok()
    }
}

impl<'a, R: Files<File = File> + AllocGlobal> FoldersAhead<'a, R> {
    /// Whether a child that ran in the folder with this number answered what it does in its turn: it has called
    /// nothing that works in the first folder alone, and hasn't written where it ran.
    pub(crate) fn is_of_turn(&self, at: usize, scratch: &ScratchFolder, answer: &Answer) -> bool {
        if at == 0 {
            return true;
        }
        let place = scratch.place();
        let has_called = self.records_calls && self.take_call(place);
        let is_elsewhere = self.records_calls && names(answer, last_name(parent_of(place)));
        !has_called && !is_elsewhere && !names(answer, last_name(place))
    }

    // Whether a call was recorded next to a folder. The record is removed.
    fn take_call(&self, place: &str) -> bool {
        let Ok(record) = format!(in self.runtime.alloc(); "{place}.calls") else {
            return true;
        };
        match fs::metadata(self.runtime, record.as_str()) {
            Err(e) if e.kind() == ErrorKind::NotFound => false,
            _ => {
                let _removed = fs::remove_file(self.runtime, record.as_str());
                true
            }
        }
    }
}

// The place of the folder in which a place is.
fn parent_of(place: &str) -> &str {
    match place.rsplit_once('/') {
        Some((parent, _)) => parent,
        None => "",
    }
}

// Whether a child may have written this name.
fn names(answer: &Answer, name: &str) -> bool {
    has_name(answer.output.as_slice(), name)
        || answer
            .changes
            .as_slice()
            .iter()
            .any(|change| match &change.now {
                Some(now) => has_name(now.as_slice(), name),
                None => false,
            })
}

fn has_name(bytes: &[u8], name: &str) -> bool {
    memmem::find(bytes, name.as_bytes()).is_some()
}

/// Whether a child that has seen these files has seen that of Git's state, or `None` if no path was given.
pub(crate) fn sees_state(state: Option<&RepoPath>, seen: &Tree) -> Option<bool> {
    match state {
        Some(path) => Some(seen.get(path).is_some()),
        None => None,
    }
}

/// Takes further folders next to the first, up to so many. If that fails, there are fewer.
pub(crate) fn take_further<R: Files<File = File> + AllocGlobal>(
    files: &R,
    first: &ScratchFolder,
    folder: &str,
    further: &mut Vec<ScratchFolder>,
    known: &mut KnownInFolders,
    most: usize,
) {
    let alloc = files.alloc();
    for _ in further.len()..most {
        let last = match further.last() {
            Some(last) => last.number(),
            None => first.number(),
        };
        let Ok(taken) = ScratchFolder::take(files, alloc, folder, last.saturating_add(1)) else {
            break;
        };
        if further.push(taken).is_err() || known.add(alloc).is_none() {
            break;
        }
    }
}

/// Leaves the folders that weren't laid yet, and those whose marks a child has removed: other runs treat these
/// as unused.
pub(crate) fn leave_unused<R: Files<File = File> + AllocGlobal>(
    files: &R,
    further: &mut Vec<ScratchFolder>,
    known: &mut KnownInFolders,
) {
    let mut at = 0;
    for _ in 0..further.len() {
        let Some(folder) = further.get(at) else {
            break;
        };
        let number = at.saturating_add(1);
        if known.is_of_laid(number) && folder.is_marked(files) {
            at = number;
        } else {
            known.remove(number);
            let left = further.remove(at);
            left.leave(files, files.alloc(), AtEnd::FolderStays);
        }
    }
}

/// Leaves these folders, after their children have ended.
pub(crate) fn leave_further<R: Files<File = File> + AllocGlobal>(
    files: &R,
    further: Vec<ScratchFolder>,
) {
    for folder in further {
        folder.leave(files, files.alloc(), AtEnd::FolderStays);
    }
}
