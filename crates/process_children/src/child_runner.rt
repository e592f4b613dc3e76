//! Runs children: lays out their files, starts them, and reads back what they left. Each runs in its turn, but
//! for those that were started ahead of it, several at once.

use crate::ahead::{AsksAhead, ChildrenAhead, FolderCount};
use crate::contents::PIECE_BYTES;
use crate::ending::{ChildEnding, ending_of};
use crate::first_troubles::FirstTroubles;
use crate::kept_folder::keep_as;
use crate::known_files::KnownFiles;
use crate::known_in_folders::KnownInFolders;
use crate::links::WantedFiles;
use crate::obstacle::at_place;
use crate::read_back::read_back;
use crate::run_folders::{FoldersAhead, leave_further, leave_unused, sees_state, take_further};
use crate::scratch_folder::{AtEnd, ScratchFolder};
use crate::start::start;
use crate::stop::ChildStop;
use crate::together::answers_together;
use child_port::{Answer, ChildAsk, Fault};
use hook_base::{RepoPath, Text, Tree};
use std::fs::{File, Files};
use std::io::ErrorKind;
use std::process::{Processes, SystemProcess};
use std::{fs, io};

// The trees of at most so many files are laid once for each child that runs at the same time. That takes about
// as long as a usual tool takes to start.
const MOST_FILES_APART: usize = 400;

// How many bytes all further folders of a run may hold, about.
const MOST_BYTES_APART: usize = 1_073_741_824;

/// Runs children, and keeps what is known of those before.
#[derive(Drop)]
pub(crate) struct ChildRunner<R: Files<File = File> + AllocGlobal + Drop> {
    runtime: R,
    folder: String,
    scratch: Option<ScratchFolder>,
    known: KnownInFolders,
    calls: Option<String>,
    links: Vec<String>,
    state: Option<RepoPath>,
    at_end: AtEnd,
    troubles: FirstTroubles,
    at_once: usize,
    // Whether children that ran at once in one folder have changed it.
    are_apart: bool,
    // The folder next to which the further ones are, if the first is for the child of the turn alone.
    apart: Option<String>,
    // The folders of children that run at once, but for the first.
    further: Vec<ScratchFolder>,
    // What was asked, of which no child was started yet.
    asked: Option<AsksAhead>,
    ahead: Option<ChildrenAhead>,
    // How long the file of calls was when these were asked.
    calls_before: u64,
}

impl<R: Files<File = File> + AllocGlobal + Drop> ChildRunner<R> {
    /// Runs children in this folder. None has run yet.
    pub(crate) fn new(
        runtime: R,
        folder: String,
        calls: Option<String>,
        at_end: AtEnd,
    ) -> ChildRunner<R> {
        let known = KnownInFolders::of_first(runtime.alloc(), KnownFiles::new(runtime.alloc()));
        let links = Vec::new(runtime.alloc());
        let further = Vec::new(runtime.alloc());
        ChildRunner {
            runtime,
            folder,
            scratch: None,
            known,
            calls,
            links,
            state: None,
            at_end,
            troubles: FirstTroubles::new(),
            at_once: 1,
            are_apart: false,
            apart: None,
            further,
            asked: None,
            ahead: None,
            calls_before: 0,
        }
    }

    /// From now on no file is known.
    pub(crate) fn read_everything(&mut self) {
        let alloc = self.runtime.alloc();
        self.known = KnownInFolders::of_first(alloc, KnownFiles::none_ever(alloc));
    }

    /// From now on the folder of a child has links to these places.
    pub(crate) fn link(&mut self, places: Vec<String>) {
        self.links = places;
    }

    /// From now on each child learns whether it has seen the file of this path.
    pub(crate) fn tell_state(&mut self, path: RepoPath) {
        self.state = Some(path);
    }

    /// From now on at most so many children run at once.
    pub(crate) fn set_at_once(&mut self, most: usize) {
        self.at_once = most;
    }

    /// From now on children ahead of their turns run next to this folder, and not next to that of the turns.
    pub(crate) fn run_apart(&mut self, folder: String) {
        self.apart = Some(folder);
    }

    /// How many children may be started at once ahead of the next turn.
    pub(crate) fn at_once(&self) -> usize {
        // A call that is recorded for all of them would be that of none.
        if self.calls.is_some() && self.apart.is_none() {
            1
        } else {
            self.at_once
        }
    }

    /// The first troubles.
    pub(crate) fn troubles(&self) -> &FirstTroubles {
        &self.troubles
    }

    /// Waits until all children have ended, and leaves the folders.
    pub(crate) fn leave(self) {
        let ChildRunner {
            runtime,
            folder: _,
            scratch,
            known: _,
            calls: _,
            links: _,
            state: _,
            at_end,
            troubles: _,
            at_once: _,
            are_apart: _,
            apart: _,
            further,
            asked: _,
            ahead,
            calls_before: _,
        } = self;
        if let Some(ahead) = ahead {
            ahead.end();
        }
        leave_further(&runtime, further);
        if let Some(scratch) = scratch {
            let alloc = runtime.alloc();
            scratch.leave(&runtime, alloc, at_end);
        }
    }

    fn take_scratch(&mut self) -> Result<ScratchFolder, ChildStop> {
        let folder = self.folder.as_str().trim_end_matches('/');
        let taken = ScratchFolder::take(&self.runtime, self.runtime.alloc(), folder, 0);
        self.troubles.note_files(taken)
    }
}

impl<R: Files<File = File> + Processes<Started = SystemProcess> + AllocGlobal + Drop> ChildRunner<
    R,
> {
    /// Runs one child, in the folder that was taken for the first one, after all that run ahead of their turns
    /// have ended. If it was asked ahead of this turn on this tree, its answer is taken.
    pub(crate) fn answer(
        &mut self,
        words: &[Text],
        tree: &Tree,
        seen: &Tree,
    ) -> Result<Answer, ChildStop> {
        if let Some(answer) = self.answer_ahead(words, tree, seen) {
            return Ok(answer);
        }
        let sees_state = sees_state(self.state.as_ref(), seen);
        let taken = match self.scratch.take() {
            Some(taken) => taken,
            None => self.take_scratch()?,
        };
        let answer = self.answer_in(&taken, words, tree, sees_state);
        self.scratch = if answer.is_err() {
            self.still_taken(taken)
        } else {
            Some(taken)
        };
        answer
    }

    fn answer_in(
        &mut self,
        scratch: &ScratchFolder,
        words: &[Text],
        tree: &Tree,
        sees_state: Option<bool>,
    ) -> Result<Answer, ChildStop> {
        let alloc = self.runtime.alloc();
        let mut piece = vec![in alloc; 0u8; PIECE_BYTES]?;
        let piece = piece.as_mut_slice();
        let (place, known) = (scratch.place(), &mut self.known.first);
        let links = self.links.as_slice();
        let wanted = WantedFiles { tree, links };
        let laid = keep_as(&self.runtime, alloc, place, wanted, known, piece);
        let mut laid = self.troubles.note_files(laid)?;
        self.known.first.child_starts(laid.found());
        let inside = at_place(alloc, place, laid.own.inside(""));
        let inside = self.troubles.note_files(inside)?;
        let (inside, byte) = (inside.as_str(), scratch.input_byte());
        let ending = self.ending_in(inside, byte, words, sees_state, piece)?;
        let known = &mut self.known.first;
        let changes = read_back(&self.runtime, alloc, laid, tree, known, piece);
        Ok(Answer {
            status: ending.status,
            output: ending.output,
            changes: self.troubles.note_files(changes)?,
        })
    }

    // Starts a child in a folder, and waits for its end. If a call is recorded while it runs, that is the
    // fault, however it ended.
    fn ending_in(
        &mut self,
        folder: &str,
        input_byte: u64,
        words: &[Text],
        sees_state: Option<bool>,
        piece: &mut [u8],
    ) -> Result<ChildEnding, ChildStop> {
        let alloc = self.runtime.alloc();
        let before = self.call_bytes()?;
        let child = start(&self.runtime, alloc, folder, input_byte, words, sees_state);
        let ending = ending_of(alloc, self.troubles.note_start(child)?, piece);
        if self.call_bytes()? == before {
            ending
        } else {
            Err(ChildStop::Fault(Fault::ScratchFailed))
        }
    }

    // The length of the file in which calls are recorded.
    fn call_bytes(&mut self) -> Result<u64, ChildStop> {
        let length = self.call_length();
        let place = match &self.calls {
            Some(place) => place.as_str(),
            None => "",
        };
        let length = at_place(self.runtime.alloc(), place, length);
        self.troubles.note_files(length)
    }
}

impl<R: Files<File = File> + Processes<Started = SystemProcess> + AllocGlobal + Drop> ChildRunner<
    R,
> {
    /// Asks children ahead of their turns on this tree, of which several run at once. None is started before the
    /// next turn. The answers are kept, each for its turn. A child that doesn't answer runs again in its turn, which
    /// then says why. If a call was recorded meanwhile, no answer is kept.
    ///
    /// Those of a large tree share a folder, until some of them change it. Those of a small tree, and all after
    /// that, have folders of their own, and are started while it is waited for one of them. So have all if the first
    /// folder is for the child of the turn alone.
    pub(crate) fn start_ahead(&mut self, asks: Vec<ChildAsk>, tree: &Tree) {
        self.end_ahead();
        self.asked = AsksAhead::on(self.runtime.alloc(), asks, tree).ok();
    }

    // Begins with what was asked, before the first turn on its tree.
    fn begin_ahead(&mut self, asked: AsksAhead) {
        if self.scratch.is_none() {
            match self.take_scratch() {
                Ok(taken) => self.scratch = Some(taken),
                Err(_) => return,
            }
        }
        let Ok(calls) = self.call_length() else {
            return;
        };
        self.calls_before = calls;
        let alloc = self.runtime.alloc();
        let is_large = asked.tree.len() > MOST_FILES_APART;
        let may_share = is_large && !self.are_apart && self.apart.is_none();
        let shared = if may_share {
            self.answers_together(asked.asks.as_slice(), &asked.tree)
        } else {
            None
        };
        let ahead = match shared {
            Some(answers) => ChildrenAhead::answered(alloc, asked, answers),
            None => {
                self.are_apart = self.are_apart || may_share;
                let folders = self.take_folders(asked.asks.len(), &asked.tree);
                ChildrenAhead::asked(alloc, asked, folders, self.at_once)
            }
        };
        self.ahead = ahead.ok();
    }

    // What the children answer if they share a folder, unless that can't count.
    fn answers_together(&mut self, asks: &[ChildAsk], tree: &Tree) -> Option<Vec<Option<Answer>>> {
        let alloc = self.runtime.alloc();
        let mut piece = vec![in alloc; 0u8; PIECE_BYTES].ok()?;
        let folders = FoldersAhead {
            runtime: &self.runtime,
            first: self.scratch.as_ref()?,
            further: self.further.as_slice(),
            links: self.links.as_slice(),
            state: self.state.as_ref(),
            records_calls: self.apart.is_some(),
        };
        let (known, piece) = (&mut self.known.first, piece.as_mut_slice());
        answers_together(&folders, asks, self.at_once, tree, known, piece)
    }

    // Takes as many folders as so many children need, and returns how many there are, the first one included.
    fn take_folders(&mut self, asks: usize, tree: &Tree) -> FolderCount {
        let most = most_further(self.at_once, asks, tree, self.apart.is_some());
        let folder = self.apart.as_ref().unwrap_or(&self.folder);
        let folder = folder.as_str().trim_end_matches('/');
        let (further, known) = (&mut self.further, &mut self.known);
        if let Some(first) = &self.scratch {
            take_further(&self.runtime, first, folder, further, known, most);
        }
        FolderCount {
            folders: most.min(self.further.len()).saturating_add(1),
            keeps_first: self.apart.is_some(),
        }
    }

    // The answer to what was asked ahead of this turn on this tree. If a call was recorded since, there is none,
    // nor to anything else that was asked then.
    fn answer_ahead(&mut self, words: &[Text], tree: &Tree, seen: &Tree) -> Option<Answer> {
        if let Some(asked) = self.asked.take() {
            if asked.tree == *tree {
                self.begin_ahead(asked);
            }
        }
        if !self.ahead.as_ref()?.are_of(tree) {
            self.end_ahead();
            return None;
        }
        let answer = self.take_ahead(words, seen);
        if self.call_length().ok() != Some(self.calls_before) {
            self.end_ahead();
            return None;
        }
        if answer.is_none() {
            self.pause_ahead();
        }
        answer
    }

    fn take_ahead(&mut self, words: &[Text], seen: &Tree) -> Option<Answer> {
        let alloc = self.runtime.alloc();
        let mut piece = vec![in alloc; 0u8; PIECE_BYTES].ok()?;
        let folders = FoldersAhead {
            runtime: &self.runtime,
            first: self.scratch.as_ref()?,
            further: self.further.as_slice(),
            links: self.links.as_slice(),
            state: self.state.as_ref(),
            records_calls: self.apart.is_some(),
        };
        let (known, piece) = (&mut self.known, piece.as_mut_slice());
        let ahead = self.ahead.as_mut()?;
        ahead.take(words, seen, &folders, known, piece)
    }

    // Waits for the children that run ahead of their turns, before one runs in its turn. If no more can be
    // started, their folders are left, so that one can be laid.
    fn pause_ahead(&mut self) {
        if self.paused() == Some(true) {
            self.keep_marked();
        } else {
            self.end_ahead();
        }
    }

    // The same. The answer is whether more can be started.
    fn paused(&mut self) -> Option<bool> {
        let alloc = self.runtime.alloc();
        let mut piece = vec![in alloc; 0u8; PIECE_BYTES].ok()?;
        let folders = FoldersAhead {
            runtime: &self.runtime,
            first: self.scratch.as_ref()?,
            further: self.further.as_slice(),
            links: self.links.as_slice(),
            state: self.state.as_ref(),
            records_calls: self.apart.is_some(),
        };
        let (known, piece) = (&mut self.known, piece.as_mut_slice());
        let ahead = self.ahead.as_mut()?;
        ahead.pause(&folders, known, piece);
        Some(!ahead.has_failed())
    }

    // Waits for the children that run ahead of their turns. What they answer is dropped.
    fn end_ahead(&mut self) {
        if let Some(ahead) = self.ahead.take() {
            ahead.end();
            leave_unused(&self.runtime, &mut self.further, &mut self.known);
            self.keep_marked();
        }
    }

    // Leaves the first folder if a child has removed its mark.
    fn keep_marked(&mut self) {
        if let Some(taken) = self.scratch.take() {
            self.scratch = self.still_taken(taken);
        }
    }

    // The folder, unless a child has removed its mark, maybe with all that was next to it. Then the next child
    // takes a folder again.
    fn still_taken(&self, taken: ScratchFolder) -> Option<ScratchFolder> {
        if taken.is_marked(&self.runtime) {
            return Some(taken);
        }
        taken.leave(&self.runtime, self.runtime.alloc(), AtEnd::FolderStays);
        None
    }

    fn call_length(&self) -> io::Result<u64> {
        match &self.calls {
            Some(place) => length_at(&self.runtime, place.as_str()),
            None => Ok(0),
        }
    }
}

// How many further folders so many children of a tree need, of whom so many run at once.
fn most_further(at_once: usize, asks: usize, tree: &Tree, keeps_first: bool) -> usize {
    let others = asks.saturating_sub(1);
    let most = if keeps_first {
        at_once.min(others)
    } else {
        at_once.saturating_sub(1).min(others)
    };
    match MOST_BYTES_APART.checked_div(bytes_of(tree)) {
        Some(room) => most.min(room),
        None => most,
    }
}

fn bytes_of(tree: &Tree) -> usize {
    let mut bytes = 0usize;
    for index in 0..tree.len() {
        let file = tree.entry(index);
        bytes = bytes.saturating_add(file.entry.bytes.len());
    }
    bytes
}

// The length of the file at a place, 0 if none is there.
fn length_at<R: Files>(files: &R, place: &str) -> io::Result<u64> {
    match fs::metadata(files, place) {
        Ok(found) => Ok(found.len()),
        Err(e) if e.kind() == ErrorKind::NotFound => Ok(0),
        Err(e) => Err(e),
    }
}
