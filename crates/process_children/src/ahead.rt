//! Children that are started ahead of their turns, each in a scratch folder of its own, and their answers until
//! their turns come.

use crate::ending::ChildEnding;
use crate::kept_folder::keep_as;
use crate::known_in_folders::KnownInFolders;
use crate::laid_folder::{HeldLaid, LaidFolder};
use crate::links::WantedFiles;
use crate::outputs::NO_LIMIT;
use crate::read_back::read_back;
use crate::run_folders::FoldersAhead;
use crate::side_by_side::RunningChildren;
use child_port::{Answer, ChildAsk};
use hook_base::{OutOfMemory, Text, Tree};
use std::alloc::{AllocError, Global};
use std::fs::{File, Files};
use std::mem;
use std::process::{Processes, SystemProcess};

// How many files are laid in a millisecond, about.
const FILES_A_MILLISECOND: usize = 20;

// Once more bytes of output wait for their turns, no child is started but that of the turn.
const MOST_KEPT_BYTES: usize = 4_194_304;

/// What children are asked ahead of their turns, and on which tree.
#[derive(Drop)]
pub(crate) struct AsksAhead {
    /// What each is asked, in the order of their turns.
    pub asks: Vec<ChildAsk>,
    /// The tree.
    pub tree: Tree,
}

impl AsksAhead {
    /// These asks on this tree. A child that an earlier one would answer isn't among them: if the run asks it
    /// nevertheless, it runs in its turn.
    pub(crate) fn on(
        alloc: Global,
        asks: Vec<ChildAsk>,
        tree: &Tree,
    ) -> Result<AsksAhead, OutOfMemory> {
        let mut others: Vec<ChildAsk> = Vec::with_capacity(alloc, asks.len())?;
        for ask in asks {
            let is_asked = others
                .iter()
                .any(|other| other.words == ask.words && other.seen == ask.seen);
            if !is_asked {
                others.push(ask)?;
            }
        }
        Ok(AsksAhead {
            asks: others,
            tree: tree.copy()?,
        })
    }
}

/// The folders in which children may run.
#[derive(Clone, Copy, Debug)]
pub(crate) struct FolderCount {
    /// How many there are.
    pub folders: usize,
    /// Whether the first one is for the child of the turn alone.
    pub keeps_first: bool,
}

/// Children that were asked ahead of their turns on one tree. They are started in the order of their turns,
/// while it is waited for the answer of one of them.
#[derive(Drop)]
pub(crate) struct ChildrenAhead {
    tree: Tree,
    asked: Vec<AskedChild>,
    // The number of the one that is started next.
    next: usize,
    // A folder each, with the same numbers as the folders of the run.
    lanes: Vec<Lane>,
    // Whether the first folder is for the child of the turn alone.
    keeps_first: bool,
    // How many may run at once.
    most: usize,
    running: RunningChildren<SystemProcess>,
    // Whether no child has ended for as long as it takes to lay a further folder.
    has_waited: bool,
    // Whether a folder couldn't be laid or read back.
    has_failed: bool,
}

// What a child was asked, and what became of it.
#[derive(Drop)]
struct AskedChild {
    ask: ChildAsk,
    standing: AskStanding,
}

#[derive(Drop)]
enum AskStanding {
    // It hasn't ended yet.
    Comes,
    Answered(Answer),
    // It has no answer that may be given in its turn, or that was given.
    Over,
}

// A folder, and what is laid in it for its child while that runs.
#[derive(Drop)]
struct Lane {
    was_laid: bool,
    child: usize,
    laid: Option<HeldLaid>,
}

impl ChildrenAhead {
    /// Children that are asked on this tree, of which so many may run at once in these folders. None is started
    /// yet.
    pub(crate) fn asked(
        alloc: Global,
        asks: AsksAhead,
        folders: FolderCount,
        most: usize,
    ) -> Result<ChildrenAhead, OutOfMemory> {
        let AsksAhead { asks, tree } = asks;
        let mut asked = Vec::with_capacity(alloc, asks.len())?;
        for ask in asks {
            let standing = AskStanding::Comes;
            asked.push(AskedChild { ask, standing })?;
        }
        ChildrenAhead::of(alloc, asked, tree, 0, folders, most)
    }

    /// Children that were asked on this tree, and have answered so, as far as there are answers.
    pub(crate) fn answered(
        alloc: Global,
        asks: AsksAhead,
        answers: Vec<Option<Answer>>,
    ) -> Result<ChildrenAhead, OutOfMemory> {
        let AsksAhead { asks, tree } = asks;
        let mut asked = Vec::with_capacity(alloc, asks.len())?;
        for (ask, answer) in asks.into_iter().zip(answers) {
            let standing = match answer {
                Some(answer) => AskStanding::Answered(answer),
                None => AskStanding::Over,
            };
            asked.push(AskedChild { ask, standing })?;
        }
        let next = asked.len();
        let none = FolderCount {
            folders: 0,
            keeps_first: false,
        };
        ChildrenAhead::of(alloc, asked, tree, next, none, 0)
    }

    fn of(
        alloc: Global,
        asked: Vec<AskedChild>,
        tree: Tree,
        next: usize,
        count: FolderCount,
        most: usize,
    ) -> Result<ChildrenAhead, OutOfMemory> {
        let mut lanes = Vec::with_capacity(alloc, count.folders)?;
        for _ in 0..count.folders {
            lanes.push(Lane {
                was_laid: false,
                child: 0,
                laid: None,
            })?;
        }
        Ok(ChildrenAhead {
            tree,
            asked,
            next,
            lanes,
            keeps_first: count.keeps_first,
            most,
            running: RunningChildren::with_room(alloc, count.folders)?,
            has_waited: false,
            has_failed: false,
        })
    }

    /// Whether they were asked on this tree.
    pub(crate) fn are_of(&self, tree: &Tree) -> bool {
        self.tree == *tree
    }

    /// Whether a folder couldn't be laid or read back, so that no further one is started.
    pub(crate) fn has_failed(&self) -> bool {
        self.has_failed
    }

    /// The answer to these words and seen files, if that was asked and is given for the first time. It is
    /// waited for, and others run meanwhile. Each answer is that of its turn, whatever the child and the others
    /// do in their folders. There is none of a child that gave none, or that may have written where it ran.
    pub(crate) fn take<R: Files<File = File> + Processes<Started = SystemProcess> + AllocGlobal>(
        &mut self,
        words: &[Text],
        seen: &Tree,
        folders: &FoldersAhead<'_, R>,
        known: &mut KnownInFolders,
        piece: &mut [u8],
    ) -> Option<Answer> {
        let mut asked = self.asked.iter();
        let at = asked.position(|asked| asked.may_answer(words, seen))?;
        for _ in 0..u64::MAX {
            if self.has_ended(at) || !self.go_on(at, folders, known, piece) {
                break;
            }
        }
        self.asked.get_mut(at)?.take_answer()
    }

    fn has_ended(&self, at: usize) -> bool {
        match self.asked.get(at) {
            Some(asked) => !matches!(asked.standing, AskStanding::Comes),
            None => true,
        }
    }

    /// Waits for those that run. No further one is started meanwhile.
    pub(crate) fn pause<R: Files<File = File> + AllocGlobal>(
        &mut self,
        folders: &FoldersAhead<'_, R>,
        known: &mut KnownInFolders,
        piece: &mut [u8],
    ) {
        for _ in 0..u64::MAX {
            if self.running.len() == 0 {
                break;
            }
            self.running.read(piece, NO_LIMIT);
            self.take_ended(folders, known, piece);
        }
    }

    /// Waits for those that run, whose answers aren't wanted.
    pub(crate) fn end(self) {
        let ChildrenAhead {
            tree: _,
            asked: _,
            next: _,
            lanes: _,
            keeps_first: _,
            most: _,
            mut running,
            has_waited: _,
            has_failed: _,
        } = self;
        running.end_all();
    }

    // Starts the next one, or waits for one of those that run, while it is waited for the one with this number.
    // The answer is whether there is one of either. A further folder is laid only once no child has ended for as
    // long as that takes. So quick children follow each other in one folder.
    fn go_on<R: Files<File = File> + Processes<Started = SystemProcess> + AllocGlobal>(
        &mut self,
        turn: usize,
        folders: &FoldersAhead<'_, R>,
        known: &mut KnownInFolders,
        piece: &mut [u8],
    ) -> bool {
        if let Some(at) = self.lane_of_next(turn) {
            self.has_waited = false;
            if self.start_in(at, folders, known, piece).is_none() {
                self.start_no_more();
            }
            return true;
        }
        if self.running.len() == 0 {
            return false;
        }
        let milliseconds = self.most_milliseconds();
        self.running.read(piece, milliseconds);
        self.has_waited = true;
        self.take_ended(folders, known, piece);
        true
    }

    // The folder in which the next child starts now: one whose child has ended, or one that wasn't laid yet.
    fn lane_of_next(&self, turn: usize) -> Option<usize> {
        let is_ahead = self.next > turn;
        if !self.has_further() || is_ahead && self.kept_bytes() > MOST_KEPT_BYTES {
            return None;
        }
        if self.keeps_first && self.next == turn {
            let first = self.lanes.first()?;
            return first.laid.is_none().then_some(0);
        }
        let free = self.free();
        if free.is_some() {
            return free;
        }
        if self.has_waited || self.running.len() == 0 {
            self.unlaid()
        } else {
            None
        }
    }

    // Whether there is a child that may be started besides those that run.
    fn has_further(&self) -> bool {
        self.next < self.asked.len() && self.running.len() < self.most
    }

    // A folder in which a child ahead of its turn may run, and whose last child has ended.
    fn free(&self) -> Option<usize> {
        let from = usize::from(self.keeps_first);
        let mut lanes = self.lanes.iter().skip(from);
        let at = lanes.position(|lane| lane.was_laid && lane.laid.is_none())?;
        Some(at.saturating_add(from))
    }

    // How many bytes of output wait for their turns.
    fn kept_bytes(&self) -> usize {
        let mut kept = 0usize;
        for asked in self.asked.iter() {
            if let AskStanding::Answered(answer) = &asked.standing {
                kept = kept.saturating_add(answer.output.as_slice().len());
            }
        }
        kept
    }

    // A folder for children ahead of their turns that wasn't laid yet.
    fn unlaid(&self) -> Option<usize> {
        let from = usize::from(self.keeps_first);
        let mut lanes = self.lanes.iter().skip(from);
        let at = lanes.position(|lane| !lane.was_laid)?;
        Some(at.saturating_add(from))
    }

    // How long to wait for a child before a further folder is laid.
    fn most_milliseconds(&self) -> i32 {
        if self.has_further() && self.unlaid().is_some() {
            let milliseconds = (self.tree.len() / FILES_A_MILLISECOND).saturating_add(1);
            i32::try_from(milliseconds).unwrap_or(i32::MAX)
        } else {
            NO_LIMIT
        }
    }

    // Lays a folder, and starts the next child in it. `None` if the folder can't be laid.
    fn start_in<R: Files<File = File> + Processes<Started = SystemProcess> + AllocGlobal>(
        &mut self,
        at: usize,
        folders: &FoldersAhead<'_, R>,
        known: &mut KnownInFolders,
        piece: &mut [u8],
    ) -> Option<()> {
        let (runtime, number) = (folders.runtime, self.next);
        let alloc = runtime.alloc();
        self.next = number.saturating_add(1);
        let asked = self.asked.get_mut(number)?;
        asked.standing = AskStanding::Over;
        let lane = self.lanes.get_mut(at)?;
        let (scratch, known) = (folders.folder(at)?, known.of_folder(at)?);
        let wanted = WantedFiles {
            tree: &self.tree,
            links: folders.links,
        };
        let mut laid = keep_as(runtime, alloc, scratch.place(), wanted, known, piece).ok()?;
        lane.was_laid = true;
        known.child_starts(laid.found());
        let inside = laid.own.inside("").ok()?;
        if let Some(child) = folders.start(scratch, inside.as_str(), &asked.ask) {
            asked.standing = AskStanding::Comes;
            lane.child = number;
            lane.laid = Some(laid.held());
            self.running.add(at, child);
        }
        Some(())
    }

    fn take_ended<R: Files<File = File> + AllocGlobal>(
        &mut self,
        folders: &FoldersAhead<'_, R>,
        known: &mut KnownInFolders,
        piece: &mut [u8],
    ) {
        for _ in 0..self.lanes.len() {
            let Some((at, ending)) = self.running.take_ended() else {
                break;
            };
            let ended = self.read_lane(at, ending.ok(), folders, known, piece);
            if ended.is_none() {
                self.start_no_more();
            }
        }
    }

    // Reads back what the child of a folder left, and keeps its answer. `None` if it can't be read back.
    fn read_lane<R: Files<File = File> + AllocGlobal>(
        &mut self,
        at: usize,
        ending: Option<ChildEnding>,
        folders: &FoldersAhead<'_, R>,
        known: &mut KnownInFolders,
        piece: &mut [u8],
    ) -> Option<()> {
        let (runtime, lane) = (folders.runtime, self.lanes.get_mut(at)?);
        let alloc = runtime.alloc();
        let asked = self.asked.get_mut(lane.child)?;
        asked.standing = AskStanding::Over;
        let (scratch, known) = (folders.folder(at)?, known.of_folder(at)?);
        let laid = LaidFolder::of_held(alloc, scratch.place(), lane.laid.take()?);
        let changes = read_back(runtime, alloc, laid, &self.tree, known, piece).ok()?;
        if let Some(ChildEnding { status, output }) = ending {
            let answer = Answer {
                status,
                output,
                changes,
            };
            if folders.is_of_turn(at, scratch, &answer) {
                asked.standing = AskStanding::Answered(answer);
            }
        }
        Some(())
    }

    // Those that weren't started yet run in their turns.
    fn start_no_more(&mut self) {
        self.has_failed = true;
        let next = self.next;
        self.next = self.asked.len();
        for asked in self.asked.iter_mut().skip(next) {
            asked.standing = AskStanding::Over;
        }
    }
}

impl AskedChild {
    // Whether this was asked, and may have an answer.
    fn may_answer(&self, words: &[Text], seen: &Tree) -> bool {
        !matches!(self.standing, AskStanding::Over)
            && self.ask.words.as_slice() == words
            && self.ask.seen == *seen
    }

    fn take_answer(&mut self) -> Option<Answer> {
        match mem::replace(&mut self.standing, AskStanding::Over) {
            AskStanding::Answered(answer) => Some(answer),
            AskStanding::Comes | AskStanding::Over => None,
        }
    }
}
