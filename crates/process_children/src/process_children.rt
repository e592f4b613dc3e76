//! Children that are real processes.

ghost use Rattle.std.specs.Prelude.{◌≡◌, ◌+◌, ◌<◌, ◌^◌};

use crate::child_runner::ChildRunner;
use crate::obstacle::Obstacle;
use crate::scratch_folder::AtEnd;
use crate::stop::ChildStop;
use child_port::{ChildAsk, Children, Outcome};
use hook_base::{OutOfMemory, RepoPath, Text, Tree};
use std::fs::{File, Files};
use std::process::{Processes, SystemProcess};

/// Children that are real processes, each started in a scratch folder that holds the files of its tree, the
/// folder `.git`, links to what is installed ([`link`](ProcessChildren::link)), and nothing else.
///
/// Their folder is taken for the first of them, and left when this value is dropped. Meanwhile a locked file
/// next to it shows other processes that it is in use.
pub struct ProcessChildren<R: Files<File = File> + AllocGlobal + Drop> {
    runner: ChildRunner<R>,
    completed: u64,
    failed: u64,
    ghost countable: { completed + failed < 2 ^ 64 },
}

impl<
    R: Files<File = File> + Processes<Started = SystemProcess> + AllocGlobal + Drop,
> ProcessChildren<R> {
    /// Children that will run in this folder, which is made for the first of them, with its missing parents.
    /// Whatever else is in it is removed. If other children use it by then, these run in a folder of their
    /// own next to it, which is removed at their end. None has run yet.
    pub fn new(runtime: R, folder: String) -> ProcessChildren<R>
        ensures no_calls { ⟦<ProcessChildren<R> as Children>⟧.call_count result ≡ 0 }
        ensures no_faults { ⟦<ProcessChildren<R> as Children>⟧.fault_count result ≡ 0 }
    {
        ProcessChildren::watching(runtime, folder, None)
    }

    /// The same. A child counts as the fault `ScratchFailed` if the length of the file at `calls` changed
    /// while it ran. In that file a program records that a child has called it, and that the child's answer
    /// must not be cached. A missing file counts as empty.
    pub fn watching(runtime: R, folder: String, calls: Option<String>) -> ProcessChildren<R>
        ensures no_calls { ⟦<ProcessChildren<R> as Children>⟧.call_count result ≡ 0 }
        ensures no_faults { ⟦<ProcessChildren<R> as Children>⟧.fault_count result ≡ 0 }
    {
        ProcessChildren {
            runner: ChildRunner::new(runtime, folder, calls, AtEnd::FolderStays),
            completed: 0,
            failed: 0,
        }
    }

    /// Children as [`new`](ProcessChildren::new) makes them, whose folder is removed at their end. So is its
    /// parent folder if that is empty then.
    pub fn removed_at_end(runtime: R, folder: String) -> ProcessChildren<R>
        ensures no_calls { ⟦<ProcessChildren<R> as Children>⟧.call_count result ≡ 0 }
        ensures no_faults { ⟦<ProcessChildren<R> as Children>⟧.fault_count result ≡ 0 }
    {
        ProcessChildren {
            runner: ChildRunner::new(runtime, folder, None, AtEnd::FolderGoes),
            completed: 0,
            failed: 0,
        }
    }

    /// From now on the top of the scratch folder has a link to each of these places, under the last name of
    /// the place. There is none if the tree has that name, or if nothing is at the place. What a link leads
    /// to is no file of the tree: it isn't followed, read back or removed, whatever a child puts in its
    /// place. The places are full paths, or lead there from the scratch folder, and their last names are
    /// different.
    pub fn link(&mut self, places: Vec<String>)
        ensures calls { ⟦<ProcessChildren<R> as Children>⟧.call_count self.new
            ≡ ⟦<ProcessChildren<R> as Children>⟧.call_count self.old }
        ensures faults { ⟦<ProcessChildren<R> as Children>⟧.fault_count self.new
            ≡ ⟦<ProcessChildren<R> as Children>⟧.fault_count self.old }
    {
        self.runner.link(places);
    }

    /// From now on a child that has seen the file of this path, which represents Git's state, finds the
    /// variable `HOOKHOST_SEES_GIT_STATE` set to 1. Any other child doesn't find it.
    pub fn tell_state(&mut self, path: RepoPath)
        ensures calls { ⟦<ProcessChildren<R> as Children>⟧.call_count self.new
            ≡ ⟦<ProcessChildren<R> as Children>⟧.call_count self.old }
        ensures faults { ⟦<ProcessChildren<R> as Children>⟧.fault_count self.new
            ≡ ⟦<ProcessChildren<R> as Children>⟧.fault_count self.old }
    {
        self.runner.tell_state(path);
    }

    /// From now on all files of each child are read: none counts as unchanged by its times. For trials of
    /// that.
    pub fn read_everything(&mut self)
        ensures calls { ⟦<ProcessChildren<R> as Children>⟧.call_count self.new
            ≡ ⟦<ProcessChildren<R> as Children>⟧.call_count self.old }
        ensures faults { ⟦<ProcessChildren<R> as Children>⟧.fault_count self.new
            ≡ ⟦<ProcessChildren<R> as Children>⟧.fault_count self.old }
    {
        self.runner.read_everything();
    }

    /// From now on at most so many children run at once, if the run says ahead of their turns what it asks
    /// next. With 0 or 1, as at first, each runs in its turn.
    ///
    /// What children answer ahead of their turns is kept. [`run`](Children::run) gives it in place of starting
    /// the child again, if its words, seen files and tree are the same. Each of the children has a folder of its
    /// own, next to that of the turns. Those of a tree of over 400 files first share one; once one of them changed
    /// anything there, for however short a time, they run again apart, since another may have found it. Nothing
    /// is kept of a child that gave no answer, or that names its own folder. These run in their turns.
    ///
    /// If calls are watched ([`watching`](ProcessChildren::watching)), each runs in its turn, unless
    /// [`run_apart`](ProcessChildren::run_apart) says where they run ahead of it.
    pub fn run_at_once(&mut self, most: usize)
        ensures calls { ⟦<ProcessChildren<R> as Children>⟧.call_count self.new
            ≡ ⟦<ProcessChildren<R> as Children>⟧.call_count self.old }
        ensures faults { ⟦<ProcessChildren<R> as Children>⟧.fault_count self.new
            ≡ ⟦<ProcessChildren<R> as Children>⟧.fault_count self.old }
    {
        self.runner.set_at_once(most);
    }

    /// From now on children ahead of their turns run in further folders next to this one, and the folder of the
    /// turns is for the child of the turn alone. A program that works there alone records next to a further folder
    /// that a child has called it: in a file with the name of the folder and `.calls`. What that child answered
    /// isn't kept, nor what names the parent of its folder: it runs again in its turn.
    pub fn run_apart(&mut self, folder: String)
        ensures calls { ⟦<ProcessChildren<R> as Children>⟧.call_count self.new
            ≡ ⟦<ProcessChildren<R> as Children>⟧.call_count self.old }
        ensures faults { ⟦<ProcessChildren<R> as Children>⟧.fault_count self.new
            ≡ ⟦<ProcessChildren<R> as Children>⟧.fault_count self.old }
    {
        self.runner.run_apart(folder);
    }

    /// What kept the files of a child from being laid or read back, the first time that this was a fault.
    pub fn trouble(&self) -> Option<&Obstacle> {
        self.runner.troubles().of_files()
    }

    /// The first word that could not be started, as the place of the trouble, with the system's error.
    pub fn unstarted(&self) -> Option<&Obstacle> {
        self.runner.troubles().of_a_start()
    }
}

impl<R: Files<File = File> + AllocGlobal + Drop> Drop for ProcessChildren<R> {
    fn drop(self) {
        let ProcessChildren {
            runner,
            completed: _,
            failed: _,
        } = self;
        runner.leave();
    }
}

impl<R: Files<File = File> + Processes<Started = SystemProcess> + AllocGlobal + Drop> Children
    for ProcessChildren<R> {
    ghost use Rattle.process_children.specs.Anything.{TellsAnything};

    ghost tells = { λ children. TellsAnything };

    ghost call_count = { λ children. children.completed + children.failed };

    ghost fault_count = { λ children. children.failed };

    ghost use Rattle.std.proofs.Common.{arith};

    ghost faults_at_most_calls = { λ children. omega arith };

    fn run(&mut self, words: &[Text], tree: &Tree, seen: &Tree) -> Result<Outcome, OutOfMemory> {
        match self.runner.answer(words, tree, seen) {
            Ok(answer) => {
                self.completed += 1;
                Ok(Outcome::Done(answer))
            }
            Err(ChildStop::Fault(fault)) => {
                self.failed += 1;
                Ok(Outcome::Failed(fault))
            }
            Err(ChildStop::OutOfMemory) => Err(OutOfMemory),
        }
    }

    fn calls(&self) -> u64 {
        self.completed + self.failed
    }

    fn faults(&self) -> u64 {
        self.failed
    }

    fn at_once(&self) -> usize {
        self.runner.at_once()
    }

    fn start_ahead(&mut self, asks: Vec<ChildAsk>, tree: &Tree) {
        self.runner.start_ahead(asks, tree);
    }
}
