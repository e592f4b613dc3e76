//! A play on two trees and on changes that wait. Each argument is a step. What the steps show is separated
//! by semicolons.

use crate::steps::{entry_of, parted, read_change, with_changes, with_entry, with_tree};
use hook_base::{Change, Changes, RepoPath, Tree};
use std::alloc::Global;
use std::mem;
use trial_rows::{AnswerBytes, Stop, number_of, text_of};

/// The output of the steps.
pub(crate) fn answer(alloc: Global, words: &[Vec<u8>]) -> Result<AnswerBytes, Stop> {
    let mut trees = Trees {
        alloc,
        one: Tree::new(alloc),
        other: Tree::new(alloc),
        waiting: Vec::new(alloc),
    };
    let mut answer = AnswerBytes::new(alloc);
    for word in words {
        answer = trees.play(answer, text_of(word.as_slice())?)?;
    }
    Ok(answer)
}

#[derive(Drop)]
struct Trees {
    alloc: Global,
    one: Tree,
    other: Tree,
    waiting: Vec<Change>,
}

impl Trees {
    fn play(&mut self, answer: AnswerBytes, step: &str) -> Result<AnswerBytes, Stop> {
        let (word, rest) = parted(step);
        match word {
            "put" | "copy" | "take-from" | "share" | "change" | "apply" | "absorb" => {
                self.change(word, rest)?;
                Ok(answer)
            }
            _ => Ok(self.show(answer, word, rest)?.text(";")),
        }
    }

    /// Plays a step that shows nothing.
    fn change(&mut self, word: &str, rest: &str) -> Result<(), Stop> {
        match word {
            "put" => self.put(rest),
            "copy" => self.copy(),
            "take-from" => self.take_from(rest),
            "share" => self.share(rest),
            "change" => self.wait_for(rest),
            "apply" => Ok(self.one.apply(self.waiting.as_slice())?),
            _ => self.absorb(),
        }
    }

    fn copy(&mut self) -> Result<(), Stop> {
        self.other = self.one.copy()?;
        Ok(())
    }

    /// The first tree takes what the other has at a path.
    fn take_from(&mut self, path: &str) -> Result<(), Stop> {
        let path = RepoPath::read(self.alloc, path)?;
        Ok(self.one.put_from(&self.other, &path)?)
    }

    /// The first tree takes the file that the other has at an index.
    fn share(&mut self, index: &str) -> Result<(), Stop> {
        let index = number_of(index.as_bytes())? as usize;
        if index >= self.other.len() {
            return Err(Stop::BadLine);
        }
        let file = self.other.shared(index).clone()?;
        Ok(self.one.put_shared(file)?)
    }

    fn absorb(&mut self) -> Result<(), Stop> {
        let waiting = self.take();
        Ok(self.one.absorb(waiting)?)
    }

    fn wait_for(&mut self, rest: &str) -> Result<(), Stop> {
        let change = read_change(self.alloc, rest)?;
        Ok(self.waiting.push(change)?)
    }

    fn take(&mut self) -> Vec<Change> {
        mem::replace(&mut self.waiting, Vec::new(self.alloc))
    }

    /// The words are a tree, a mode, a path and the bytes.
    fn put(&mut self, rest: &str) -> Result<(), Stop> {
        let (name, rest) = parted(rest);
        let (mode, rest) = parted(rest);
        let (path, bytes) = parted(rest);
        let entry = entry_of(self.alloc, mode, bytes)?;
        let path = RepoPath::read(self.alloc, path)?;
        match name {
            "one" => Ok(self.one.put(path, entry)?),
            _ => Ok(self.other.put(path, entry)?),
        }
    }

    /// Plays a step that shows something.
    fn show(&mut self, answer: AnswerBytes, word: &str, rest: &str) -> Result<AnswerBytes, Stop> {
        match word {
            "files" => Ok(with_tree(answer, self.tree(rest))),
            "count" => Ok(with_count(answer, self.tree(rest))),
            "get" => self.get(answer, rest),
            "remove" => self.remove(answer, rest),
            "same" => Ok(with_sameness(answer, &self.one, &self.other)),
            "changes" => with_difference(answer, &self.one, &self.other),
            "take" => Ok(with_taken(answer, self.take())),
            _ => Err(Stop::BadLine),
        }
    }

    fn tree(&self, name: &str) -> &Tree {
        if name == "one" {
            &self.one
        } else {
            &self.other
        }
    }

    /// Shows the file at a path of the first tree.
    fn get(&self, answer: AnswerBytes, path: &str) -> Result<AnswerBytes, Stop> {
        match self.one.get(&RepoPath::read(self.alloc, path)?) {
            Some(entry) => Ok(with_entry(answer, entry)),
            None => Ok(answer.text("none")),
        }
    }

    /// Removes a path of the first tree, and shows whether it was there.
    fn remove(&mut self, answer: AnswerBytes, path: &str) -> Result<AnswerBytes, Stop> {
        let path = RepoPath::read(self.alloc, path)?;
        Ok(answer.shown(self.one.remove(&path)))
    }
}

fn with_count(answer: AnswerBytes, tree: &Tree) -> AnswerBytes {
    answer.shown(tree.len()).text(" ").shown(tree.is_empty())
}

fn with_sameness(answer: AnswerBytes, one: &Tree, other: &Tree) -> AnswerBytes {
    answer.shown(one == other).text(" ").shown(one != other)
}

/// Shows the changes from one tree to the other, and whether a copy of them is the same.
fn with_difference(answer: AnswerBytes, one: &Tree, other: &Tree) -> Result<AnswerBytes, Stop> {
    let changes = one.changes_to(other)?;
    let is_same = changes.clone()? == changes;
    let answer = answer.shown(changes.len()).text(" ").shown(is_same);
    Ok(with_changes(answer, changes.as_slice()))
}

/// Shows whether the changes are taken, or how many are given back.
fn with_taken(answer: AnswerBytes, waiting: Vec<Change>) -> AnswerBytes {
    match Changes::from_rising(waiting) {
        Ok(changes) => with_changes(answer.text("taken"), changes.as_slice()),
        Err(back) => with_changes(answer.text("given back"), back.as_slice()),
    }
}
