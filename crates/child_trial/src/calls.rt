//! The calls of the program.

use crate::outcomes::{measured_text, outcome_text};
use crate::runs::{ask_of, run_text};
use child_port::{ChildAsk, Children, Outcome};
use hook_base::{Bytes, Content, FileEntry, Items, Mode, OutOfMemory, RepoPath, Text, Tree};
use hook_config::{Config, read_config};
use hook_run::run_hooks;
use process_children::{Obstacle, ProcessChildren};
use result_book::{Book, ListBook};
use std::alloc::Global;
use store_faults::FIRST_LIMIT;
use trial_rows::{Row, Stop, number_of, only, text_of};

/// A tree, the children that run on it, and the results of these that runs of hooks cached.
#[derive(Drop)]
pub(crate) struct Play {
    alloc: Global,
    tree: Tree,
    children: ProcessChildren<HostRuntime>,
    book: ListBook,
}

impl Play {
    /// A play without files.
    pub(crate) fn new(alloc: Global, children: ProcessChildren<HostRuntime>) -> Play {
        Play {
            alloc,
            tree: Tree::new(alloc),
            children,
            book: ListBook::new(alloc, FIRST_LIMIT),
        }
    }

    /// Does what a row says, and answers it.
    pub(crate) fn answer_of(&mut self, row: &Row) -> Result<Vec<u8>, Stop> {
        let arguments = row.arguments.as_slice();
        match row.call.as_str() {
            "file" => self.file(arguments, Mode::Plain),
            "program" => self.file(arguments, Mode::Executable),
            "letters" => self.letters(arguments),
            "remove" => self.remove(arguments),
            "run" => self.run(arguments),
            "ahead" => self.ahead(arguments),
            "measure" => self.measure(arguments),
            "hooks" => self.hooks(arguments),
            "counts" => self.counts(),
            "trouble" => self.told(self.children.trouble()),
            "unstarted" => self.told(self.children.unstarted()),
            _ => Err(Stop::NoCall),
        }
    }

    // Puts a file with these bytes.
    fn file(&mut self, arguments: &[Vec<u8>], mode: Mode) -> Result<Vec<u8>, Stop> {
        let [path, bytes] = arguments else {
            return Err(Stop::BadLine);
        };
        let bytes = Content::copy_of(self.alloc, bytes.as_slice())?;
        self.put(path.as_slice(), mode, bytes)
    }

    // Puts a file with this number of letters `x`.
    fn letters(&mut self, arguments: &[Vec<u8>]) -> Result<Vec<u8>, Stop> {
        let [path, count] = arguments else {
            return Err(Stop::BadLine);
        };
        let count = number_of(count.as_slice())? as usize;
        let letters = vec![in self.alloc; b'x'; count]?;
        let bytes = Content::new(self.alloc, Bytes::from(letters))?;
        self.put(path.as_slice(), Mode::Plain, bytes)
    }

    fn put(&mut self, path: &[u8], mode: Mode, bytes: Content) -> Result<Vec<u8>, Stop> {
        let path = self.path_of(path)?;
        self.tree.put(path, FileEntry { mode, bytes })?;
        Ok(Vec::new(self.alloc))
    }

    fn remove(&mut self, arguments: &[Vec<u8>]) -> Result<Vec<u8>, Stop> {
        let path = self.path_of(only(arguments)?)?;
        let _found = self.tree.remove(&path);
        Ok(Vec::new(self.alloc))
    }

    // `RepoPath::read` refuses the path of a commit's message, so that is compared here.
    fn path_of(&self, path: &[u8]) -> Result<RepoPath, Stop> {
        let message = RepoPath::message(self.alloc)?;
        if path == message.as_str().as_bytes() {
            return Ok(message);
        }
        Ok(RepoPath::read(self.alloc, text_of(path)?)?)
    }

    // Runs a child with these words.
    fn run(&mut self, arguments: &[Vec<u8>]) -> Result<Vec<u8>, Stop> {
        let outcome = self.outcome_of(arguments)?;
        let (calls, faults) = (self.children.calls(), self.children.faults());
        outcome_text(self.alloc, outcome, calls, faults)
    }

    // Starts children ahead of their turns, on the tree as it is: `MOST COMMAND..`, where at most MOST run at
    // once, and a COMMAND is a line for a shell.
    fn ahead(&mut self, arguments: &[Vec<u8>]) -> Result<Vec<u8>, Stop> {
        let Some((most, commands)) = arguments.split_first() else {
            return Err(Stop::BadLine);
        };
        let most = number_of(most.as_slice())? as usize;
        let asks = self.asks_of(commands)?;
        self.children.run_at_once(most);
        self.children.start_ahead(asks, &self.tree);
        Ok(Vec::new(self.alloc))
    }

    // What children are asked whose commands are lines for a shell. They see no file.
    fn asks_of(&self, lines: &[Vec<u8>]) -> Result<Vec<ChildAsk>, Stop> {
        let mut asks = Vec::new(self.alloc);
        for line in lines {
            let mut words = Vec::new(self.alloc);
            for word in ["sh", "-c", text_of(line.as_slice())?] {
                words.push(Text::copy_of(self.alloc, word)?)?;
            }
            asks.push(ChildAsk {
                words: Items::from(words),
                seen: Tree::new(self.alloc),
            })?;
        }
        Ok(asks)
    }

    // Runs a child with these words, and answers only the numbers of its result, for a script that measures.
    fn measure(&mut self, arguments: &[Vec<u8>]) -> Result<Vec<u8>, Stop> {
        measured_text(self.alloc, self.outcome_of(arguments)?)
    }

    // Runs a configuration's hooks on all files.
    fn hooks(&mut self, arguments: &[Vec<u8>]) -> Result<Vec<u8>, Stop> {
        let [configuration, how] = arguments else {
            return Err(Stop::BadLine);
        };
        match read_config(self.alloc, configuration.as_slice()) {
            Ok(config) => self.run_of(&config, how.as_slice()),
            Err(_) => Err(Stop::BadLine),
        }
    }

    fn run_of(&mut self, config: &Config, how: &[u8]) -> Result<Vec<u8>, Stop> {
        let ask = ask_of(self.alloc, &self.tree, how)?;
        let (children, book) = (&mut self.children, &mut self.book);
        let ran = run_hooks(self.alloc, children, book, config, &ask, &self.tree);
        run_text(self.alloc, &ran)
    }

    // How many outcomes the children have reported, how many of them are faults, and how many results are
    // cached.
    fn counts(&mut self) -> Result<Vec<u8>, Stop> {
        let (calls, faults) = (self.children.calls(), self.children.faults());
        let remembered = self.book.len();
        let text = format!(in self.alloc; "{calls} {faults} {remembered}")?;
        Ok(text.as_str().as_bytes().to_vec(self.alloc)?)
    }

    // What hindered a child, as its place and the error there. Empty if nothing did.
    fn told(&self, trouble: Option<&Obstacle>) -> Result<Vec<u8>, Stop> {
        let Some(trouble) = trouble else {
            return Ok(Vec::new(self.alloc));
        };
        let text = format!(in self.alloc; "{}: {}", trouble.place(), trouble.error())?;
        Ok(text.as_str().as_bytes().to_vec(self.alloc)?)
    }

    fn outcome_of(&mut self, arguments: &[Vec<u8>]) -> Result<Result<Outcome, OutOfMemory>, Stop> {
        let mut words = Vec::new(self.alloc);
        for argument in arguments {
            words.push(Text::copy_of(self.alloc, text_of(argument.as_slice())?)?)?;
        }
        if self.children.calls() == u64::MAX {
            return Err(Stop::OutOfMemory);
        }
        let seen = Tree::new(self.alloc);
        Ok(self.children.run(words.as_slice(), &self.tree, &seen))
    }
}
