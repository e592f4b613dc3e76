//! The line that answers a command: `ok` and what the call gave, or `refused` with the refusal's number, its
//! name and its text. Tabs separate the fields.

use crate::stop::Stop;
use crate::text::write_text;
use commit_flow::HostRefusal;
use hook_base::{Change, Mode, RepoPath, Tree};
use repo_store::{LogEntry, StoreFault};
use std::alloc::Global;
use std::fmt::Display;

/// The answer to a line. There is one for the whole play, so that no call owns it. If there is no memory for
/// a field, that is noted, and only `end` asks for it: each such question costs the checker more than a
/// field.
#[derive(Drop)]
pub(crate) struct Answer {
    alloc: Global,
    line: Vec<u8>,
    is_refused: bool,
}

impl Answer {
    pub(crate) fn new(alloc: Global) -> Answer {
        Answer {
            alloc,
            line: Vec::new(alloc),
            is_refused: false,
        }
    }

    pub(crate) fn alloc(&self) -> Global {
        self.alloc
    }

    /// Begins an answer with its first field.
    pub(crate) fn begin(&mut self, word: &str) {
        self.line.clear();
        self.push(word.as_bytes());
    }

    fn push(&mut self, bytes: &[u8]) {
        if self.line.extend_from_slice(bytes).is_err() {
            self.is_refused = true;
        }
    }

    /// The answer to a call without a result.
    pub(crate) fn done(&mut self, given: Result<(), StoreFault>) {
        match given {
            Ok(()) => self.begin("ok"),
            Err(fault) => self.refused(&fault),
        }
    }

    /// The answer to a call that gives a number.
    pub(crate) fn numbered(&mut self, given: Result<u32, StoreFault>) {
        match given {
            Ok(number) => {
                self.begin("ok");
                self.show(number)
            }
            Err(fault) => self.refused(&fault),
        }
    }

    pub(crate) fn refused(&mut self, fault: &StoreFault) {
        self.begin("refused");
        self.add_fault(fault)
    }

    /// Answers the refusal of a host's command: its number, its name, and the number of the inner fault or
    /// `none`.
    pub(crate) fn refused_command(&mut self, refusal: &HostRefusal) {
        self.begin("refused");
        self.show(refusal.number());
        self.add(refusal.name().as_bytes());
        match refusal.inner_number() {
            Some(number) => self.show(number),
            None => self.add(b"none"),
        }
    }

    /// Adds a refusal's number, its name and its text.
    pub(crate) fn add_fault(&mut self, fault: &StoreFault) {
        self.show(fault.number());
        self.add(fault.name().as_bytes());
        self.show(fault)
    }

    /// Adds a field with these bytes.
    pub(crate) fn add(&mut self, bytes: &[u8]) {
        self.push(b"\t");
        if write_text(&mut self.line, bytes).is_err() {
            self.is_refused = true;
        }
    }

    /// Adds a field for each of these.
    pub(crate) fn add_all(&mut self, fields: &[&[u8]]) {
        for field in fields {
            self.add(field);
        }
    }

    /// Adds a field with what a value shows.
    pub(crate) fn show(&mut self, value: impl Display + Drop) {
        match value.to_string(self.alloc) {
            Ok(text) => self.add(text.as_bytes()),
            Err(_) => self.is_refused = true,
        }
    }

    /// Adds the mode, the path and the contents of each file.
    pub(crate) fn add_tree(&mut self, tree: &Tree) {
        for at in 0..tree.len() {
            let file = tree.entry(at);
            self.add_file(file.entry.mode, &file.path, file.entry.bytes.as_slice());
        }
    }

    /// Adds the mode, the path and the contents of a file.
    pub(crate) fn add_file(&mut self, mode: Mode, path: &RepoPath, bytes: &[u8]) {
        self.add(word_of(mode).as_bytes());
        self.add(path.as_str().as_bytes());
        self.add(bytes);
    }

    /// Adds the path of each fix, and its contents after `now`, or `gone`.
    pub(crate) fn add_fixes(&mut self, fixes: &[Change]) {
        for fix in fixes {
            self.add(fix.path.as_str().as_bytes());
            match &fix.now {
                None => self.add(b"gone"),
                Some(bytes) => self.add_all(&[b"now", bytes.as_slice()]),
            }
        }
    }

    /// Adds the number and the message of each commit.
    pub(crate) fn add_log(&mut self, log: &[LogEntry]) {
        for entry in log {
            self.show(entry.number);
            self.add(entry.message.as_slice());
        }
    }

    /// Adds bytes in hexadecimal.
    pub(crate) fn add_hex(&mut self, bytes: &[u8]) {
        self.push(b"\t");
        for byte in bytes {
            self.push_hex(*byte);
        }
    }

    fn push_hex(&mut self, byte: u8) {
        match format!(in self.alloc; "{byte:02x}") {
            Ok(digits) => self.push(digits.as_bytes()),
            Err(_) => self.is_refused = true,
        }
    }

    /// The line, with its end. `OutOfMemory` if there was no memory for a field, or is none for the end.
    pub(crate) fn end(&mut self) -> Result<&[u8], Stop> {
        self.push(b"\n");
        if self.is_refused {
            return Err(Stop::OutOfMemory);
        }
        Ok(self.line.as_slice())
    }
}

/// The word for a mode.
pub(crate) fn word_of(mode: Mode) -> &'static str {
    match mode {
        Mode::Plain => "plain",
        Mode::Executable => "executable",
    }
}
