//! The places of the keys of a configuration's tables.
//!
//! The content lines are those of `yaml_lines`, without comments and block texts. An item is at its dash's
//! column and a key at its own, so the columns show which table a key belongs to (YAML 1.2.2, sections 8.2.1
//! and 8.2.2). The reader has seen before that all keys of a table are at one column. Within a flow nothing
//! is marked.

ghost use Rattle.std.specs.Prelude.{◌≤◌, length};
ghost use Rattle.yaml_lines.specs.Characters.{most_bytes};

use crate::line_parts::{behind_dash, closes_flow, column_behind};
use std::alloc::{AllocError, Global};
use yaml_lines::{
    Entry, Line, MOST_NODES, RawLine, YamlKind, begins_flow, characters, is_item, raw_lines,
    read_entry, read_lines,
};

/// One of the tables of a configuration. Repositories are counted from 1, and so are the hooks over all
/// repositories.
#[derive(Clone, Copy, Debug, PartialEq, Eq)]
pub(crate) enum Owner {
    Top,
    Repository(usize),
    Hook(usize),
}

/// What is at a mark.
#[derive(Debug, Drop)]
pub(crate) enum Word {
    /// The dash of a repository or a hook.
    Begin,
    /// A key of the table.
    Key(String),
    /// The dash of another item.
    Item,
}

/// A word of a table, and its place.
#[derive(Debug, Drop)]
pub(crate) struct Mark {
    pub(crate) owner: Owner,
    pub(crate) word: Word,
    /// The line, from 1.
    pub(crate) line: usize,
    /// How many characters are before the word.
    pub(crate) column: usize,
    /// How many are before its value if that is on the same line, otherwise before the word.
    pub(crate) value: usize,
}

impl Mark {
    /// Whether the mark is the dash of this repository or hook.
    pub(crate) fn is_begin(&self, owner: Owner) -> bool {
        self.owner == owner && matches!(self.word, Word::Begin)
    }

    /// The key, if the mark is one.
    pub(crate) fn key(&self) -> Option<&str> {
        match &self.word {
            Word::Key(key) => Some(key.as_str()),
            _ => None,
        }
    }

    /// Whether the mark is this key of this table.
    pub(crate) fn is_key(&self, owner: Owner, key: &str) -> bool {
        match &self.word {
            Word::Key(own) => self.owner == owner && own.as_str() == key,
            _ => false,
        }
    }
}

/// The marks of the text of these bytes, up to its first fault. `AllocError` if memory is refused.
pub(crate) fn marks_in(alloc: Global, bytes: &[u8]) -> Result<Vec<Mark>, AllocError> {
    match characters(alloc, bytes) {
        Ok(text) => marks_of_text(alloc, text.as_slice()),
        Err(fault) if fault.kind == YamlKind::OutOfMemory => Err(AllocError),
        Err(_) => Ok(Vec::new(alloc)),
    }
}

fn marks_of_text(alloc: Global, text: &[char]) -> Result<Vec<Mark>, AllocError>
    requires { length text.now ≤ most_bytes }
{
    let raws = raw_lines(alloc, text)?;
    marks_of(alloc, raws.as_slice())
}

/// The marks of all lines, in the order of the text. `AllocError` if memory is refused.
pub(crate) fn marks_of(alloc: Global, raws: &[RawLine<'_>]) -> Result<Vec<Mark>, AllocError> {
    let read = read_lines(alloc, raws)?;
    marks_of_lines(alloc, read.lines.as_slice())
}

fn marks_of_lines(alloc: Global, lines: &[Line<'_, '_>]) -> Result<Vec<Mark>, AllocError> {
    let mut walk = Walk::new(alloc);
    let mut flow = None;
    for line in lines {
        if !is_within(flow, line) {
            flow = walk.take_line(alloc, line)?;
        }
    }
    Ok(walk.marks)
}

// Whether the line belongs to the flow that begins on an earlier line whose content is at this column.
fn is_within(flow: Option<usize>, line: &Line<'_, '_>) -> bool {
    match flow {
        Some(column) => {
            line.indent() > column || (line.indent() == column && closes_flow(line.content()))
        }
        None => false,
    }
}

// The columns of the tables that are open, as far as they are known, and the marks so far.
#[derive(Drop)]
struct Walk {
    top_keys: Option<usize>,
    in_repositories: bool,
    repository_dashes: Option<usize>,
    repository_keys: Option<usize>,
    in_hooks: bool,
    hook_dashes: Option<usize>,
    hook_keys: Option<usize>,
    repositories: usize,
    hooks: usize,
    owner: Owner,
    marks: Vec<Mark>,
}

// Whether the column is the known one, or none is known.
fn fits(known: Option<usize>, column: usize) -> bool {
    match known {
        Some(known) => known == column,
        None => true,
    }
}

impl Walk {
    fn new(alloc: Global) -> Self {
        Walk {
            top_keys: None,
            in_repositories: false,
            repository_dashes: None,
            repository_keys: None,
            in_hooks: false,
            hook_dashes: None,
            hook_keys: None,
            repositories: 0,
            hooks: 0,
            owner: Owner::Top,
            marks: Vec::new(alloc),
        }
    }

    // Marks what the line begins. If a flow begins in it, the answer is the column that the flow's lines are
    // deeper than.
    fn take_line(
        &mut self,
        alloc: Global,
        line: &Line<'_, '_>,
    ) -> Result<Option<usize>, AllocError> {
        let mut content = line.content();
        let mut column = line.indent();
        for _ in 0..MOST_NODES {
            if !is_item(content) {
                break;
            }
            let behind = behind_dash(content);
            let value = column_behind(column, content, behind);
            self.take_dash(line.number(), column, value)?;
            content = behind;
            column = value;
        }
        self.take_content(alloc, line.number(), column, content)
    }

    fn take_content(
        &mut self,
        alloc: Global,
        line: usize,
        column: usize,
        content: &[char],
    ) -> Result<Option<usize>, AllocError> {
        if begins_flow(content) {
            return Ok(Some(column));
        }
        match read_entry(alloc, content)? {
            Some(entry) => self.take_entry(line, column, content, entry),
            None => Ok(None),
        }
    }

    fn take_entry(
        &mut self,
        line: usize,
        column: usize,
        content: &[char],
        entry: Entry<'_>,
    ) -> Result<Option<usize>, AllocError> {
        let behind = entry.value();
        let value = if behind.is_empty() {
            column
        } else {
            column_behind(column, content, behind)
        };
        let flow = if begins_flow(behind) {
            Some(column)
        } else {
            None
        };
        self.take_key(line, column, value, entry.into_key())?;
        Ok(flow)
    }

    fn push(
        &mut self,
        word: Word,
        line: usize,
        column: usize,
        value: usize,
    ) -> Result<(), AllocError> {
        self.marks.push(Mark {
            owner: self.owner,
            word,
            line,
            column,
            value,
        })?;
        Ok(())
    }

    fn take_dash(&mut self, line: usize, column: usize, value: usize) -> Result<(), AllocError> {
        let word = self.word_of_dash(column);
        self.push(word, line, column, value)
    }

    // What a dash at this column begins.
    fn word_of_dash(&mut self, column: usize) -> Word {
        if self.in_repositories && fits(self.repository_dashes, column) {
            self.begin_repository(column);
            Word::Begin
        } else if self.in_hooks && fits(self.hook_dashes, column) {
            self.begin_hook(column);
            Word::Begin
        } else {
            Word::Item
        }
    }

    fn begin_repository(&mut self, column: usize) {
        self.repository_dashes = Some(column);
        self.repository_keys = None;
        self.in_hooks = false;
        self.repositories = self.repositories.saturating_add(1);
        self.owner = Owner::Repository(self.repositories);
    }

    fn begin_hook(&mut self, column: usize) {
        self.hook_dashes = Some(column);
        self.hook_keys = None;
        self.hooks = self.hooks.saturating_add(1);
        self.owner = Owner::Hook(self.hooks);
    }

    fn take_key(
        &mut self,
        line: usize,
        column: usize,
        value: usize,
        key: String,
    ) -> Result<(), AllocError> {
        if self.is_of_a_table(column, key.as_str()) {
            self.push(Word::Key(key), line, column, value)?;
        }
        Ok(())
    }

    // Whether a key at this column is one of a table of the configuration. That table is then the owner.
    fn is_of_a_table(&mut self, column: usize, key: &str) -> bool {
        if fits(self.top_keys, column) {
            self.begin_top_key(column, key);
            true
        } else if self.in_repositories && fits(self.repository_keys, column) {
            self.begin_repository_key(column, key);
            true
        } else if self.in_hooks && fits(self.hook_keys, column) {
            self.hook_keys = Some(column);
            true
        } else {
            false
        }
    }

    fn begin_top_key(&mut self, column: usize, key: &str) {
        self.top_keys = Some(column);
        self.in_repositories = key == "repos";
        self.repository_dashes = None;
        self.in_hooks = false;
        self.owner = Owner::Top;
    }

    fn begin_repository_key(&mut self, column: usize, key: &str) {
        self.repository_keys = Some(column);
        self.in_hooks = key == "hooks";
        self.hook_dashes = None;
        self.owner = Owner::Repository(self.repositories);
    }
}
