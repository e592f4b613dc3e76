//! All that is wrong in a configuration, as far as one fault doesn't hide another.
//!
//! A value of another kind than is wanted hides what would be in it, and a repository that isn't served hides
//! its hooks. A language that isn't known hides what its entry and its arguments have to be.

use crate::finding::{
    Finding, Wanted, is_known, is_of_kind, is_required, repository, wanted_by, with_instead,
};
use crate::known_words::{is_among, keys_of, local_words};
use crate::marks::Owner;
use crate::patterns::{is_refused_command, is_refused_entry, is_refused_pattern};
use crate::tables::{items_at, items_in, text_in};
use hook_config::{KeyKind, MOST_HOOKS};
use std::alloc::{AllocError, Global};
use yaml_profile::Node;

/// How many faults are listed at most.
pub(crate) const MOST_FINDINGS: usize = 100;

/// What is wrong in the configuration of this node, at most `MOST_FINDINGS`. What is at the top comes first,
/// and then, in the order of the text, each repository with its hooks. `AllocError` if memory is refused.
pub(crate) fn findings_in<'n>(
    alloc: Global,
    top: &'n Node,
) -> Result<Vec<Finding<'n>>, AllocError> {
    let mut search = FindingSearch {
        alloc,
        found: Vec::new(alloc),
        hooks: 0,
    };
    search.take_top(Finding::of_table(Owner::Top, 0, top))?;
    Ok(search.found)
}

// What was found so far, and in how many hooks.
#[derive(Drop)]
struct FindingSearch<'n> {
    alloc: Global,
    found: Vec<Finding<'n>>,
    hooks: usize,
}

impl<'n> FindingSearch<'n> {
    fn is_full(&self) -> bool {
        self.found.len() >= MOST_FINDINGS
    }

    fn push(&mut self, finding: Finding<'n>) -> Result<(), AllocError> {
        if self.is_full() {
            return Ok(());
        }
        self.found.push(finding)?;
        Ok(())
    }

    fn take_top(&mut self, top: Finding<'n>) -> Result<(), AllocError> {
        self.take_table(top)?;
        self.take_patterns(top)?;
        self.take_items(top.at_key("default_stages", Wanted::Texts), Wanted::Stage)?;
        for (i, node) in items_at(top.table, "repos").iter().enumerate() {
            self.take_repository(repository(i, node))?;
        }
        Ok(())
    }

    fn take_repository(&mut self, repository: Finding<'n>) -> Result<(), AllocError> {
        let hooks = items_at(repository.table, "hooks");
        let remote = repository.at_key("repo", Wanted::Local);
        if is_other(remote, local_words()) {
            self.hooks = self.hooks.saturating_add(hooks.len());
            return self.push(remote);
        }
        self.take_table(repository)?;
        for node in hooks {
            self.take_hook(repository.repository, node)?;
        }
        Ok(())
    }

    fn take_hook(&mut self, repository: usize, node: &'n Node) -> Result<(), AllocError> {
        self.hooks = self.hooks.saturating_add(1);
        let hook = Finding::of_table(Owner::Hook(self.hooks), repository, node);
        if self.hooks > MOST_HOOKS {
            return self.take_surplus(hook);
        }
        if self.is_full() {
            return Ok(());
        }
        self.take_table(hook)?;
        self.take_patterns(hook)?;
        self.take_words(hook)
    }

    // Only the first hook that is one too many is listed.
    fn take_surplus(&mut self, hook: Finding<'n>) -> Result<(), AllocError> {
        if self.hooks.saturating_sub(1) == MOST_HOOKS {
            return self.push(hook.surplus());
        }
        Ok(())
    }

    // What is missing in a table, or is of another kind than its key wants.
    fn take_table(&mut self, table: Finding<'n>) -> Result<(), AllocError> {
        if !matches!(table.table, Node::Table(_)) {
            return self.push(table);
        }
        for (key, kind) in keys_of(table.owner) {
            if let Some(wanted) = wanted_by(*kind) {
                self.take_key(table.at_key(*key, wanted), is_required(*kind))?;
            }
        }
        Ok(())
    }

    fn take_key(&mut self, at: Finding<'n>, is_required: bool) -> Result<(), AllocError> {
        match at.value {
            None if is_required => self.take_missing(at),
            None => Ok(()),
            Some(value) if !is_of_kind(value, at.wanted) => self.push(at),
            Some(_) if at.wanted == Wanted::Texts => self.take_items(at, Wanted::Text),
            Some(_) => Ok(()),
        }
    }

    fn take_missing(&mut self, at: Finding<'n>) -> Result<(), AllocError> {
        let missing = with_instead(self.alloc, at.at_key(at.key, Wanted::Key))?;
        self.push(missing)
    }

    // The items of a list that aren't texts, or are other texts than are wanted.
    fn take_items(&mut self, list: Finding<'n>, wanted: Wanted) -> Result<(), AllocError> {
        let Some(value) = list.value else {
            return Ok(());
        };
        for (i, item) in items_in(value).iter().enumerate() {
            if is_wrong(item, wanted) {
                self.push(list.at_item(i.saturating_add(1), item, wanted))?;
            }
        }
        Ok(())
    }

    // The patterns of a table that `regex` doesn't take.
    fn take_patterns(&mut self, table: Finding<'n>) -> Result<(), AllocError> {
        for (key, kind) in keys_of(table.owner) {
            if *kind == KeyKind::Pattern {
                self.take_pattern(table.at_key(*key, Wanted::Pattern))?;
            }
        }
        Ok(())
    }

    fn take_pattern(&mut self, at: Finding<'n>) -> Result<(), AllocError> {
        if is_refused_pattern(self.alloc, at.text())? {
            return self.push(at);
        }
        Ok(())
    }

    // The words of a hook that aren't known, and what isn't served.
    fn take_words(&mut self, hook: Finding<'n>) -> Result<(), AllocError> {
        self.take_items(hook.at_key("stages", Wanted::Texts), Wanted::Stage)?;
        self.take_language(hook)?;
        self.take_filled(hook.at_key("log_file", Wanted::NoLog))?;
        self.take_filled(hook.at_key("additional_dependencies", Wanted::NothingInstalled))
    }

    // A value that has to be empty.
    fn take_filled(&mut self, at: Finding<'n>) -> Result<(), AllocError> {
        if !at.text().is_empty() || !at.items().is_empty() {
            return self.push(at);
        }
        Ok(())
    }

    fn take_language(&mut self, hook: Finding<'n>) -> Result<(), AllocError> {
        let language = hook.at_key("language", Wanted::Language);
        match language.value.and_then(text_in) {
            None | Some("fail") => Ok(()),
            Some("pygrep") => self.take_search(hook),
            Some("system" | "script") => self.take_command(hook.at_key("entry", Wanted::Command)),
            Some(_) => self.push(language),
        }
    }

    // The entry and the arguments of a `pygrep` hook.
    fn take_search(&mut self, hook: Finding<'n>) -> Result<(), AllocError> {
        self.take_items(hook.at_key("args", Wanted::Texts), Wanted::Argument)?;
        let entry = hook.at_key("entry", Wanted::Pattern);
        if is_refused_entry(self.alloc, entry.text(), items_at(hook.table, "args"))? {
            return self.push(entry);
        }
        Ok(())
    }

    fn take_command(&mut self, entry: Finding<'n>) -> Result<(), AllocError> {
        if let Some(text) = entry.value.and_then(text_in) {
            if is_refused_command(self.alloc, text)? {
                return self.push(entry);
            }
        }
        Ok(())
    }
}

// Whether it is a text, and none of these words.
fn is_other(at: Finding<'_>, words: &[&str]) -> bool {
    match at.value.and_then(text_in) {
        Some(text) => !is_among(words, text),
        None => false,
    }
}

fn is_wrong(item: &Node, wanted: Wanted) -> bool {
    match text_in(item) {
        Some(_) => !is_known(item, wanted),
        None => wanted == Wanted::Text,
    }
}
