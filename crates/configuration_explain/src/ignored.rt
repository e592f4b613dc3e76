//! The keys that no table knows, with their lines.

use crate::edits::nearest_key;
use crate::escaped_texts::{push_number, push_quoted};
use crate::hook_names::{push_hook, push_repository};
use crate::known_words::keys_of;
use crate::marks::{Mark, Owner, Word};
use crate::sentence::push_meant;
use crate::tables::{items_in, rows_in, text_at};
use hook_config::is_key;
use std::alloc::{AllocError, Global};
use yaml_profile::Node;

/// Puts a line for each key that its table doesn't know, in the order of the text. It has the number of the
/// key's line, the key, its table, and the known key that is near, if there is one. For a key within a flow
/// it is the line in which the flow begins. `AllocError` if memory is refused.
pub(crate) fn push_ignored(
    alloc: Global,
    text: &mut String,
    top: &Node,
    marks: &[Mark],
) -> Result<(), AllocError> {
    text.push_str("ignored keys:\n")?;
    let mut listing = Listing {
        text: String::new(alloc),
        rest: marks,
        line: 1,
        hooks: 0,
    };
    listing.take_top(alloc, top)?;
    text.push_str(listing.text.as_str())
}

// The text so far, the marks that no key has yet, the last line that is known, and how many hooks there were.
#[derive(Drop)]
struct Listing<'m> {
    text: String,
    rest: &'m [Mark],
    line: usize,
    hooks: usize,
}

impl<'m> Listing<'m> {
    fn take_top(&mut self, alloc: Global, top: &Node) -> Result<(), AllocError> {
        for (key, value) in rows_in(top) {
            self.take_key(alloc, Owner::Top, "", key.as_str())?;
            if key.as_str() == "repos" {
                self.take_repositories(alloc, items_in(value))?;
            }
        }
        Ok(())
    }

    fn take_repositories(
        &mut self,
        alloc: Global,
        repositories: &[Node],
    ) -> Result<(), AllocError> {
        for (i, repository) in repositories.iter().enumerate() {
            self.take_repository(alloc, i.saturating_add(1), repository)?;
        }
        Ok(())
    }

    fn take_repository(
        &mut self,
        alloc: Global,
        number: usize,
        repository: &Node,
    ) -> Result<(), AllocError> {
        let owner = Owner::Repository(number);
        self.pass_begin(owner);
        for (key, value) in rows_in(repository) {
            self.take_key(alloc, owner, "", key.as_str())?;
            if key.as_str() == "hooks" {
                self.take_hooks(alloc, items_in(value))?;
            }
        }
        Ok(())
    }

    fn take_hooks(&mut self, alloc: Global, hooks: &[Node]) -> Result<(), AllocError> {
        for hook in hooks {
            self.hooks = self.hooks.saturating_add(1);
            self.take_hook(alloc, Owner::Hook(self.hooks), hook)?;
        }
        Ok(())
    }

    fn take_hook(&mut self, alloc: Global, owner: Owner, hook: &Node) -> Result<(), AllocError> {
        self.pass_begin(owner);
        let id = text_at(hook, "id");
        for (key, _) in rows_in(hook) {
            self.take_key(alloc, owner, id, key.as_str())?;
        }
        Ok(())
    }

    // Goes on to the line of the table's dash, if that is the next mark.
    fn pass_begin(&mut self, owner: Owner) {
        self.rest = without_items(self.rest);
        if let [mark, rest @ ..] = self.rest {
            if mark.is_begin(owner) {
                self.line = mark.line;
                self.rest = rest;
            }
        }
    }

    // Goes on to the key's line, if the key is the next mark.
    fn pass_key(&mut self, owner: Owner, key: &str) {
        self.rest = without_items(self.rest);
        if let [mark, rest @ ..] = self.rest {
            if mark.is_key(owner, key) {
                self.line = mark.line;
                self.rest = rest;
            }
        }
    }

    fn take_key(
        &mut self,
        alloc: Global,
        owner: Owner,
        id: &str,
        key: &str,
    ) -> Result<(), AllocError> {
        self.pass_key(owner, key);
        if is_key(keys_of(owner), key) {
            return Ok(());
        }
        self.push_unknown(alloc, owner, id, key)
    }

    fn push_unknown(
        &mut self,
        alloc: Global,
        owner: Owner,
        id: &str,
        key: &str,
    ) -> Result<(), AllocError> {
        self.text.push_str("  line ")?;
        push_number(alloc, &mut self.text, self.line)?;
        self.text.push_str(": ")?;
        push_quoted(&mut self.text, key)?;
        push_owner(alloc, &mut self.text, owner, id)?;
        if let Some(word) = nearest_key(alloc, key, keys_of(owner))? {
            push_meant(&mut self.text, word)?;
        }
        self.text.push('\n')
    }
}

// The marks from the first on that isn't an item.
fn without_items(marks: &[Mark]) -> &[Mark] {
    for (i, mark) in marks.iter().enumerate() {
        if !matches!(mark.word, Word::Item) {
            return &marks[i..];
        }
    }
    &[]
}

fn push_owner(alloc: Global, text: &mut String, owner: Owner, id: &str) -> Result<(), AllocError> {
    match owner {
        Owner::Top => text.push_str(" at the top"),
        Owner::Repository(number) => {
            text.push_str(" of ")?;
            push_repository(alloc, text, number)
        }
        Owner::Hook(number) => {
            text.push_str(" of ")?;
            push_hook(alloc, text, number, id)
        }
    }
}
