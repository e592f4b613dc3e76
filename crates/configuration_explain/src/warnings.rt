//! What is taken, and may be a mistake.

use crate::edits::nearest;
use crate::escaped_texts::{push_number, push_quoted};
use crate::git_calls::{calls_git, names_git_state, push_git_reads};
use crate::hook_names::push_hook;
use crate::known_words::{is_among, tag_words};
use crate::sentence::push_meant;
use crate::tool_settings::left_out;
use hook_base::Text;
use hook_config::{ConfigWithNode, Hook, MOST_NAMES, TagNames};
use std::alloc::{AllocError, Global};

/// Puts a line for each tag that no file has, each id that an earlier hook has, each number of names that has
/// no effect, and each known tool whose settings the hook's own `x_reads` leaves out. So it does for each
/// command that calls Git, if its `x_reads` doesn't name Git's state. `AllocError` if memory is refused.
pub(crate) fn push_warnings(
    alloc: Global,
    text: &mut String,
    read: &ConfigWithNode,
    paths: &[Text],
) -> Result<(), AllocError> {
    let mut warnings = Warnings {
        alloc,
        text: String::new(alloc),
    };
    let hooks = read.config.hooks.as_slice();
    for (i, hook) in hooks.iter().enumerate() {
        let number = i.saturating_add(1);
        warnings.take_tags(number, hook)?;
        warnings.take_id(number, hook, hooks)?;
        warnings.take_name_count(number, hook)?;
        warnings.take_reads(number, hook, left_out(alloc, read, number, hook, paths)?)?;
        warnings.take_git(number, hook)?;
    }
    if !warnings.text.is_empty() {
        text.push_str("warnings:\n")?;
    }
    text.push_str(warnings.text.as_str())
}

const NOT_CACHED: &str =
    "its command calls Git, so in the hook of Git nothing is cached, unless x_reads names Git's state: ";

// The lines so far.
#[derive(Drop)]
struct Warnings {
    alloc: Global,
    text: String,
}

impl Warnings {
    fn begin(&mut self, number: usize, hook: &Hook) -> Result<(), AllocError> {
        self.text.push_str("  ")?;
        push_hook(self.alloc, &mut self.text, number, hook.id.as_str())?;
        self.text.push_str(": ")
    }

    fn take_tags(&mut self, number: usize, hook: &Hook) -> Result<(), AllocError> {
        self.take_list(number, hook, &hook.types)?;
        self.take_list(number, hook, &hook.types_or)?;
        self.take_list(number, hook, &hook.exclude_types)
    }

    fn take_list(&mut self, number: usize, hook: &Hook, tags: &TagNames) -> Result<(), AllocError> {
        for tag in tags.as_slice() {
            if !is_among(tag_words(), tag.as_str()) {
                self.take_tag(number, hook, tag.as_str())?;
            }
        }
        Ok(())
    }

    fn take_tag(&mut self, number: usize, hook: &Hook, tag: &str) -> Result<(), AllocError> {
        self.begin(number, hook)?;
        self.text.push_str("no file has the tag ")?;
        push_quoted(&mut self.text, tag)?;
        if let Some(word) = nearest(self.alloc, tag, tag_words())? {
            push_meant(&mut self.text, word)?;
        }
        self.text.push('\n')
    }

    fn take_id(&mut self, number: usize, hook: &Hook, hooks: &[Hook]) -> Result<(), AllocError> {
        match first_of_id(hooks, hook.id.as_str()) {
            Some(first) if first < number => {
                self.begin(number, hook)?;
                self.text.push_str("hook ")?;
                push_number(self.alloc, &mut self.text, first)?;
                self.text.push_str(" has the same id\n")
            }
            _ => Ok(()),
        }
    }

    // Which of the two keys counts, if a hook has both.
    fn take_name_count(&mut self, number: usize, hook: &Hook) -> Result<(), AllocError> {
        if !hook.x_per_file || hook.x_at_most == MOST_NAMES {
            return Ok(());
        }
        self.begin(number, hook)?;
        self.text.push_str("its `x_at_most` has no effect, since `x_per_file` is true\n")
    }

    fn take_reads(
        &mut self,
        number: usize,
        hook: &Hook,
        path: Option<&str>,
    ) -> Result<(), AllocError> {
        let Some(path) = path else {
            return Ok(());
        };
        self.begin(number, hook)?;
        self.text.push_str("its `x_reads` leaves ")?;
        push_quoted(&mut self.text, path)?;
        self.text.push_str(" out, which its command may read\n")
    }

    fn take_git(&mut self, number: usize, hook: &Hook) -> Result<(), AllocError> {
        if !calls_git(hook) || names_git_state(self.alloc, hook)? {
            return Ok(());
        }
        self.begin(number, hook)?;
        self.text.push_str(NOT_CACHED)?;
        push_git_reads(&mut self.text, hook.x_reads.as_pattern().as_str())?;
        self.text.push('\n')
    }
}

// The number of the first hook of an id.
fn first_of_id(hooks: &[Hook], id: &str) -> Option<usize> {
    for (i, hook) in hooks.iter().enumerate() {
        if hook.id.as_str() == id {
            return Some(i.saturating_add(1));
        }
    }
    None
}
