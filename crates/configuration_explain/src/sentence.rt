//! The sentence for a finding.

use crate::edits::nearest;
use crate::escaped_texts::{push_all, push_number, push_quoted};
use crate::finding::{Finding, Wanted};
use crate::hook_names::{push_hook, push_repository};
use crate::known_words::{argument_words, language_words, local_words, stage_words, truth_words};
use crate::marks::Owner;
use crate::tables::text_at;
use std::alloc::{AllocError, Global};
use yaml_profile::Node;

/// Puts which hook it is, which key, what is found there and what is wanted, and the known word that is near
/// to it, if there is one. `AllocError` if memory is refused.
pub(crate) fn push_sentence(
    alloc: Global,
    text: &mut String,
    finding: &Finding<'_>,
) -> Result<(), AllocError> {
    push_owner(alloc, text, finding)?;
    match finding.wanted {
        Wanted::Key => push_missing(text, finding),
        Wanted::Fewer => text.push_str("it is one more than the 500 hooks that there may be"),
        _ => push_wrong(alloc, text, finding),
    }
}

fn push_owner(alloc: Global, text: &mut String, finding: &Finding<'_>) -> Result<(), AllocError> {
    match finding.owner {
        Owner::Top => return Ok(()),
        Owner::Repository(number) => push_repository(alloc, text, number)?,
        Owner::Hook(number) => push_hook(alloc, text, number, text_at(finding.table, "id"))?,
    }
    text.push_str(": ")
}

fn push_missing(text: &mut String, finding: &Finding<'_>) -> Result<(), AllocError> {
    push_all(text, &["the key `", finding.key, "` is missing"])?;
    if finding.instead.is_empty() {
        return Ok(());
    }
    text.push_str(" (did you mean it by ")?;
    push_quoted(text, finding.instead)?;
    text.push_str("?)")
}

fn push_wrong(alloc: Global, text: &mut String, finding: &Finding<'_>) -> Result<(), AllocError> {
    push_subject(alloc, text, finding)?;
    text.push_str(" is ")?;
    push_value(text, finding.value)?;
    push_all(text, &[", and has to be ", wanted_text(finding)])?;
    push_near(alloc, text, finding)
}

fn push_subject(alloc: Global, text: &mut String, finding: &Finding<'_>) -> Result<(), AllocError> {
    if finding.key.is_empty() {
        return text.push_str(whole_text(finding.owner));
    }
    if finding.item > 0 {
        text.push_str("item ")?;
        push_number(alloc, text, finding.item)?;
        text.push_str(" of ")?;
    }
    push_quoted(text, finding.key)
}

fn whole_text(owner: Owner) -> &'static str {
    match owner {
        Owner::Top => "the whole text",
        _ => "it",
    }
}

fn push_value(text: &mut String, value: Option<&Node>) -> Result<(), AllocError> {
    match value {
        Some(Node::Text { text: own, quoted }) => {
            push_all(
                text,
                &[if *quoted {
                    "the quoted text "
                } else {
                    "the text "
                }],
            )?;
            push_quoted(text, own.as_str())
        }
        Some(node) => text.push_str(kind_text(node)),
        None => text.push_str("missing"),
    }
}

fn kind_text(node: &Node) -> &'static str {
    match node {
        Node::Text { .. } => "a text",
        Node::List(_) => "a list",
        Node::Table(_) => "a table",
        Node::Empty => "empty",
    }
}

fn wanted_text(finding: &Finding<'_>) -> &'static str {
    match finding.wanted {
        Wanted::Table => table_text(finding.owner),
        Wanted::List => "a list",
        Wanted::Text => "a text",
        Wanted::Texts => "a list of texts",
        Wanted::Truth => "an unquoted `true` or `false`",
        Wanted::NameCount => "an unquoted number from 1 to 100000",
        Wanted::NoLog => "empty: no output is kept in a file",
        Wanted::NothingInstalled => "empty: nothing is installed for a hook",
        _ => word_text(finding.wanted),
    }
}

fn table_text(owner: Owner) -> &'static str {
    match owner {
        Owner::Top => "a table with the key `repos`",
        Owner::Repository(_) => "a table with the keys `repo` and `hooks`",
        Owner::Hook(_) => "a table with the keys `id`, `name`, `language` and `entry`",
    }
}

fn word_text(wanted: Wanted) -> &'static str {
    match wanted {
        Wanted::Stage => {
            "`pre-commit`, `pre-merge-commit`, `pre-push`, `prepare-commit-msg`, `commit-msg`, `post-checkout`, `post-commit`, `post-merge`, `post-rewrite`, `pre-rebase` or `manual`"
        }
        Wanted::Language => "`system`, `script`, `fail` or `pygrep`",
        Wanted::Local => "`local`: write its hooks under `repo: local`",
        Wanted::Pattern => {
            "a pattern of the crate `regex`: do without lookaround and back references, or make it shorter"
        }
        Wanted::Command => {
            "a command of one word at least: close its quotes, and end it with no backslash"
        }
        _ => "`-i`, `--ignore-case`, `--multiline` or `--negate`",
    }
}

fn push_near(alloc: Global, text: &mut String, finding: &Finding<'_>) -> Result<(), AllocError> {
    match nearest(alloc, finding.text(), words_for(finding.wanted))? {
        Some(word) => push_meant(text, word),
        None => Ok(()),
    }
}

/// Puts the question whether this word was meant.
pub(crate) fn push_meant(text: &mut String, word: &str) -> Result<(), AllocError> {
    push_all(text, &[" (did you mean `", word, "`?)"])
}

fn words_for(wanted: Wanted) -> &'static [&'static str] {
    match wanted {
        Wanted::Truth => truth_words(),
        Wanted::Stage => stage_words(),
        Wanted::Language => language_words(),
        Wanted::Local => local_words(),
        Wanted::Argument => argument_words(),
        _ => &[],
    }
}
