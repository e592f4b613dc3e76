//! What a fault of the configuration is about: the value that was refused.
//!
//! A fault has its kind and the hook's number. Everything that is read before it was taken. So it is the
//! first value, in the order in which a configuration is read, that is wrong as the fault's kind says.

use crate::edits::nearest;
use crate::known_words::{argument_words, is_among, keys_of, local_words, truth_words};
use crate::marks::Owner;
use crate::patterns::{is_refused_entry, is_refused_pattern};
use crate::tables::{hook_at, items_at, items_in, rows_in, text_at, text_in, value_at};
use hook_config::{ConfigFault, ConfigKind, KeyKind, Stage, is_key, name_count_of_word};
use std::alloc::{AllocError, Global};
use yaml_profile::Node;

/// What a place wants.
#[derive(Clone, Copy, Debug, PartialEq, Eq)]
pub(crate) enum Wanted {
    Table,
    List,
    Text,
    Texts,
    Truth,
    NameCount,
    /// A key that isn't there.
    Key,
    Stage,
    Language,
    Local,
    Pattern,
    Command,
    Argument,
    NoLog,
    NothingInstalled,
    /// No further hook.
    Fewer,
}

/// A value that was refused, and its place in the configuration's tables.
#[derive(Clone, Copy)]
pub(crate) struct Finding<'n> {
    /// The table that it is in, or that it is.
    pub(crate) owner: Owner,
    /// The number of its repository, or 0 at the top.
    pub(crate) repository: usize,
    /// Its table.
    pub(crate) table: &'n Node,
    /// Its key, or the empty text if it is the table itself.
    pub(crate) key: &'static str,
    /// Its number in the list at the key, from 1, or 0 if it is the key's value.
    pub(crate) item: usize,
    /// If a key is missing, one of the table that isn't known and may have been meant; otherwise empty.
    pub(crate) instead: &'n str,
    /// The value, if there is one.
    pub(crate) value: Option<&'n Node>,
    /// What it has to be.
    pub(crate) wanted: Wanted,
}

impl<'n> Finding<'n> {
    /// A table.
    pub(crate) fn of_table(owner: Owner, repository: usize, table: &'n Node) -> Self {
        Finding {
            owner,
            repository,
            table,
            key: "",
            item: 0,
            instead: "",
            value: Some(table),
            wanted: Wanted::Table,
        }
    }

    /// What is at a key of the table.
    pub(crate) fn at_key(self, key: &'static str, wanted: Wanted) -> Self {
        Finding {
            owner: self.owner,
            repository: self.repository,
            table: self.table,
            key,
            item: 0,
            instead: "",
            value: value_at(rows_in(self.table), key),
            wanted,
        }
    }

    /// An item of the list that this finding is.
    pub(crate) fn at_item(self, item: usize, value: &'n Node, wanted: Wanted) -> Self {
        Finding {
            owner: self.owner,
            repository: self.repository,
            table: self.table,
            key: self.key,
            item,
            instead: "",
            value: Some(value),
            wanted,
        }
    }

    /// The table as a hook that is one too many.
    pub(crate) fn surplus(self) -> Self {
        Finding {
            owner: self.owner,
            repository: self.repository,
            table: self.table,
            key: "",
            item: 0,
            instead: "",
            value: None,
            wanted: Wanted::Fewer,
        }
    }

    /// Whether the other is of the same value, or of the same key that is missing.
    pub(crate) fn is_of_same(self, other: Finding<'_>) -> bool {
        self.owner == other.owner
            && self.repository == other.repository
            && self.key == other.key
            && self.item == other.item
    }

    /// The items of the list that it is, none if it is no list.
    pub(crate) fn items(self) -> &'n [Node] {
        match self.value {
            Some(value) => items_in(value),
            None => &[],
        }
    }

    /// The text that it is, empty if it is none.
    pub(crate) fn text(self) -> &'n str {
        match self.value {
            Some(value) => text_in(value).unwrap_or(""),
            None => "",
        }
    }
}

/// What the fault of the text with this node is about. The fault is neither one of the YAML nor want of
/// memory. `AllocError` if memory is refused.
pub(crate) fn finding_of<'n>(
    alloc: Global,
    top: &'n Node,
    fault: ConfigFault,
) -> Result<Finding<'n>, AllocError> {
    let finding = value_of(alloc, top, fault)?;
    if finding.wanted == Wanted::Key {
        return with_instead(alloc, finding);
    }
    Ok(finding)
}

fn value_of<'n>(
    alloc: Global,
    top: &'n Node,
    fault: ConfigFault,
) -> Result<Finding<'n>, AllocError> {
    match hook_at(top, fault.at as usize) {
        Some(hook) if fault.at > 0 => {
            let owner = Owner::Hook(fault.at as usize);
            finding_in_hook(
                alloc,
                Finding::of_table(owner, hook.repository, hook.node),
                fault.kind,
            )
        }
        _ => finding_outside(alloc, Finding::of_table(Owner::Top, 0, top), fault.kind),
    }
}

fn finding_outside<'n>(
    alloc: Global,
    top: Finding<'n>,
    kind: ConfigKind,
) -> Result<Finding<'n>, AllocError> {
    match kind {
        ConfigKind::Shape => Ok(misfit_outside(top)),
        ConfigKind::MissingKey => Ok(missing_outside(top)),
        ConfigKind::RemoteRepo => Ok(remote(top)),
        ConfigKind::BadPattern => pattern_in(alloc, top),
        _ => Ok(first_item(top.at_key("default_stages", Wanted::Texts), Wanted::Stage)),
    }
}

fn finding_in_hook<'n>(
    alloc: Global,
    hook: Finding<'n>,
    kind: ConfigKind,
) -> Result<Finding<'n>, AllocError> {
    match kind {
        ConfigKind::BadPattern => pattern_or_entry(alloc, hook),
        ConfigKind::Shape => Ok(first_misfit(hook).unwrap_or(hook)),
        ConfigKind::MissingKey => Ok(first_missing(hook).unwrap_or(hook)),
        ConfigKind::Unsupported => Ok(unsupported(hook)),
        _ => Ok(word_in_hook(hook, kind)),
    }
}

fn word_in_hook<'n>(hook: Finding<'n>, kind: ConfigKind) -> Finding<'n> {
    match kind {
        ConfigKind::BadStage => first_item(hook.at_key("stages", Wanted::Texts), Wanted::Stage),
        ConfigKind::BadArgs => first_item(hook.at_key("args", Wanted::Texts), Wanted::Argument),
        ConfigKind::BadLanguage => hook.at_key("language", Wanted::Language),
        ConfigKind::BadEntry => hook.at_key("entry", Wanted::Command),
        _ => hook.surplus(),
    }
}

// The first value of a table that is of another kind than its key wants, or the table itself if it is no
// table.
fn first_misfit<'n>(table: Finding<'n>) -> Option<Finding<'n>> {
    if !matches!(table.table, Node::Table(_)) {
        return Some(table);
    }
    for (key, kind) in keys_of(table.owner) {
        if let Some(found) = misfit_at(table, *key, *kind) {
            return Some(found);
        }
    }
    None
}

fn misfit_at<'n>(table: Finding<'n>, key: &'static str, kind: KeyKind) -> Option<Finding<'n>> {
    misfit(table.at_key(key, wanted_by(kind)?))
}

/// What a key wants, none if it is ignored.
pub(crate) fn wanted_by(kind: KeyKind) -> Option<Wanted> {
    match kind {
        KeyKind::RequiredText | KeyKind::Text | KeyKind::Pattern => Some(Wanted::Text),
        KeyKind::RequiredList => Some(Wanted::List),
        KeyKind::Texts => Some(Wanted::Texts),
        KeyKind::Truth => Some(Wanted::Truth),
        KeyKind::NameCount => Some(Wanted::NameCount),
        KeyKind::Ignored => None,
    }
}

// The value, or the first item of its list, that is of another kind than is wanted.
fn misfit<'n>(at: Finding<'n>) -> Option<Finding<'n>> {
    match at.value {
        None => None,
        Some(value) if !is_of_kind(value, at.wanted) => Some(at),
        Some(_) if at.wanted == Wanted::Texts => unknown_item(at, Wanted::Text),
        Some(_) => None,
    }
}

/// Whether the value is of the kind that is wanted.
pub(crate) fn is_of_kind(value: &Node, wanted: Wanted) -> bool {
    match wanted {
        Wanted::Text => text_in(value).is_some(),
        Wanted::Truth => is_truth(value),
        Wanted::NameCount => is_name_count(value),
        _ => matches!(value, Node::List(_)),
    }
}

fn is_truth(value: &Node) -> bool {
    match value {
        Node::Text {
            text,
            quoted: false,
        } => is_among(truth_words(), text.as_str()),
        _ => false,
    }
}

fn is_name_count(value: &Node) -> bool {
    match value {
        Node::Text {
            text,
            quoted: false,
        } => name_count_of_word(text.as_str()).is_some(),
        _ => false,
    }
}

// The first item of the list that isn't what is wanted, otherwise the list itself.
fn first_item<'n>(list: Finding<'n>, wanted: Wanted) -> Finding<'n> {
    unknown_item(list, wanted).unwrap_or(list)
}

fn unknown_item<'n>(list: Finding<'n>, wanted: Wanted) -> Option<Finding<'n>> {
    let Some(value) = list.value else {
        return None;
    };
    for (i, item) in items_in(value).iter().enumerate() {
        if !is_known(item, wanted) {
            return Some(list.at_item(i.saturating_add(1), item, wanted));
        }
    }
    None
}

/// Whether the item is a text, and one that is wanted.
pub(crate) fn is_known(item: &Node, wanted: Wanted) -> bool {
    match text_in(item) {
        None => false,
        Some(word) if wanted == Wanted::Stage => Stage::of_word(word).is_some(),
        Some(word) if wanted == Wanted::Argument => is_among(argument_words(), word),
        Some(_) => true,
    }
}

// The first key that a table has to have and doesn't.
fn first_missing<'n>(table: Finding<'n>) -> Option<Finding<'n>> {
    for (key, kind) in keys_of(table.owner) {
        let at = table.at_key(*key, Wanted::Key);
        if is_required(*kind) && at.value.is_none() {
            return Some(at);
        }
    }
    None
}

/// Whether a table has to have a key of this kind.
pub(crate) fn is_required(kind: KeyKind) -> bool {
    matches!(kind, KeyKind::RequiredText | KeyKind::RequiredList)
}

fn misfit_outside<'n>(top: Finding<'n>) -> Finding<'n> {
    if let Some(found) = first_misfit(top) {
        return found;
    }
    for (i, node) in items_at(top.table, "repos").iter().enumerate() {
        if let Some(found) = first_misfit(repository(i, node)) {
            return found;
        }
    }
    top
}

fn missing_outside<'n>(top: Finding<'n>) -> Finding<'n> {
    if let Some(found) = first_missing(top) {
        return found;
    }
    for (i, node) in items_at(top.table, "repos").iter().enumerate() {
        if let Some(found) = first_missing(repository(i, node)) {
            return found;
        }
    }
    top
}

// The first repository that isn't the one that is served.
fn remote<'n>(top: Finding<'n>) -> Finding<'n> {
    for (i, node) in items_at(top.table, "repos").iter().enumerate() {
        if !is_among(local_words(), text_at(node, "repo")) {
            return repository(i, node).at_key("repo", Wanted::Local);
        }
    }
    top
}

/// The repository of this index.
pub(crate) fn repository<'n>(index: usize, node: &'n Node) -> Finding<'n> {
    let number = index.saturating_add(1);
    Finding::of_table(Owner::Repository(number), number, node)
}

// The first pattern of a table that `regex` doesn't take, otherwise the table.
fn pattern_in<'n>(alloc: Global, table: Finding<'n>) -> Result<Finding<'n>, AllocError> {
    for (key, kind) in keys_of(table.owner) {
        let at = table.at_key(*key, Wanted::Pattern);
        if *kind == KeyKind::Pattern && is_refused_pattern(alloc, at.text())? {
            return Ok(at);
        }
    }
    Ok(table)
}

// The entry of a `pygrep` hook if `regex` doesn't take it, otherwise one of its patterns.
fn pattern_or_entry<'n>(alloc: Global, hook: Finding<'n>) -> Result<Finding<'n>, AllocError> {
    if text_at(hook.table, "language") == "pygrep" {
        let entry = hook.at_key("entry", Wanted::Pattern);
        if is_refused_entry(alloc, entry.text(), items_at(hook.table, "args"))? {
            return Ok(entry);
        }
    }
    pattern_in(alloc, hook)
}

// The value that isn't empty, of the two keys that are served only if they are empty.
fn unsupported<'n>(hook: Finding<'n>) -> Finding<'n> {
    let log = hook.at_key("log_file", Wanted::NoLog);
    if log.text().is_empty() {
        return hook.at_key("additional_dependencies", Wanted::NothingInstalled);
    }
    log
}

/// The missing key, with the first unknown key of its table that is near to it, if there is one.
pub(crate) fn with_instead<'n>(
    alloc: Global,
    missing: Finding<'n>,
) -> Result<Finding<'n>, AllocError> {
    for (key, _) in rows_in(missing.table) {
        if !is_key(keys_of(missing.owner), key.as_str())
            && nearest(alloc, key.as_str(), &[missing.key])?.is_some()
        {
            let mut found = missing;
            found.instead = key.as_str();
            return Ok(found);
        }
    }
    Ok(missing)
}
