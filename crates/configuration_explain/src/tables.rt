//! The tables and lists of a configuration's node.

use yaml_profile::Node;

/// A table's rows, none if the node is no table.
pub(crate) fn rows_in(node: &Node) -> &[(String, Node)] {
    match node {
        Node::Table(rows) => rows.as_slice(),
        _ => &[],
    }
}

/// A list's items, none if the node is no list.
pub(crate) fn items_in(node: &Node) -> &[Node] {
    match node {
        Node::List(items) => items.as_slice(),
        _ => &[],
    }
}

/// The text of a node that is one, quoted or not.
pub(crate) fn text_in(node: &Node) -> Option<&str> {
    match node {
        Node::Text { text, .. } => Some(text.as_str()),
        _ => None,
    }
}

/// The value at the key of a table.
pub(crate) fn value_at<'n>(rows: &'n [(String, Node)], key: &str) -> Option<&'n Node> {
    for (name, value) in rows {
        if name.as_str() == key {
            return Some(value);
        }
    }
    None
}

/// The items of the list at the key of a table, none if there is no list.
pub(crate) fn items_at<'n>(table: &'n Node, key: &str) -> &'n [Node] {
    match value_at(rows_in(table), key) {
        Some(value) => items_in(value),
        None => &[],
    }
}

/// The text at the key of a table, empty if there is no text.
pub(crate) fn text_at<'n>(table: &'n Node, key: &str) -> &'n str {
    match value_at(rows_in(table), key) {
        Some(value) => text_in(value).unwrap_or(""),
        None => "",
    }
}

/// A hook's node, and the number of its repository, from 1.
#[derive(Clone, Copy)]
pub(crate) struct FoundHook<'n> {
    pub(crate) repository: usize,
    pub(crate) node: &'n Node,
}

/// The hook with this number, from 1 over all repositories.
pub(crate) fn hook_at<'n>(top: &'n Node, number: usize) -> Option<FoundHook<'n>> {
    let mut left = number.saturating_sub(1);
    for (i, repository) in items_at(top, "repos").iter().enumerate() {
        let hooks = items_at(repository, "hooks");
        if let Some(node) = hooks.get(left) {
            return Some(FoundHook {
                repository: i.saturating_add(1),
                node,
            });
        }
        left = left.saturating_sub(hooks.len());
    }
    None
}
