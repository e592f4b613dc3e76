//! Nodes as the tables write them.

use trial_rows::AnswerBytes;
use yaml_lines::Node;

/// Adds a node: `'a'` is an unquoted text or a key, `"a"` a quoted text, and `None` an empty place.
pub(crate) fn with_node(answer: AnswerBytes, node: &Node) -> AnswerBytes {
    let mut out = answer;
    show(node, &mut out);
    out
}

fn show(node: &Node, out: &mut AnswerBytes) {
    match node {
        Node::Text { text, quoted } => {
            show_text(out, text.as_bytes(), if *quoted { b'"' } else { b'\'' })
        }
        Node::List(items) => {
            out.add(b"[");
            for (i, item) in items.iter().enumerate() {
                show_comma(out, i);
                show(item, out);
            }
            out.add(b"]");
        }
        Node::Table(rows) => {
            out.add(b"{");
            for (i, row) in rows.iter().enumerate() {
                show_comma(out, i);
                show_text(out, row.0.as_bytes(), b'\'');
                out.add(b": ");
                show(&row.1, out);
            }
            out.add(b"}");
        }
        Node::Empty => out.add(b"None"),
    }
}

/// Adds the comma before every item but the first.
fn show_comma(out: &mut AnswerBytes, at: usize) {
    if at > 0 {
        out.add(b", ");
    }
}

/// Adds a text between two marks.
fn show_text(out: &mut AnswerBytes, text: &[u8], mark: u8) {
    out.add(&[mark]);
    for byte in text {
        show_byte(out, *byte, mark);
    }
    out.add(&[mark]);
}

fn show_byte(out: &mut AnswerBytes, byte: u8, mark: u8) {
    match byte {
        b'\n' => out.add(b"\\n"),
        b'\t' => out.add(b"\\t"),
        b'\r' => out.add(b"\\r"),
        b'\0' => out.add(b"\\0"),
        b'\\' => out.add(b"\\\\"),
        _ if byte == mark => out.add(&[b'\\', byte]),
        _ => out.add(&[byte]),
    }
}
