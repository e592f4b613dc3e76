//! A key that is in its table twice.

use crate::marks::Mark;

/// A key, and the earlier mark of the same key in the same table.
#[derive(Clone, Copy)]
pub(crate) struct Doubled<'m> {
    pub(crate) earlier: &'m Mark,
    pub(crate) later: &'m Mark,
}

/// The key in this line that is also on an earlier line of its table, if both are marked. Keys within flows
/// aren't marked, nor are those of tables that aren't the configuration's.
pub(crate) fn doubled_in(marks: &[Mark], line: usize) -> Option<Doubled<'_>> {
    for later in marks {
        if later.line == line {
            if let Some(earlier) = earlier_than(marks, later) {
                return Some(Doubled { earlier, later });
            }
        }
    }
    None
}

// The same key of the same table on an earlier line.
fn earlier_than<'m>(marks: &'m [Mark], later: &Mark) -> Option<&'m Mark> {
    let key = later.key()?;
    for mark in marks {
        if mark.line < later.line && mark.is_key(later.owner, key) {
            return Some(mark);
        }
    }
    None
}
