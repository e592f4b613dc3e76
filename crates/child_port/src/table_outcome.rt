//! What a table answers: a look-up by words and seen files.

ghost use Rattle.std.specs.Prelude.{IfOk};
ghost use Rattle.child_port.specs.Tables.{TableTells};

use crate::{Fault, Outcome, TableRow};
use hook_base::{OutOfMemory, Text, Tree};

/// What the first row for the words and the seen files answers; if there is none, the child isn't started.
/// `OutOfMemory` if memory is refused.
pub(crate) fn table_outcome(
    rows: &[TableRow],
    words: &[Text],
    seen: &Tree,
) -> Result<Outcome, OutOfMemory>
    ensures { IfOk result (λ outcome. TableTells rows.now words.now seen.now outcome) }
{
    'rows: for row in rows {
        if row.is_for(words, seen) {
            let answer = row.answer.clone()?;
            return Ok(Outcome::Done(answer));
        }
    }
    Ok(Outcome::Failed(Fault::NotStarted))
}
