//! Children that answer from a table, for tests and for programs that start none.

ghost use Rattle.std.specs.Prelude.{◌≡◌, ◌+◌, ◌<◌, ◌^◌};

use crate::table_outcome::table_outcome;
use crate::{Children, Outcome, TableRow};
use hook_base::{Items, OutOfMemory, Text, Tree};

/// Children that answer from a table, by the first row with the same words and seen files. If there is none,
/// the child isn't started.
#[derive(Debug, Drop)]
pub struct TableChildren {
    rows: Items<TableRow>,
    completed: u64,
    failed: u64,
    ghost countable: { completed + failed < 2 ^ 64 },
}

impl TableChildren {
    ghost use Rattle.child_port.specs.Tables.{TableTells};
    ghost use Rattle.child_port.specs.Telling.{SameTells};

    /// Children that answer from these rows. They have reported nothing yet.
    pub fn new(rows: Items<TableRow>) -> TableChildren
        ensures tells { SameTells (TableTells rows) (⟦<TableChildren as Children>⟧.tells result) }
        ensures no_calls { ⟦<TableChildren as Children>⟧.call_count result ≡ 0 }
        ensures no_faults { ⟦<TableChildren as Children>⟧.fault_count result ≡ 0 }
    {
        TableChildren::with_calls(rows, 0)
    }

    /// Children that answer from these rows, and count as if they had reported `calls` outcomes already, none
    /// of them a fault.
    pub fn with_calls(rows: Items<TableRow>, calls: u64) -> TableChildren
        ensures tells { SameTells (TableTells rows) (⟦<TableChildren as Children>⟧.tells result) }
        ensures calls { ⟦<TableChildren as Children>⟧.call_count result ≡ calls }
        ensures no_faults { ⟦<TableChildren as Children>⟧.fault_count result ≡ 0 }
    {
        TableChildren {
            rows,
            completed: calls,
            failed: 0,
        }
    }
}

impl Children for TableChildren {
    ghost use Rattle.child_port.specs.Tables.{TableTells};

    ghost tells = { λ children. TableTells children.rows };

    ghost call_count = { λ children. children.completed + children.failed };

    ghost fault_count = { λ children. children.failed };

    ghost use Rattle.std.proofs.Common.{arith};

    ghost faults_at_most_calls = { λ children. omega arith };

    fn run(&mut self, words: &[Text], tree: &Tree, seen: &Tree) -> Result<Outcome, OutOfMemory> {
        let outcome = table_outcome(self.rows.as_slice(), words, seen)?;
        match &outcome {
            Outcome::Done(_) => self.completed += 1,
            Outcome::Failed(_) => self.failed += 1,
        }
        Ok(outcome)
    }

    fn calls(&self) -> u64 {
        self.completed + self.failed
    }

    fn faults(&self) -> u64 {
        self.failed
    }
}
