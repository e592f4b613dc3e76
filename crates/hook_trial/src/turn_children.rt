//! Children that answer from a table whose rows take turns, so that a child may answer otherwise when it is
//! started again.

ghost use Rattle.std.specs.Prelude.{◌+◌, ◌<◌, ◌^◌};

use child_port::{Children, Fault, Outcome};
use hook_base::{Items, OutOfMemory, Text, Tree};

/// A row of the table: what becomes of a child of these words that has seen these files, when it is the row's
/// turn.
#[derive(Drop)]
pub(crate) struct Turn {
    words: Items<Text>,
    seen: Tree,
    outcome: Outcome,
    // How often it was the row's turn.
    count: u64,
}

impl Turn {
    pub(crate) fn new(words: Items<Text>, seen: Tree, outcome: Outcome) -> Turn {
        Turn {
            words,
            seen,
            outcome,
            count: 0,
        }
    }
}

/// Children that answer from the rows with equal words and equal seen files in turn. If there is no such row,
/// the child isn't started.
#[derive(Drop)]
pub(crate) struct TurnChildren {
    turns: Vec<Turn>,
    // The row of each call, in the order of the calls, or none.
    rows: Vec<Option<usize>>,
    completed: u64,
    failed: u64,
    ghost countable: { completed + failed < 2 ^ 64 },
}

impl TurnChildren {
    /// Children that answer from these rows. They have reported nothing yet.
    pub(crate) fn new(turns: Vec<Turn>) -> TurnChildren {
        let rows = Vec::new(*turns.allocator());
        TurnChildren {
            turns,
            rows,
            completed: 0,
            failed: 0,
        }
    }

    /// Sets the counts as if the greatest countable number of outcomes had been reported.
    pub(crate) fn spend(&mut self) {
        self.completed = u64::MAX - self.failed;
    }

    /// The numbers of the rows from which children answered since the last call of this, in order; none for a
    /// child without a row.
    pub(crate) fn take_rows(&mut self) -> Vec<Option<usize>> {
        let none = Vec::new(*self.rows.allocator());
        std::mem::replace(&mut self.rows, none)
    }
}

impl Children for TurnChildren {
    ghost use Rattle.std.specs.Prelude.{⊤};

    ghost tells = { λ children. λ words seen outcome. ⊤ };

    ghost call_count = { λ children. children.completed + children.failed };

    ghost fault_count = { λ children. children.failed };

    ghost use Rattle.std.proofs.Common.{arith};

    ghost faults_at_most_calls = { λ children. omega arith };

    fn run(&mut self, words: &[Text], _tree: &Tree, seen: &Tree) -> Result<Outcome, OutOfMemory> {
        let row = next_row(self.turns.as_slice(), words, seen);
        let outcome = outcome_of(self.turns.as_slice(), row)?;
        self.rows.push(row)?;
        count(self.turns.as_mut_slice(), row);
        match &outcome {
            Outcome::Done(_) => self.completed += 1,
            Outcome::Failed(_) => self.failed += 1,
        }
        Ok(outcome)
    }

    fn calls(&self) -> u64 {
        self.completed + self.failed
    }

    fn faults(&self) -> u64 {
        self.failed
    }
}

// The first of the rows with these words and seen files that had the fewest turns.
fn next_row(turns: &[Turn], words: &[Text], seen: &Tree) -> Option<usize> {
    let mut next = None;
    let mut least = u64::MAX;
    for (row, turn) in turns.iter().enumerate() {
        if turn.count < least && turn.words.as_slice() == words && turn.seen == *seen {
            least = turn.count;
            next = Some(row);
        }
    }
    next
}

fn outcome_of(turns: &[Turn], row: Option<usize>) -> Result<Outcome, OutOfMemory> {
    let Some(row) = row else {
        return Ok(Outcome::Failed(Fault::NotStarted));
    };
    match turns.get(row) {
        Some(turn) => Ok(turn.outcome.clone()?),
        None => Ok(Outcome::Failed(Fault::NotStarted)),
    }
}

fn count(turns: &mut [Turn], row: Option<usize>) {
    if let Some(row) = row {
        if let Some(turn) = turns.get_mut(row) {
            turn.count = turn.count.saturating_add(1);
        }
    }
}
