//! Children whose answer is empty and costs nothing, for runs that are timed.

use child_port::{Answer, Children, Outcome};
use hook_base::{Bytes, Changes, OutOfMemory, Text, Tree};
use std::alloc::Global;

/// Children that all end with status 0, print nothing and change nothing.
#[derive(Drop)]
pub(crate) struct QuietChildren {
    alloc: Global,
    told: u64,
}

impl QuietChildren {
    /// They have reported nothing yet.
    pub(crate) fn new(alloc: Global) -> QuietChildren {
        QuietChildren { alloc, told: 0 }
    }
}

impl Children for QuietChildren {
    ghost use Rattle.std.proofs.Common.{arith};

    ghost tells = { λ children words seen outcome. Unit {0} };

    ghost call_count = { λ children. children.told };

    ghost fault_count = { λ children. 0 };

    ghost faults_at_most_calls = { λ children. omega arith };

    fn run(&mut self, _words: &[Text], _tree: &Tree, _seen: &Tree) -> Result<Outcome, OutOfMemory> {
        self.told += 1;
        Ok(Outcome::Done(quiet_answer(self.alloc)))
    }

    fn calls(&self) -> u64 {
        self.told
    }

    fn faults(&self) -> u64 {
        0
    }
}

/// What they answer.
pub(crate) fn quiet_answer(alloc: Global) -> Answer {
    Answer {
        status: 0,
        output: Bytes::new(alloc),
        changes: Changes::new(alloc),
    }
}
