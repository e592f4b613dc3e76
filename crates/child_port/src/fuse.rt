//! Children with one call that fails, for tests.

ghost use Rattle.std.specs.Prelude.{◌≡◌, ◌≤◌};

use crate::{Children, Fault, Outcome};
use hook_base::{OutOfMemory, Text, Tree};

/// Children that pass each call on to others, except one, which fails with a fault.
#[derive(Debug, Drop)]
pub struct FuseChildren<C: Children> {
    inner: C,
    // The number of the call that fails, and its fault.
    kth: u64,
    fault: Fault,
    // How many outcomes were reported at first, how many by now, and how many of those are faults.
    begun: u64,
    told: u64,
    failed: u64,
    ghost later: { begun ≤ told },
    ghost faults: { failed ≤ told },
    ghost inner_calls: { C.call_count inner ≤ told },
}

impl<C: Children> FuseChildren<C> {
    ghost use Rattle.child_port.specs.Fuses.{FuseTells};
    ghost use Rattle.child_port.specs.Telling.{SameTells};

    /// Children that report what the inner ones report, except that their `k`th call fails with the fault.
    /// Their own calls are counted from 1, so with 0 none fails. A refusal of memory isn't a call. Their
    /// counts begin at those of the inner ones.
    pub fn new(inner: C, k: u64, fault: Fault) -> Self
        ensures tells { SameTells (FuseTells (C.tells inner) fault) (⟦<FuseChildren<C> as Children>⟧.tells result) }
        ensures calls { ⟦<FuseChildren<C> as Children>⟧.call_count result ≡ C.call_count inner }
        ensures faults { ⟦<FuseChildren<C> as Children>⟧.fault_count result ≡ C.fault_count inner }
    {
        let told = inner.calls();
        let failed = inner.faults();
        FuseChildren {
            inner,
            kth: k,
            fault,
            begun: told,
            told,
            failed,
        }
    }
}

impl<C: Children> Children for FuseChildren<C> {
    ghost use Rattle.child_port.specs.Fuses.{FuseTells};

    ghost tells = { λ children. FuseTells (C.tells children.inner) children.fault };

    ghost call_count = { λ children. children.told };

    ghost fault_count = { λ children. children.failed };

    ghost faults_at_most_calls = { λ children. children.faults };

    fn run(&mut self, words: &[Text], tree: &Tree, seen: &Tree) -> Result<Outcome, OutOfMemory> {
        let own = self.told - self.begun + 1;
        let outcome = if own == self.kth {
            Outcome::Failed(self.fault)
        } else {
            self.inner.run(words, tree, seen)?
        };
        self.told += 1;
        if let Outcome::Failed(_) = &outcome {
            self.failed += 1;
        }
        Ok(outcome)
    }

    fn calls(&self) -> u64 {
        self.told
    }

    fn faults(&self) -> u64 {
        self.failed
    }
}
