//! The trait of everything that starts children.

use crate::{ChildAsk, News, Outcome};
use hook_base::{OutOfMemory, Text, Tree};

/// Starts children, and reports what became of each.
///
/// Which outcomes it may report for the words of a command and the files that its child has seen is fixed for
/// its life.
pub trait Children {
    ghost use Rattle.std.specs.Prelude.{◌≡◌, ◌+◌, ◌≤◌, ◌<◌, ◌^◌, ◌-◌, ℕ, List, IfOk, OnOk, OnErr};
    ghost use Rattle.hook_base.specs.declared.file.File.{File};
    ghost use Rattle.hook_base.specs.Trees.{IsPartOf};
    ghost use Rattle.child_port.specs.declared.answer.Outcome.{Outcome};
    ghost use Rattle.child_port.specs.Outcomes.{faults_in};
    ghost use Rattle.child_port.specs.Telling.{SameTells};

    /// The outcomes that it may report for words and seen files.
    ghost tells: { Self → List (List ℕ) → List File → Outcome → Type 0 };

    /// How many outcomes it has reported.
    ghost call_count: { Self → ℕ };

    /// How many of them were faults.
    ghost fault_count: { Self → ℕ };

    /// Runs the words as a child on the tree, and reports what became of it. The child is identified by its
    /// words and the files of the tree that it has seen. `OutOfMemory` if memory is refused, which doesn't
    /// count as a call.
    fn run(&mut self, words: &[Text], tree: &Tree, seen: &Tree) -> Result<Outcome, OutOfMemory>
        requires countable { call_count self.old < 2 ^ 64 - 1 }
        requires seen_of_tree { IsPartOf seen.now tree.now }
        ensures told { IfOk result (λ outcome. tells self.old words.now seen.now outcome) }
        ensures calls { OnOk result (call_count self.new ≡ call_count self.old + 1) }
        ensures faults { IfOk result (λ outcome. fault_count self.new ≡ fault_count self.old + faults_in outcome) }
        ensures refused_calls { OnErr result (call_count self.new ≡ call_count self.old) }
        ensures refused_faults { OnErr result (fault_count self.new ≡ fault_count self.old) }
        ensures same { SameTells (tells self.old) (tells self.new) };

    /// How many outcomes it has reported.
    fn calls(&self) -> u64
        ensures { result ≡ call_count self.now };

    /// How many of the outcomes that it has reported were faults.
    fn faults(&self) -> u64
        ensures { result ≡ fault_count self.now };

    /// Whether it listens to the news of a run. If not, which is the default, the run needn't send any.
    fn hears(&self) -> bool {
        false
    }

    /// Receives the news of a run while that goes on; by default it ignores them. News decide nothing: the
    /// outcomes that may be reported stay the same, and so do the counts.
    fn hear(&mut self, _news: News)
        ensures calls { call_count self.new ≡ call_count self.old }
        ensures faults { fault_count self.new ≡ fault_count self.old }
        ensures same { SameTells (tells self.old) (tells self.new) }
    {}

    /// How many children it starts at once, ahead of their turns. With 1, which is the default, the run needn't
    /// foresee any.
    fn at_once(&self) -> usize {
        1
    }

    /// Receives what the run asks next on this tree, if no child changes it; by default it ignores that. It
    /// may start these children ahead of their turns, and answer `run` with what they answered. That decides
    /// nothing: the outcomes that may be reported stay the same, and so do the counts.
    fn start_ahead(&mut self, _asks: Vec<ChildAsk>, _tree: &Tree)
        ensures calls { call_count self.new ≡ call_count self.old }
        ensures faults { fault_count self.new ≡ fault_count self.old }
        ensures same { SameTells (tells self.old) (tells self.new) }
    {}

    /// Each fault is one of the outcomes.
    ghost faults_at_most_calls: { (children : Self) → fault_count children ≤ call_count children };
}
