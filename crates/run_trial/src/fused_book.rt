//! A book in memory with one call that is refused.

use child_port::Answer;
use hook_base::{Text, Tree};
use result_book::{Book, BookFault, ListBook};
use std::alloc::Global;

/// A book that passes each call on to one in memory. One of its look-ups and puts, which are counted
/// together, may be refused.
#[derive(Drop)]
pub(crate) struct FusedBook {
    inner: ListBook,
    kth: u32,
    fault: BookFault,
    calls: u32,
}

impl FusedBook {
    ghost use Rattle.std.specs.Prelude.{◌≡◌};
    ghost use Rattle.store_faults.specs.Limits.{IsLimit};

    /// An empty book with this limit, none of whose calls is refused.
    pub(crate) fn new(alloc: Global, limit: u32) -> FusedBook
        requires { IsLimit limit }
    {
        FusedBook {
            inner: ListBook::new(alloc, limit),
            kth: 0,
            fault: BookFault::OutOfMemory,
            calls: 0,
        }
    }

    /// From here on, refuses the look-up or put with this number, counted from 1. With 0 none is refused.
    pub(crate) fn fuse(&mut self, kth: u32, fault: BookFault) {
        self.kth = kth;
        self.fault = fault;
        self.calls = 0;
    }

    // Counts a call, and answers whether it is the refused one.
    fn is_refused(&mut self) -> bool
        ensures { self.new.inner ≡ self.old.inner }
    {
        self.calls = self.calls.saturating_add(1);
        self.calls == self.kth
    }
}

impl Book for FusedBook {
    ghost contents = { λ book. book.inner };

    ghost leaves = { λ book left. ⊥ };

    ghost rests = { λ before after. Unit {0} };

    ghost refuses = { λ fault. Unit {0} };

    ghost rests_itself = { λ book. tt };

    ghost rests_on = { λ first second third before after. tt };

    fn find(&mut self, words: &[Text], seen: &Tree) -> Result<Option<Answer>, BookFault> {
        if self.is_refused() {
            return Err(self.fault);
        }
        self.inner.find(words, seen)
    }

    fn holds(&self, words: &[Text], seen: &Tree) -> Result<bool, BookFault> {
        self.inner.holds(words, seen)
    }

    fn put(&mut self, words: &[Text], seen: &Tree, answer: &Answer) -> Result<(), BookFault> {
        if self.is_refused() {
            return Err(self.fault);
        }
        self.inner.put(words, seen, answer)
    }

    fn forget(&mut self) -> Result<u64, BookFault> {
        self.inner.forget()
    }

    fn len(&self) -> u64 {
        self.inner.len()
    }
}
