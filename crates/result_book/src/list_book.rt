//! A book in memory.

ghost use Rattle.std.specs.Prelude.{◌≡◌};

use crate::rows::{found_in, is_held, put_row};
use crate::{Book, BookFault, BookRow};
use child_port::Answer;
use hook_base::{Text, Tree};
use std::alloc::Global;
use std::marker::Model;

/// A book that keeps its answers in memory, at most as many as its limit, and loses all of them when it is
/// dropped. Its calls are refused only if memory is, and nothing is left of it after a crash. Contracts see
/// its rows and its limit.
#[derive(Debug, Drop)]
pub struct ListBook {
    // The most recently used is the last one.
    rows: Vec<BookRow>,
    limit: u32,
    // The index at which the last look-up found its row. It is tried first.
    next: usize,
}

impl Model for ListBook {
    ghost use Rattle.result_book.specs.Contents.{Contents, IsBook};
    ghost use Rattle.result_book.specs.Places.{shown_rows};

    ghost Value = { Contents };

    ghost view = { λ book. shown_rows book.limit book.rows.items };

    ghost invariant = { λ book. IsBook (shown_rows book.limit book.rows.items) };
}

impl ListBook {
    ghost use Rattle.store_faults.specs.Limits.{IsLimit};
    ghost use Rattle.result_book.specs.Contents.{nothing};

    /// A book without answers, with this limit from 1 to 100,000.
    pub fn new(alloc: Global, limit: u32) -> ListBook
        requires { IsLimit limit }
        ensures { result ≡ nothing limit }
    {
        ListBook {
            rows: Vec::new(alloc),
            limit,
            next: 0,
        }
    }
}

impl Book for ListBook {
    ghost use Rattle.std.specs.Prelude.{◌≡◌};
    ghost use Rattle.result_book.specs.declared.book_fault.BookFault.TheVariants.{OutOfMemory};

    ghost contents = { λ book. book };

    ghost leaves = { λ book left. ⊥ };

    ghost rests = { λ before after. Unit {0} };

    ghost refuses = { λ fault. fault ≡ OutOfMemory };

    ghost rests_itself = { λ book. tt };

    ghost rests_on = { λ first second third before after. tt };

    fn find(&mut self, words: &[Text], seen: &Tree) -> Result<Option<Answer>, BookFault> {
        Ok(found_in(&mut self.rows, &mut self.next, words, seen)?)
    }

    fn holds(&self, words: &[Text], seen: &Tree) -> Result<bool, BookFault> {
        Ok(is_held(self.rows.as_slice(), self.next, words, seen))
    }

    fn put(&mut self, words: &[Text], seen: &Tree, answer: &Answer) -> Result<(), BookFault> {
        let limit = self.limit as usize;
        Ok(put_row(&mut self.rows, limit, words, seen, answer)?)
    }

    fn forget(&mut self) -> Result<u64, BookFault> {
        let count = self.len();
        self.rows.clear();
        Ok(count)
    }

    fn len(&self) -> u64 {
        self.rows.len() as u64
    }
}
