//! The trait of a book, which caches the answers of children.

use crate::BookFault;
use child_port::Answer;
use hook_base::{Text, Tree};

/// A cache of the answers of children: a list of rows with distinct keys, the most recently used first, with
/// a limit from 1 to 100,000. A key is the words of a command and the files that its child has seen, with
/// their modes and bytes.
///
/// A refused call leaves the rows and their order as they were.
pub trait Book {
    ghost use Rattle.std.specs.Prelude.{◌≡◌, ◌⊎◌, ◌≤◌, ℕ, false, IfOk, IfErr, OnOk, OnErr};
    ghost use Rattle.child_port.specs.declared.answer.Answer.{Answer};
    ghost use Rattle.hook_base.specs.declared.file.File.{File};
    ghost use Rattle.result_book.specs.declared.book_fault.BookFault.{BookFault};
    ghost use Rattle.result_book.specs.Contents.{Contents, Finds, HaveDistinctKeys, IsHeld, count_of};
    ghost use Rattle.result_book.specs.Calls.{AfterFind, AfterPut, AfterForget};
    ghost use Rattle.child_port.specs.Seen.{is_stray};

    /// The rows and the limit.
    ghost contents: { Self → Contents };

    /// The contents of the book when it is opened after a crash.
    ghost leaves: { Self → Contents → Type 0 };

    /// At two moments, all else that the book keeps is the same, and so is what a crash may leave of that.
    ghost rests: { Self → Self → Type 0 };

    /// The faults with which calls may be refused.
    ghost refuses: { BookFault → Type 0 };

    /// The answer cached for the words and the seen files, as a copy, or `None` if there is none. Its row
    /// moves to the front; without one nothing changes. `OutOfMemory` if memory is refused, `Store` if the
    /// store refuses.
    fn find(&mut self, words: &[Text], seen: &Tree) -> Result<Option<Answer>, BookFault>
        ensures found { IfOk result (λ found. Finds words.now seen.now (contents self.old) found) }
        ensures after { OnOk result (AfterFind words.now seen.now (contents self.old) (contents self.new)) }
        ensures kept { OnErr result (contents self.new ≡ contents self.old) }
        ensures refused { IfErr result (λ fault. refuses fault) }
        ensures left { (left : Contents) → leaves self.new left
            → leaves self.old left ⊎ AfterFind words.now seen.now (contents self.old) left }
        ensures rest { rests self.old self.new };

    /// Whether an answer is cached for the words and the seen files. Nothing changes, and no row moves.
    /// `OutOfMemory` if memory is refused, `Store` if the store refuses.
    fn holds(&self, words: &[Text], seen: &Tree) -> Result<bool, BookFault>
        ensures held { IfOk result (IsHeld words.now seen.now (contents self.now)) }
        ensures refused { IfErr result (λ fault. refuses fault) };

    /// Caches an answer for the words and the seen files. Its row comes to the front and replaces the one
    /// with the same key. If there are more rows than the limit then, the last one is dropped. Each file that
    /// the answer changes must be one of the seen files. `OutOfMemory` if memory is refused, `Store` if the
    /// store refuses.
    fn put(&mut self, words: &[Text], seen: &Tree, answer: &Answer) -> Result<(), BookFault>
        requires keeps_to_seen { is_stray answer.now seen.now ≡ false }
        ensures after { OnOk result (AfterPut words.now seen.now answer.now (contents self.old) (contents self.new)) }
        ensures kept { OnErr result (contents self.new ≡ contents self.old) }
        ensures refused { IfErr result (λ fault. refuses fault) }
        ensures left { (left : Contents) → leaves self.new left
            → leaves self.old left ⊎ AfterPut words.now seen.now answer.now (contents self.old) left }
        ensures rest { rests self.old self.new };

    /// Removes all answers, and answers how many there were. The limit stays. `OutOfMemory` if memory is
    /// refused, `Store` if the store refuses.
    fn forget(&mut self) -> Result<u64, BookFault>
        ensures forgotten { IfOk result (λ count. count ≡ count_of (contents self.old)) }
        ensures after { OnOk result (AfterForget (contents self.old) (contents self.new)) }
        ensures kept { OnErr result (contents self.new ≡ contents self.old) }
        ensures refused { IfErr result (λ fault. refuses fault) }
        ensures left { (left : Contents) → leaves self.new left
            → leaves self.old left ⊎ AfterForget (contents self.old) left }
        ensures rest { rests self.old self.new };

    /// How many answers are cached, at most as many as the limit.
    fn len(&self) -> u64
        ensures count { result ≡ count_of (contents self.now) }
        ensures within { count_of (contents self.now) ≤ (contents self.now).limit }
        ensures distinct { HaveDistinctKeys (contents self.now).rows };

    /// If nothing happens, all else stays the same.
    ghost rests_itself: { (book : Self) → rests book book };

    /// What stays the same over each of two calls in a row stays the same over both.
    ghost rests_on: { (first second third : Self) → rests first second → rests second third → rests first third };
}
