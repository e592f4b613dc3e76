//! Laws of the definitions that the contracts cite: what characterizes a list with a limit whose first row is
//! the most recently used. Each is a function without a result: what it ensures is a theorem.

ghost use Rattle.std.specs.Prelude.{◌≡◌, ◌<◌, ◌+◌, ◌∷◌, ◌++◌, [], ℕ, List, None, Option, Some, take};
ghost use Rattle.child_port.specs.declared.answer.Answer.{Answer};
ghost use Rattle.hook_base.specs.declared.file.File.{File};
ghost use Rattle.result_book.specs.declared.book_row.BookRow.{BookRow};
ghost use Rattle.result_book.specs.Calls.{AfterFind, AfterForget, AfterPut, IsSameKey, new_row};
ghost use Rattle.result_book.specs.Contents.{Contents, Finds, HasKey, HaveDistinctKeys, Holds, IsBook, Lacks, count_of, nothing, other_rows, with_rows};
ghost use Rattle.result_book.specs.Told.{IsTold, IsToldAnswer};

use crate::{Book, ListBook};
use child_port::Children;

/// The same words and seen files find one thing only.
pub fn one_thing_is_found()
    ensures { (words : List (List ℕ)) (seen : List File) (contents : Contents) (a b : Option Answer)
        → HaveDistinctKeys contents.rows → Finds words seen contents a → Finds words seen contents b → a ≡ b }
{}

/// After a put, its words and seen files find the answer that was put, and nothing else.
pub fn what_is_put_is_found()
    ensures { (words : List (List ℕ)) (seen : List File) (answer : Answer) (before after : Contents)
        (found : Option Answer) → AfterPut words seen answer before after → Finds words seen after found
        → found ≡ Some answer }
{}

/// For other words or seen files, a book finds after a put nothing that it didn't find before (`before`). It
/// still finds what it found for them if it held fewer answers than its limit (`room`), or one for the key of
/// the put (`place`). Otherwise only what the last row had may be lost (`last`).
pub fn others_are_found_as_before()
    ensures before { (words : List (List ℕ)) (seen : List File) (answer : Answer) (before after : Contents)
        (others : List (List ℕ)) (theirs : List File) (other : Answer) → AfterPut words seen answer before after
        → ¬ IsSameKey others theirs words seen → Holds others theirs other after → Holds others theirs other before }
    ensures room { (words : List (List ℕ)) (seen : List File) (answer : Answer) (before after : Contents)
        (others : List (List ℕ)) (theirs : List File) (found : Option Answer) → AfterPut words seen answer before after
        → count_of before < before.limit → ¬ IsSameKey others theirs words seen → Finds others theirs before found
        → Finds others theirs after found }
    ensures place { (words : List (List ℕ)) (seen : List File) (answer old : Answer) (before after : Contents)
        (others : List (List ℕ)) (theirs : List File) (found : Option Answer) → IsBook before
        → AfterPut words seen answer before after → Holds words seen old before → ¬ IsSameKey others theirs words seen
        → Finds others theirs before found → Finds others theirs after found }
    ensures last { (words : List (List ℕ)) (seen : List File) (answer : Answer) (before after : Contents)
        (rows : List BookRow) (last : BookRow) (others : List (List ℕ)) (theirs : List File) (found : Option Answer)
        → IsBook before → AfterPut words seen answer before after → before.rows ≡ rows ++ last ∷ []
        → ¬ HasKey others theirs last → ¬ IsSameKey others theirs words seen → Finds others theirs before found
        → Finds others theirs after found }
{}

/// A look-up changes neither what is found nor how much is cached, only the order.
pub fn a_look_up_changes_nothing()
    ensures found { (words : List (List ℕ)) (seen : List File) (before after : Contents) (others : List (List ℕ))
        (theirs : List File) (found : Option Answer) → AfterFind words seen before after
        → Finds others theirs before found → Finds others theirs after found }
    ensures count { (words : List (List ℕ)) (seen : List File) (before after : Contents) → HaveDistinctKeys before.rows
        → AfterFind words seen before after → count_of after ≡ count_of before }
{}

/// After a look-up the row found is in front, and the other rows follow in their order (`found`). A look-up
/// of a missing key doesn't change the order either (`lacked`).
pub fn what_is_found_comes_to_the_front()
    ensures found { (words : List (List ℕ)) (seen : List File) (answer : Answer) (before after : Contents)
        → HaveDistinctKeys before.rows → AfterFind words seen before after → Holds words seen answer before
        → after.rows ≡ new_row words seen answer ∷ other_rows words seen before.rows }
    ensures lacked { (words : List (List ℕ)) (seen : List File) (before after : Contents)
        → AfterFind words seen before after → Lacks words seen before → after ≡ before }
{}

/// After a look-up (`found`) and a put (`put`), a book's keys are distinct, it has no more answers than its
/// limit, and the limit is the same.
pub fn a_book_keeps_its_limit()
    ensures found { (words : List (List ℕ)) (seen : List File) (before after : Contents) → IsBook before
        → AfterFind words seen before after → IsBook after × (after.limit ≡ before.limit) }
    ensures put { (words : List (List ℕ)) (seen : List File) (answer : Answer) (before after : Contents) → IsBook before
        → AfterPut words seen answer before after → IsBook after × (after.limit ≡ before.limit) }
{}

/// After a book has forgotten, nothing is found and nothing is cached.
pub fn nothing_is_found_after_forgetting()
    ensures found { (before after : Contents) (words : List (List ℕ)) (seen : List File) (found : Option Answer)
        → AfterForget before after → Finds words seen after found → found ≡ None }
    ensures count { (before after : Contents) → AfterForget before after → count_of after ≡ 0 }
{}

/// Two books that hold the same answers have the same number of answers, in whatever order.
pub fn books_that_hold_the_same_are_as_long()
    ensures { (a b : Contents) → HaveDistinctKeys a.rows → HaveDistinctKeys b.rows
        → ((words : List (List ℕ)) (seen : List File) (answer : Answer) → Holds words seen answer a
        → Holds words seen answer b)
        → ((words : List (List ℕ)) (seen : List File) (answer : Answer) → Holds words seen answer b
        → Holds words seen answer a) → count_of a ≡ count_of b }
{}

/// A put for a key that the book lacked adds one answer (`more`), but if the book was full, it then has as
/// many as its limit (`full`). A put for a key that it held leaves the number as it was (`same`).
pub fn a_put_adds_one_or_replaces()
    ensures more { (words : List (List ℕ)) (seen : List File) (answer : Answer) (before after : Contents)
        → AfterPut words seen answer before after → count_of before < before.limit → Lacks words seen before
        → count_of after ≡ count_of before + 1 }
    ensures full { (words : List (List ℕ)) (seen : List File) (answer : Answer) (before after : Contents)
        → AfterPut words seen answer before after → count_of before ≡ before.limit → Lacks words seen before
        → count_of after ≡ before.limit }
    ensures same { (words : List (List ℕ)) (seen : List File) (answer old : Answer) (before after : Contents)
        → IsBook before → AfterPut words seen answer before after → Holds words seen old before
        → count_of after ≡ count_of before }
{}

/// Nothing is left of a book in memory after a crash.
pub fn a_book_in_memory_is_lost_in_a_crash()
    ensures { (book left : Contents) → ¬ ⟦<ListBook as Book>⟧.leaves book left }
{}

/// If children reported all answers of a book, that stays so after a look-up (`found`) and after a put of a
/// reported answer (`put`). It also stays so if a limit leaves only the first rows (`limited`). It is so for
/// a book without answers (`nothing`).
pub fn told_answers_stay_told<C: Children>(children: &C)
    ensures found { (words : List (List ℕ)) (seen : List File) (before after : Contents)
        → IsTold (C.tells children.now) before → AfterFind words seen before after
        → IsTold (C.tells children.now) after }
    ensures put { (words : List (List ℕ)) (seen : List File) (answer : Answer) (before after : Contents)
        → IsTold (C.tells children.now) before → IsToldAnswer (C.tells children.now) words seen answer
        → AfterPut words seen answer before after → IsTold (C.tells children.now) after }
    ensures limited { (limit : ℕ) (before after : Contents) → IsTold (C.tells children.now) before
        → after ≡ with_rows limit (take limit before.rows) → IsTold (C.tells children.now) after }
    ensures nothing { (limit : ℕ) → IsTold (C.tells children.now) (nothing limit) }
{}
