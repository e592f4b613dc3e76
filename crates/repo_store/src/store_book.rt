//! A store as a book.

ghost use Rattle.std.specs.Prelude.{◌≡◌, option_map};
ghost use Rattle.repo_store.specs.StoreBooks.{answer_by, answer_in};

use crate::{AnswerRef, Store, StoredAnswer};
use child_port::Answer;
use hook_base::{Text, Tree};
use result_book::{Book, BookFault};
use sqlite::Alter;

/// A book that is kept in the store of a repository, and outlives the process: it is the store itself, with
/// the store's limit. Each answer is added in a transaction of its own, and stays if a later one is refused.
/// So is the use of each answer that is found, unless it is in front already.
///
/// A call is refused if memory is (`OutOfMemory`) or if the store refuses (`Store`). The store refuses
/// because of the database, in a look-up too, contents of more than 16 MiB, or contents whose digest is that
/// of others.
pub type StoreBook<S> = Store<S>;

impl<S: Alter> Book for Store<S> {
    ghost use Rattle.repo_store.specs.StoreBooks.{IsAtRest, MayRemember, RefusesAnswers, remembered_by};
    ghost use Rattle.repo_store.specs.RestLemmas.{rests_itself, rests_on};

    ghost contents = { λ shown. remembered_by shown.kept };

    ghost leaves = { λ shown left. MayRemember S.Store shown left };

    ghost rests = { λ before after. IsAtRest S.Store before after };

    ghost refuses = { RefusesAnswers };

    ghost rests_itself = { λ book. rests_itself _ book };

    ghost rests_on = { λ first second third before after. rests_on _ first second third before after };

    fn find(&mut self, words: &[Text], seen: &Tree) -> Result<Option<Answer>, BookFault> {
        let found = self.answer_find(words, seen)?;
        Ok(given(found))
    }

    fn holds(&self, words: &[Text], seen: &Tree) -> Result<bool, BookFault> {
        let held = self.has_answer(words, seen)?;
        Ok(held)
    }

    fn put(&mut self, words: &[Text], seen: &Tree, answer: &Answer) -> Result<(), BookFault> {
        self.answer_put(words, seen, handed(answer))?;
        Ok(())
    }

    fn forget(&mut self) -> Result<u64, BookFault> {
        let count = self.answers_forget()?;
        Ok(count)
    }

    fn len(&self) -> u64 {
        self.answers_len()
    }
}

// A store's cached answer, as an answer of a child.
fn given(found: Option<StoredAnswer>) -> Option<Answer>
    ensures { result ≡ option_map answer_in found }
{
    match found {
        Some(
            StoredAnswer {
                status,
                output,
                changes,
            },
        ) => Some(Answer {
            status,
            output,
            changes,
        }),
        None => None,
    }
}

// The answer of a child by reference, as a store takes it.
fn handed(answer: &Answer) -> AnswerRef<'_>
    ensures { answer_by result ≡ answer.entry.now }
{
    AnswerRef {
        status: answer.status,
        output: answer.output.as_slice(),
        changes: &answer.changes,
    }
}
