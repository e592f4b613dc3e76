//! The cached answers as a list with a limit, the most recently used first.

ghost use Rattle.std.specs.Prelude.{◌≡◌, ◌≢◌, slice_get, ◌↔◌, ℕ, ◌+◌, ◌-◌, ◌<◌, ◌≤◌, ◌^◌, List, ◌∷◌, [], Some, IsTrue, length, take, drop, map, reverse, IfErr, IfNone, IfOk, IfSome, OnErr, OnOk};
ghost use Rattle.std.specs.List.{AllByRecursion, Any, Contains};
ghost use Rattle.repo_store.specs.Answers.{HaveOwnKeys, KeptAnswer};
ghost use Rattle.store_faults.specs.Faults.{IsDamage};
ghost use Rattle.repo_store.specs.Index as spec;
ghost use Rattle.store_faults.specs.Limits.{IsLimit};
ghost use Rattle.repo_store.specs.ListedAnswers as listed;
ghost use Rattle.repo_store.specs.ListedAnswers.{IsNextTick, ListedAnswers, brought_answers};
ghost use Rattle.repo_store.specs.Remembered.{TellsKey};
ghost use Rattle.repo_store.specs.UsedAnswers.{in_front};
ghost use Rattle.repo_store.specs.UsesOf.{greatest_tick};

use crate::StoreFault;
use crate::shared_answer::SharedAnswer;
use hook_base::OutOfMemory;
use lru::LruCache;
use sqlite::Error;
use std::alloc::Global;
use std::marker::Model;

/// The cached answers, the most recently used first, each found by the digests of its key. Contracts see the
/// list, how many there may be, and the tick that the next use gets.
#[derive(Drop)]
pub(crate) struct AnswerList {
    // It has no bound of its own. Its owner keeps the limit, and may add one answer more while a transaction
    // runs.
    cache: LruCache<([u8; 32], [u8; 32]), SharedAnswer>,
    limit: u32,
    next: u64,
}

impl Model for AnswerList {
    ghost use Rattle.std.specs.Map.{values_of};
    ghost use Rattle.repo_store.specs.ListedAnswers.{IsListed, ListedAnswers, listed_answers_code};

    ghost Value = { ListedAnswers };

    ghost coded = { listed_answers_code };

    ghost view = { λ list. record { answers = values_of list.cache.entries; limit = list.limit; next = list.next } };

    ghost invariant = { λ list. IsListed list.cache.entries list.cache.cap list.limit list.next };
}

impl AnswerList {
    /// No answers yet; the next use gets the first tick.
    pub(crate) fn new(alloc: Global, limit: u32) -> Result<AnswerList, OutOfMemory>
        requires { IsLimit limit }
        ensures { IfOk result (λ list. list ≡ record { answers = []; limit = limit; next = 1 }) }
    {
        let cache = LruCache::unbounded(alloc)?;
        Ok(AnswerList {
            cache,
            limit,
            next: 1,
        })
    }

    /// How many there are.
    pub(crate) fn len(&self) -> usize
        ensures count { result ≡ length self.now.answers }
        ensures keys { HaveOwnKeys self.now.answers }
    {
        self.cache.len()
    }

    /// How many there may be.
    pub(crate) fn limit(&self) -> u32
        ensures is { result ≡ self.now.limit }
        ensures within { IsLimit result }
    {
        self.limit
    }

    /// The tick that the next use gets.
    pub(crate) fn next(&self) -> u64
        ensures is { result ≡ self.now.next }
        ensures within { IsNextTick result }
    {
        self.next
    }

    /// The answer whose key has these digests, if there is one.
    pub(crate) fn find(&self, words: [u8; 32], seen: [u8; 32]) -> Option<&SharedAnswer>
        ensures found { IfSome result (λ answer. Contains self.now.answers answer.now) }
        ensures key { IfSome result (λ answer. spec.key_of answer.now ≡ (words, seen)) }
        ensures absent { IfNone result (AllByRecursion (λ (answer : KeptAnswer). ¬ (spec.key_of answer ≡ (words, seen)))
            self.now.answers) }
    {
        self.cache.peek(&(words, seen))
    }

    /// Whether the key of the first answer has these digests.
    pub(crate) fn is_first(&self, words: [u8; 32], seen: [u8; 32]) -> bool
        ensures { IsTrue result ↔ (listed.first_key self.now.answers ≡ Some (words, seen)) }
    {
        match self.cache.peek_mru() {
            Some((key, _answer)) => *key == (words, seen),
            None => false,
        }
    }

    /// The key of the last answer, if there is one.
    pub(crate) fn last_key(&self) -> Option<([u8; 32], [u8; 32])>
        ensures { result ≡ listed.last_key self.now.answers }
    {
        match self.cache.peek_lru() {
            Some((key, _answer)) => Some(*key),
            None => None,
        }
    }

    /// The first answer. There must be one.
    pub(crate) fn newest(&self) -> &SharedAnswer
        requires { self.now.answers ≢ [] }
        ensures { slice_get self.now.answers 0 ≡ Some result.now }
    {
        self.cache.peek_mru().unwrap().1
    }

    /// Puts an answer, whose key no other has, in front of the others.
    pub(crate) fn add(&mut self, answer: SharedAnswer) -> Result<(), OutOfMemory>
        requires { AllByRecursion (λ (other : KeptAnswer). ¬ (spec.key_of other ≡ spec.key_of answer))
            self.old.answers }
        ensures added { OnOk result (self.new ≡ record self.old { answers = answer ∷ self.old.answers }) }
        ensures same { OnErr result (self.new ≡ self.old) }
    {
        // The length of a cache without a bound is less than the most that it takes, so no entry is dropped.
        let _length = self.cache.len();
        self.cache.put(key_of(&answer), answer)?;
        Ok(())
    }

    /// Removes the first answer again.
    pub(crate) fn take_back(&mut self)
        ensures { self.new ≡ record self.old { answers = drop 1 self.old.answers } }
    {
        let _first = self.cache.pop_mru();
    }

    /// Replaces the answer of the same key, and puts the new one in front of the others.
    pub(crate) fn replace(&mut self, answer: SharedAnswer)
        requires there { Any (λ (other : KeptAnswer). spec.key_of other ≡ spec.key_of answer) self.old.answers }
        requires told { AllByRecursion (TellsKey answer) self.old.answers }
        ensures { self.new ≡ record self.old { answers = in_front answer self.old.answers } }
    {
        // The contract of `len` says that each key is in the cache once.
        let _length = self.cache.len();
        let _before = self.cache.put(key_of(&answer), answer);
    }

    /// Brings the answer whose key has these digests to the front. If there is none, nothing changes.
    pub(crate) fn bring(&mut self, words: [u8; 32], seen: [u8; 32])
        ensures { self.new ≡ record self.old { answers = brought_answers (words, seen) self.old.answers } }
    {
        // The contract of `len` says that each key is in the cache once.
        let _length = self.cache.len();
        let _there = self.cache.promote(&(words, seen));
    }

    /// Removes the last answer.
    pub(crate) fn drop_last(&mut self)
        ensures { self.new ≡ record self.old { answers = take (length self.old.answers - 1) self.old.answers } }
    {
        let _last = self.cache.pop_lru();
    }

    /// Sets how many there may be, and removes the last ones if there are more.
    pub(crate) fn keep(&mut self, limit: u32)
        requires { IsLimit limit }
        ensures { self.new ≡ record self.old { answers = take limit self.old.answers; limit = limit } }
    {
        'answers: while self.len() > limit as usize {
            self.drop_last();
        }
        self.limit = limit;
    }

    /// Removes all answers.
    pub(crate) fn clear(&mut self)
        ensures { self.new ≡ record self.old { answers = [] } }
    {
        self.cache.clear();
    }

    /// Goes on to the next tick.
    pub(crate) fn count_use(&mut self)
        requires { self.old.next ≤ greatest_tick }
        ensures { self.new ≡ record self.old { next = self.old.next + 1 } }
    {
        self.next += 1;
    }

    /// Sets the tick that the next use gets.
    pub(crate) fn set_next(&mut self, next: u64)
        requires { IsNextTick next }
        ensures { self.new ≡ record self.old { next = next } }
    {
        self.next = next;
    }

    /// Adds an answer in front of the others. If another has its key, that is `Sql`, since a table excludes
    /// it.
    pub(crate) fn admit(&mut self, answer: SharedAnswer) -> Result<(), StoreFault>
        ensures kept { OnOk result (self.new ≡ record self.old { answers = answer ∷ self.old.answers }) }
        ensures keys { OnOk result (HaveOwnKeys self.new.answers) }
        ensures same { OnErr result (self.new ≡ self.old) }
        ensures why { IfErr result (IsDamage ⊥) }
    {
        let (words, seen) = key_of(&answer);
        if self.find(words, seen).is_some() {
            return Err(StoreFault::Sql(Error::InvalidQuery));
        }
        self.add(answer)?;
        // The contract of `len` says that each key is in the list once.
        let _length = self.len();
        Ok(())
    }

    /// The keys, the least recently used first.
    pub(crate) fn keys(&self, alloc: Global) -> Result<Vec<([u8; 32], [u8; 32])>, OutOfMemory>
        ensures { IfOk result (λ keys. keys.items ≡ map spec.key_of (reverse self.now.answers)) }
    {
        let mut keys = Vec::new(alloc);
        'answers: for (key, _answer) in self.cache.iter() {
            keys.push(*key)?;
        }
        keys.reverse();
        Ok(keys)
    }
}

// The digests of an answer's key: of the record of its words and of that of its seen files.
fn key_of(answer: &SharedAnswer) -> ([u8; 32], [u8; 32])
    ensures { result ≡ spec.key_of answer.now }
{
    (
        answer.words_record().digest(),
        answer.seen_record().digest(),
    )
}
