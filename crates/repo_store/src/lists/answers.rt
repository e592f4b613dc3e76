//! The cached answers in memory.

ghost use Rattle.std.specs.Prelude.{◌≡◌, ◌≢◌, ◌↔◌, ◌<◌, ◌≤◌, [], ◌∷◌, false, map, length, drop, reverse, option_map, slice_get, Some, IfNone, IfOk, IfErr, IfSome, IsTrue, OnOk, OnErr};
ghost use Rattle.std.specs.List.{AllByRecursion, Any};
ghost use Rattle.repo_store.specs.AnswerRefs.{copied_answer, stored_answer};
ghost use Rattle.repo_store.specs.Answers.{KeptAnswer, answer_for};
ghost use Rattle.repo_store.specs.Complete.{IsComplete};
ghost use Rattle.repo_store.specs.Index.{key_of};
ghost use Rattle.repo_store.specs.Kept.{forgetting, limiting};
ghost use Rattle.repo_store.specs.ListedAnswers.{HaveAnswer, IsNextTick, brought_answers, first_key, last_key};
ghost use Rattle.store_faults.specs.Faults.{IsRefusal};
ghost use Rattle.repo_store.specs.KeptContents.{AreAllKept};
ghost use Rattle.store_faults.specs.Limits.{IsLimit};
ghost use Rattle.repo_store.specs.declared.answer_search.FoundAnswer.{FoundAnswer};
ghost use Rattle.repo_store.specs.Remembered.{TellsKey};
ghost use Rattle.repo_store.specs.Remembering.{AnyCollides, AreSmall, HasPlacedKey, SomeCollides, with_contents};
ghost use Rattle.repo_store.specs.UsedAnswers.{in_front};
ghost use Rattle.repo_store.specs.SoundAnswers.{IsSoundAnswer, KeepToSeen};
ghost use Rattle.repo_store.specs.WrittenAnswers.{contents_for, contents_of_key};

use super::Lists;
use crate::answer_contents::keep_answer;
use crate::answer_search::{FoundAnswer, known_seen, known_words, stored};
use crate::shared_answer::SharedAnswer;
use crate::{AnswerRef, StoreFault};
use hook_base::{OutOfMemory, Text, Tree};

impl Lists {
    /// How many answers are cached.
    pub(crate) fn count_answers(&self) -> u64
        ensures { result ≡ length self.now.kept.answers }
    {
        self.answers.len() as u64
    }

    /// An answer to be cached, whose contents are kept. A refusal leaves everything as it was.
    pub(crate) fn prepare_answer(
        &mut self,
        words: &[Text],
        seen: &Tree,
        answer: AnswerRef<'_>,
    ) -> Result<SharedAnswer, StoreFault>
        requires { KeepToSeen answer.changes.now seen.now }
        ensures answer { IfOk result (λ made. made ≡ copied_answer words.now seen.now answer.entry) }
        ensures sound { OnOk result (IsSoundAnswer (copied_answer words.now seen.now answer.entry)) }
        ensures kept { OnOk result (self.new.kept
            ≡ record self.old.kept {
              contents = with_contents
                  (contents_for (copied_answer words.now seen.now answer.entry)) self.old.kept.contents;
            }) }
        ensures same { OnErr result (self.new.kept ≡ self.old.kept) }
        ensures all { OnOk result (AreAllKept (contents_for (copied_answer words.now seen.now answer.entry))
            self.old.kept.contents self.new.kept.contents) }
        ensures why { IfErr result (IsRefusal
            (¬ AreSmall (contents_for (copied_answer words.now seen.now answer.entry))) ⊥
            (SomeCollides (contents_for (copied_answer words.now seen.now answer.entry)) self.old.kept.contents)) }
    {
        let alloc = *self.staged.allocator();
        keep_answer(alloc, &mut self.contents, words, seen, answer)
    }

    /// A copy of the answer that is cached for the words and the seen files, with its key, or `None` if there
    /// is none.
    pub(crate) fn find_answer(
        &self,
        words: &[Text],
        seen: &Tree,
    ) -> Result<Option<FoundAnswer>, StoreFault>
        requires { IsComplete self.now.kept }
        ensures found { IfOk result (λ found. option_map (λ (found : FoundAnswer). found.answer) found
            ≡ option_map stored_answer (answer_for words.now seen.now self.now.kept.answers)) }
        ensures key { IfOk result (λ found. IfSome found
            (λ found. HaveAnswer words.now seen.now self.now.kept.answers (found.words, found.seen))) }
        ensures apart { OnOk result (HasPlacedKey self.now.kept.contents words.now seen.now
            → ¬ AnyCollides (contents_of_key words.now seen.now) self.now.kept.contents) }
        ensures why { IfErr result (IsRefusal ⊥ ⊥
            (AnyCollides (contents_of_key words.now seen.now) self.now.kept.contents)) }
    {
        let alloc = *self.staged.allocator();
        let Some(words) = known_words(alloc, &self.contents, words)? else {
            return Ok(None);
        };
        let Some(seen) = known_seen(alloc, &self.contents, seen)? else {
            return Ok(None);
        };
        match self.answers.find(words, seen) {
            Some(answer) => {
                let answer = stored(alloc, answer)?;
                Ok(Some(FoundAnswer {
                    answer,
                    words,
                    seen,
                }))
            }
            None => Ok(None),
        }
    }

    /// How many answers are cached at most.
    pub(crate) fn answer_limit(&self) -> u32
        ensures is { result ≡ self.now.kept.limit }
        ensures within { IsLimit result }
    {
        self.answers.limit()
    }

    /// The tick that the next use of an answer had when the lists were read.
    pub(crate) fn next(&self) -> u64
        ensures { result ≡ self.now.next }
    {
        self.answers.next()
    }

    /// Sets the tick that the next use of an answer gets.
    pub(crate) fn set_next(&mut self, next: u64)
        requires { IsNextTick next }
        ensures kept { self.new.kept ≡ self.old.kept }
        ensures next { self.new.next ≡ next }
    {
        self.answers.set_next(next);
    }

    /// Whether the key of the most recently used answer has these digests.
    pub(crate) fn is_first_answer(&self, words: [u8; 32], seen: [u8; 32]) -> bool
        ensures { IsTrue result ↔ (first_key self.now.kept.answers ≡ Some (words, seen)) }
    {
        self.answers.is_first(words, seen)
    }

    /// Whether an answer with the key of this one is cached.
    pub(crate) fn has_key_of(&self, answer: &SharedAnswer) -> bool
        ensures there { IsTrue result → Any (λ (other : KeptAnswer). key_of other ≡ key_of answer.now)
            self.now.kept.answers }
        ensures absent { result ≡ false → AllByRecursion (λ (other : KeptAnswer). ¬ (key_of other ≡ key_of answer.now))
            self.now.kept.answers }
    {
        let words = answer.words_record().digest();
        let seen = answer.seen_record().digest();
        self.answers.find(words, seen).is_some()
    }

    /// The most recently used answer. There must be one.
    pub(crate) fn newest_answer(&self) -> &SharedAnswer
        requires { self.now.kept.answers ≢ [] }
        ensures { slice_get self.now.kept.answers 0 ≡ Some result.now }
    {
        self.answers.newest()
    }

    /// The key of the last answer, if there is one more than there may be.
    pub(crate) fn surplus(&self) -> Option<([u8; 32], [u8; 32])>
        ensures over { IfSome result (λ key. (self.now.kept.limit < length self.now.kept.answers)
            × (last_key self.now.kept.answers ≡ Some key)) }
        ensures within { IfNone result (length self.now.kept.answers ≤ self.now.kept.limit) }
    {
        if self.answers.len() <= self.answers.limit() as usize {
            return None;
        }
        self.answers.last_key()
    }

    /// The keys of all answers, that of the least recently used first.
    pub(crate) fn answer_keys(&self) -> Result<Vec<([u8; 32], [u8; 32])>, OutOfMemory>
        ensures { IfOk result (λ keys. keys.items ≡ map key_of (reverse self.now.kept.answers)) }
    {
        let alloc = *self.staged.allocator();
        self.answers.keys(alloc)
    }

    /// Puts an answer, whose key no other has, in front of the others. There may be one too many then.
    pub(crate) fn add_answer(&mut self, answer: SharedAnswer) -> Result<(), OutOfMemory>
        requires { AllByRecursion (λ (other : KeptAnswer). ¬ (key_of other ≡ key_of answer)) self.old.kept.answers }
        ensures added { OnOk result (self.new.kept ≡ record self.old.kept { answers = answer ∷ self.old.kept.answers }) }
        ensures same { OnErr result (self.new.kept ≡ self.old.kept) }
    {
        self.answers.add(answer)
    }

    /// Removes the first answer again.
    pub(crate) fn take_answer_back(&mut self)
        ensures { self.new.kept ≡ record self.old.kept { answers = drop 1 self.old.kept.answers } }
    {
        self.answers.take_back();
    }

    /// Replaces the answer of the same key, and puts the new one in front of the others.
    pub(crate) fn replace_answer(&mut self, answer: SharedAnswer)
        requires there { Any (λ (other : KeptAnswer). key_of other ≡ key_of answer) self.old.kept.answers }
        requires told { AllByRecursion (TellsKey answer) self.old.kept.answers }
        ensures { self.new.kept ≡ record self.old.kept { answers = in_front answer self.old.kept.answers } }
    {
        self.answers.replace(answer);
    }

    /// Brings the answer whose key has these digests to the front.
    pub(crate) fn bring_answer(&mut self, words: [u8; 32], seen: [u8; 32])
        ensures { self.new.kept ≡ record self.old.kept
            { answers = brought_answers (words, seen) self.old.kept.answers } }
    {
        self.answers.bring(words, seen);
    }

    /// Sets how many answers are cached at most, and removes the least recently used if there are more.
    pub(crate) fn limit_answers(&mut self, limit: u32)
        requires { IsLimit limit }
        ensures { self.new.kept ≡ limiting limit self.old.kept }
    {
        self.answers.keep(limit);
    }

    /// Forgets all answers.
    pub(crate) fn forget_answers(&mut self)
        ensures { self.new.kept ≡ forgetting self.old.kept }
    {
        self.answers.clear();
    }
}
