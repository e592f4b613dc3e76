//! A cached answer in memory.

ghost use Rattle.std.specs.Prelude.{◌≡◌, map};
ghost use Rattle.repo_store.specs.Lists.{file_of, fix_of};
ghost use Rattle.repo_store.specs.SharedAnswers.{IsWritten, answer_of};
ghost use Rattle.repo_store.specs.WrittenAnswers.{written_changes, written_seen, written_words};

use crate::shared::{ListedFile, SharedFix};
use hook_base::{Content, Items, Text};
use std::marker::Model;

/// The records of an answer (docs/REFERENCE.md, "The store").
#[derive(Drop)]
pub(crate) struct AnswerRecords {
    /// Of the words of its command.
    pub(crate) words: Content,
    /// Of the files that its child saw.
    pub(crate) seen: Content,
    /// Of the child's changes.
    pub(crate) changes: Content,
}

/// A cached answer, with its records. Contracts see the answer.
#[derive(Drop)]
pub(crate) struct SharedAnswer {
    words: Items<Text>,
    seen: Vec<ListedFile>,
    output: Content,
    changes: Vec<SharedFix>,
    status: u8,
    records: AnswerRecords,
}

impl Model for SharedAnswer {
    ghost use Rattle.repo_store.specs.Answers.{KeptAnswer, answer_code};

    ghost Value = { KeptAnswer };

    ghost coded = { answer_code };

    ghost use Rattle.repo_store.specs.SharedAnswers.{IsWritten, answer_of};

    ghost view = { λ answer. answer_of answer.words answer.seen.items answer.output answer.changes.items answer.status };

    ghost invariant = { λ answer. IsWritten (answer_of answer.words answer.seen.items answer.output answer.changes.items
        answer.status) answer.records.words answer.records.seen answer.records.changes };
}

impl SharedAnswer {
    /// The answer of these parts and records.
    pub(crate) fn of(
        words: Items<Text>,
        seen: Vec<ListedFile>,
        output: Content,
        changes: Vec<SharedFix>,
        status: u8,
        records: AnswerRecords,
    ) -> SharedAnswer
        requires { IsWritten (answer_of words seen.items output changes.items status) records.words records.seen
            records.changes }
        ensures { result ≡ answer_of words seen.items output changes.items status }
    {
        SharedAnswer {
            words,
            seen,
            output,
            changes,
            status,
            records,
        }
    }

    /// The record of the words of its command.
    pub(crate) fn words_record(&self) -> &Content
        ensures { result.now ≡ written_words self.now }
    {
        &self.records.words
    }

    /// The record of the files that its child saw.
    pub(crate) fn seen_record(&self) -> &Content
        ensures { result.now ≡ written_seen self.now }
    {
        &self.records.seen
    }

    /// The record of its child's changes.
    pub(crate) fn changes_record(&self) -> &Content
        ensures { result.now ≡ written_changes self.now }
    {
        &self.records.changes
    }

    /// Its child's output.
    pub(crate) fn output(&self) -> &Content
        ensures { result.now ≡ self.now.output }
    {
        &self.output
    }

    /// Its child's changes.
    pub(crate) fn changes(&self) -> &[SharedFix]
        ensures { map fix_of result.now ≡ self.now.changes }
    {
        self.changes.as_slice()
    }

    /// Its exit code.
    pub(crate) fn status(&self) -> u8
        ensures { result ≡ self.now.status }
    {
        self.status
    }
}
