//! The calls on a store. Each first prepares in memory what may be refused there, then changes the tables,
//! and then the memory.

ghost use Rattle.std.specs.List.{Any};
ghost use Rattle.std.specs.Prelude.{◌≡◌, ◌≢◌, ◌↔◌, ◌⊎◌, ◌+◌, ◌<◌, ◌≤◌, [], false, length, is_some, option_map, slice_get, IfOk, IfErr, IfSome, OnOk, MatchResult, IsTrue};
ghost use Rattle.std.specs.Option.{option_copied};
ghost use Rattle.sha2.specs.Sha256.{sha256};
ghost use Rattle.hook_base.specs.declared.file.FileEntry.{FileEntry};
ghost use Rattle.hook_base.specs.Paths.{message_path};
ghost use Rattle.hook_base.specs.Trees.{IsRising, IsRisingChanges, entry_of, put_file};
ghost use Rattle.store_tables.specs.Schema.{no_schema, schema_with_uses};
ghost use Rattle.sqlite.specs.Held.{state};
ghost use Rattle.sqlite.specs.State.{HasCleanDisk, Survives};
ghost use Rattle.repo_store.specs.Calls.{Rests};
ghost use Rattle.repo_store.specs.AllOrNothing.{IsAllOrNothing};
ghost use Rattle.repo_store.specs.AnswerRefs.{copied_answer, stored_answer};
ghost use Rattle.repo_store.specs.Answers.{HaveOwnKeys, KeptAnswer, answer_for};
ghost use Rattle.repo_store.specs.Bounded.{HoldsStore, IsTakenOver};
ghost use Rattle.repo_store.specs.Clashes.{Clashes};
ghost use Rattle.repo_store.specs.Complete.{AreAlike};
ghost use Rattle.repo_store.specs.Contents.{Collides};
ghost use Rattle.repo_store.specs.Edits.{AreEditable, IsStagingRefusal, all_edited};
ghost use Rattle.store_faults.specs.Faults.{IsRefusal};
ghost use Rattle.repo_store.specs.FileRefs.{copied_file};
ghost use Rattle.repo_store.specs.Kept.{FixCollides, HasLarge, Kept, accepting, committing, forgetting, keeping, limiting, nothing_kept, setting, staging, unstaging, using};
ghost use Rattle.repo_store.specs.Index.{key_of};
ghost use Rattle.repo_store.specs.Standing.{bringing};
ghost use Rattle.store_faults.specs.Limits.{Fits, IsLimit, IsSmall, most_commits};
ghost use Rattle.repo_store.specs.Log.{log_from};
ghost use Rattle.repo_store.specs.Remembering.{AnyCollides, AreSmall, HasPlacedKey, SomeCollides, remembering};
ghost use Rattle.repo_store.specs.Repository.{Commit, commit_at, fixed_bytes, last_tree, staged_changes, tree_at};
ghost use Rattle.repo_store.specs.Shown.{IsNumberedAnew, IsOneTransaction, IsOneUse, Leaves, LeavesOnly, Stands, TakesOver};
ghost use Rattle.repo_store.specs.SoundAnswers.{KeepToSeen};
ghost use Rattle.repo_store.specs.Unfit.{IsUnfit};
ghost use Rattle.repo_store.specs.UsesOf.{greatest_tick};
ghost use Rattle.repo_store.specs.WrittenAnswers.{contents_for, contents_of_key};

use crate::accept::accept_rows;
use crate::answer_puts::put_prepared;
use crate::blobs::keep_rows;
use crate::commit::commit_rows;
use crate::create::{has_no_tables, make};
use crate::edits::edit_rows;
use crate::fixes::set_rows;
use crate::forget::forget_rows;
use crate::limits::GREATEST_TICK;
use crate::lists::{Edited, Lists};
use crate::stage::stage_rows;
use crate::take_over::find_store;
use crate::unstage::unstage_rows;
use crate::uses::{limit_rows, renumber_rows, use_rows};
use crate::{
    AnswerRef, Digest, FileRef, LogEntry, StagingEdit, StagingFault, StagingRefusal, StoreFault,
    StoredAnswer,
};
use hook_base::{Change, Mode, OutOfMemory, RepoPath, Text, Tree};
use sqlite::{Alter, Connection, Error, ErrorCode};
use std::alloc::Global;
use std::marker::Model;
use store_faults::fault_of;

/// A repository in a database: its commits, the staged files, the fixes and the cached answers of children.
/// There are no more answers than a limit, the most recently used first.
///
/// Each call that changes it is one transaction: it is done as a whole or not at all, whatever stops it.
/// `StoreFault` says what a refused call leaves in the tables. The calls that read use only the memory, but a
/// look-up of an answer notes that it was used.
pub struct Store<S: Alter> {
    conn: Connection<S>,
    lists: Lists,
    // The tick that the next use of an answer gets.
    next: u64,
}

// Written out, so that a caller doesn't prove again how each part is dropped.
impl<S: Alter + Drop> Drop for Store<S> {
    fn drop(self) {
        let Store {
            conn: _,
            lists: _,
            next: _,
        } = self;
    }
}

impl<S: Alter> Model for Store<S> {
    ghost use Rattle.repo_store.specs.Shown.{Shown, shown_code};
    ghost use Rattle.repo_store.specs.Standing.{StandsAtTick};

    ghost Value = { Shown S };

    ghost coded = { shown_code S.code };

    ghost view = { λ store. record { conn = store.conn; kept = store.lists.kept; next = store.next } };

    ghost invariant = { λ store. StandsAtTick S.Store store.conn store.lists.kept store.next };
}

impl<S: Alter> Store<S> {
    /// Makes an empty store of version 2 in a database that has no tables (docs/REFERENCE.md, "The store").
    /// The connection must be outside a transaction.
    ///
    /// A database that has tables, indexes or views is refused as `Sql` with the error code `NameTaken`, and
    /// returned as it was. Any refusal returns the connection, with the tables as before if it is still open.
    pub fn create(
        alloc: Global,
        conn: Connection<S>,
    ) -> Result<Store<S>, (StoreFault, Connection<S>)>
        requires { conn.in_transaction ≡ false }
        ensures made { IfOk result (λ store. store.kept ≡ nothing_kept) }
        ensures stands { IfOk result (λ store. Stands S.Store store.conn store.kept) }
        ensures occupied { IsTrue (state S.Store conn).is_open → (state S.Store conn).now.schema ≢ no_schema
            → MatchResult result (λ _. ⊥) (λ e. (e.0 ≡ StoreFault.Sql (Error.SqliteFailure ErrorCode.NameTaken))
            × (e.1 ≡ conn)) }
        ensures was_bare { IfOk result (λ _. IsTrue (state S.Store conn).is_open
            → (state S.Store conn).now.schema ≡ no_schema) }
        ensures why { IfErr result (λ e. IsRefusal ⊥ ⊥ ⊥ e.0) }
        ensures refused { IfErr result (λ e. Rests (state S.Store conn) (state S.Store e.1)) }
        ensures outside { IfErr result (λ e. e.1.in_transaction ≡ false) }
        ensures crash_made { IfOk result (λ store. Survives (state S.Store conn) (state S.Store store.conn)
            (Leaves nothing_kept)) }
        ensures crash_refused { IfErr result (λ e. Survives (state S.Store conn) (state S.Store e.1)
            (Leaves nothing_kept)) }
        ensures durable { IfOk result (λ store. LeavesOnly S.Store store.conn nothing_kept) }
    {
        let mut conn = conn;
        if !has_no_tables(&conn) {
            let taken = Error::SqliteFailure(ErrorCode::NameTaken);
            return Err((StoreFault::Sql(taken), conn));
        }
        let Ok(lists) = Lists::new(alloc) else {
            return Err((StoreFault::OutOfMemory, conn));
        };
        match make(&mut conn) {
            Ok(()) => Ok(Store {
                conn,
                lists,
                next: 1,
            }),
            Err(error) => Err((fault_of(error), conn)),
        }
    }

    /// Opens the store that a database holds. The connection must be outside a transaction.
    ///
    /// A store of version 2 is read, and nothing is changed. One of version 1 is migrated to version 2 in one
    /// transaction (docs/REFERENCE.md, "A store of version 1"). Its limit is then 10,000, and its answers
    /// count as used in the order of their keys, the greatest last. If there are more than the limit, those
    /// with the smallest keys are removed.
    ///
    /// `NotAStore` is a database that hasn't exactly the tables of a store of a known version, or whose
    /// `meta` doesn't say that it is of that version. `Damaged` are tables whose rows break a rule of a
    /// store. What a crash left of a store is never `NotAStore` or `Damaged`.
    ///
    /// `Sql` also comes with the error code `NoRowid`, if a row has the greatest rowid, since no row could be
    /// added after it; only another program writes such a row. A refusal returns the connection, with the
    /// tables as before if it is still open.
    pub fn open(alloc: Global, conn: Connection<S>) -> Result<Store<S>, (StoreFault, Connection<S>)>
        requires { conn.in_transaction ≡ false }
        ensures stands { IfOk result (λ store. Stands S.Store store.conn store.kept) }
        ensures holds { IfOk result (λ store. IsTrue (state S.Store store.conn).is_open
            → HoldsStore (state S.Store conn).committed store.kept
            ⊎ IsTakenOver (state S.Store conn).committed store.kept) }
        ensures again { IfOk result (λ store. IsTrue (state S.Store store.conn).is_open → (kept : Kept)
            → Leaves kept (state S.Store conn).committed.trees → AreAlike store.kept kept) }
        ensures same { IfOk result (λ store. (state S.Store conn).now.schema ≡ schema_with_uses
            → Rests (state S.Store conn) (state S.Store store.conn)) }
        ensures refused { IfErr result (λ e. Rests (state S.Store conn) (state S.Store e.1)) }
        ensures outside { IfErr result (λ e. e.1.in_transaction ≡ false) }
        ensures why { IfErr result (λ e. HasCleanDisk (state S.Store e.1) → IsUnfit (state S.Store conn).now e.0) }
        ensures left { IfErr result (λ e. HasCleanDisk (state S.Store e.1) → IsTrue (state S.Store conn).is_open
            → (kept : Kept) → Leaves kept (state S.Store conn).committed.trees → IsRefusal ⊥ ⊥ ⊥ e.0) }
        ensures crash_opened { IfOk result (λ store. Survives (state S.Store conn) (state S.Store store.conn)
            (TakesOver (state S.Store conn).now)) }
        ensures crash_refused { IfErr result (λ e. Survives (state S.Store conn) (state S.Store e.1)
            (TakesOver (state S.Store conn).now)) }
        ensures durable { IfOk result (λ store. LeavesOnly S.Store store.conn store.kept) }
    {
        let mut conn = conn;
        match find_store(alloc, &mut conn) {
            Ok(lists) => {
                let next = lists.next();
                Ok(Store { conn, lists, next })
            }
            Err(fault) => Err((fault, conn)),
        }
    }

    /// Stages a file, in place of the one at its path, and forgets the fixes. The path must not be that of
    /// the commit's message.
    ///
    /// Refused are, in this order:
    /// - `TooLarge`: contents of more than 16 MiB;
    /// - `TooMany`: a staged tree of more than 100,000 files or 8 MiB of paths;
    /// - `Collision`: contents whose digest is that of others.
    ///
    /// A refusal leaves what the store shows as it was.
    pub fn stage(&mut self, path: &RepoPath, mode: Mode, bytes: &[u8]) -> Result<(), StoreFault>
        requires { path.now ≢ message_path }
        ensures change { IsAllOrNothing self.old.kept self.new.kept result
            (staging path.now (record { mode = mode; bytes = bytes.now }) self.old.kept) }
        ensures transaction { IsOneTransaction S.Store self.old self.new result
            (staging path.now (record { mode = mode; bytes = bytes.now }) self.old.kept) }
        ensures within { OnOk result (IsSmall bytes.now
            × Fits (put_file path.now (record { mode = mode; bytes = bytes.now }) self.old.kept.repo.staged)) }
        ensures apart { OnOk result (¬ Collides bytes.now self.old.kept.contents) }
        ensures why { IfErr result (IsRefusal (¬ IsSmall bytes.now)
            (IsSmall bytes.now × (¬ Fits (put_file path.now (record { mode = mode; bytes = bytes.now })
            self.old.kept.repo.staged)))
            (IsSmall bytes.now × Fits (put_file path.now (record { mode = mode; bytes = bytes.now })
            self.old.kept.repo.staged) × Collides bytes.now self.old.kept.contents)) }
    {
        let before = self.lists.count();
        let file = self.lists.prepare(path, mode, bytes)?;
        if let Err(error) = stage_rows(&mut self.conn, self.lists.since(before), &file) {
            self.lists.forget_since(before);
            return Err(fault_of(error));
        }
        self.lists.stage(file);
        Ok(())
    }

    /// Removes a path from the staged files, if it is there, and forgets the fixes. A refusal leaves what the
    /// store shows as it was.
    pub fn unstage(&mut self, path: &RepoPath) -> Result<(), StoreFault>
        ensures change { IsAllOrNothing self.old.kept self.new.kept result (unstaging path.now self.old.kept) }
        ensures transaction { IsOneTransaction S.Store self.old self.new result (unstaging path.now self.old.kept) }
        ensures why { IfErr result (IsRefusal ⊥ ⊥ ⊥) }
    {
        if let Err(error) = unstage_rows(&mut self.conn, path) {
            return Err(fault_of(error));
        }
        self.lists.unstage(path);
        Ok(())
    }

    /// Makes several changes of the staged files, each of what those before it left, and forgets the fixes.
    /// All are made in one transaction, or none is. There must be at least one. A file without a mode keeps
    /// that of the staged file at its path, and is plain if there is none.
    ///
    /// The refusal is that of the first change that is refused. For an added file it is, in this order:
    /// - `BadPath`: the text is no valid path;
    /// - `TooLarge`: its contents have more than 16 MiB;
    /// - `Clash`: its path is a folder of a staged one, or a staged one is a folder of it;
    /// - `TooMany`: the staged tree would have more than 100,000 files or 8 MiB of paths;
    /// - `Collision`: the digest of its contents is that of others.
    ///
    /// For a removed path it is `BadPath`, or `NotStaged` if the path isn't staged. Memory may be refused at
    /// one change or for all together, and the database refuses all together. A refusal leaves what the store
    /// shows as it was.
    pub fn stage_all(&mut self, edits: &[StagingEdit]) -> Result<(), StagingRefusal>
        requires { edits.now ≢ [] }
        ensures change { IsAllOrNothing self.old.kept self.new.kept result (all_edited edits.now self.old.kept) }
        ensures transaction { IsOneTransaction S.Store self.old self.new result (all_edited edits.now self.old.kept) }
        ensures editable { OnOk result (AreEditable edits.now self.old.kept) }
        ensures refused { IfErr result (IsStagingRefusal edits.now self.old.kept) }
        ensures asked { IfErr result (λ _. (self.new.conn ≡ self.old.conn) ⊎ AreEditable edits.now self.old.kept) }
    {
        let Edited { made, before } = self.lists.edit_all(edits)?;
        let news = self.lists.since(before.count);
        if let Err(error) = edit_rows(&mut self.conn, news, made.as_slice()) {
            self.lists.restore(before);
            return Err(StagingRefusal {
                at: None,
                fault: StagingFault::Store(fault_of(error)),
            });
        }
        Ok(())
    }

    /// Sets the fixes to those of the changes that are of staged files; the others are dropped unread. The
    /// changes must be in the order of their paths, without duplicates. Refused are fixes with contents of
    /// more than 16 MiB (`TooLarge`), and those whose digest is that of others (`Collision`). A refusal
    /// leaves what the store shows as it was.
    pub fn set_fixes(&mut self, changes: &[Change]) -> Result<(), StoreFault>
        requires { IsRisingChanges changes.now }
        ensures change { IsAllOrNothing self.old.kept self.new.kept result (setting changes.now self.old.kept) }
        ensures transaction { IsOneTransaction S.Store self.old self.new result (setting changes.now self.old.kept) }
        ensures within { OnOk result (¬ HasLarge (staged_changes changes.now self.old.kept.repo.staged)) }
        ensures apart { OnOk result (¬ FixCollides (staged_changes changes.now self.old.kept.repo.staged)
            self.old.kept.contents) }
        ensures why { IfErr result (IsRefusal (HasLarge (staged_changes changes.now self.old.kept.repo.staged)) ⊥
            (FixCollides (staged_changes changes.now self.old.kept.repo.staged) self.old.kept.contents)) }
    {
        let before = self.lists.count();
        let were_none = self.lists.has_no_fixes();
        let fixes = self.lists.prepare_fixes(changes)?;
        let news = self.lists.since(before);
        if let Err(error) = set_rows(&mut self.conn, news, fixes.as_slice(), were_none) {
            self.lists.forget_since(before);
            return Err(fault_of(error));
        }
        self.lists.set_fixes(fixes);
        Ok(())
    }

    /// Applies the fixes to the staged files, forgets them, and returns how many there were. A refusal leaves
    /// what the store shows as it was.
    pub fn accept(&mut self) -> Result<u32, StoreFault>
        ensures change { IsAllOrNothing self.old.kept self.new.kept result (accepting self.old.kept) }
        ensures transaction { IsOneTransaction S.Store self.old self.new result (accepting self.old.kept) }
        ensures number { IfOk result (λ n. n ≡ length self.old.kept.repo.fixes) }
        ensures why { IfErr result (IsRefusal ⊥ ⊥ ⊥) }
    {
        let number = self.lists.count_fixes();
        let accepted = self.lists.prepare_accept()?;
        let fixes = self.lists.shared_fixes();
        if let Err(error) = accept_rows(&mut self.conn, fixes, accepted.as_slice()) {
            return Err(fault_of(error));
        }
        self.lists.accept(accepted);
        Ok(number)
    }

    /// Adds a commit of the staged files, forgets the fixes, and returns the commit's number, from 1 on.
    /// Refused are, in this order, a message of more than 16 MiB (`TooLarge`), and a commit beyond 100,000
    /// (`TooMany`). A refusal leaves what the store shows as it was.
    pub fn commit(&mut self, message: &[u8]) -> Result<u32, StoreFault>
        ensures change { IsAllOrNothing self.old.kept self.new.kept result (committing message.now self.old.kept) }
        ensures transaction { IsOneTransaction S.Store self.old self.new result (committing message.now self.old.kept) }
        ensures number { IfOk result (λ n. n ≡ length self.old.kept.repo.history + 1) }
        ensures within { OnOk result (IsSmall message.now × (length self.old.kept.repo.history < most_commits)) }
        ensures why { IfErr result (IsRefusal (¬ IsSmall message.now)
            (IsSmall message.now × (most_commits ≤ length self.old.kept.repo.history)) ⊥) }
    {
        let commit = self.lists.prepare_commit(message)?;
        let number = self.lists.count_commits() + 1;
        if let Err(error) = commit_rows(&mut self.conn, number, &commit) {
            return Err(fault_of(error));
        }
        self.lists.commit(commit);
        Ok(number)
    }

    /// Keeps contents, and returns their digest. Refused are contents of more than 16 MiB (`TooLarge`), and
    /// those whose digest is that of others (`Collision`). A refusal leaves what the store shows as it was.
    pub fn blob_put(&mut self, bytes: &[u8]) -> Result<Digest, StoreFault>
        ensures change { IsAllOrNothing self.old.kept self.new.kept result (keeping bytes.now self.old.kept) }
        ensures transaction { IsOneTransaction S.Store self.old self.new result (keeping bytes.now self.old.kept) }
        ensures digest { IfOk result (λ digest. digest.bytes ≡ sha256 bytes.now) }
        ensures within { OnOk result (IsSmall bytes.now) }
        ensures apart { OnOk result (¬ Collides bytes.now self.old.kept.contents) }
        ensures why { IfErr result (IsRefusal (¬ IsSmall bytes.now) ⊥
            (IsSmall bytes.now × Collides bytes.now self.old.kept.contents)) }
    {
        let before = self.lists.count();
        let content = self.lists.keep(bytes)?;
        if let Err(error) = keep_rows(&mut self.conn, self.lists.since(before)) {
            self.lists.forget_since(before);
            return Err(fault_of(error));
        }
        Ok(Digest {
            bytes: content.digest(),
        })
    }

    /// Caches an answer to the words of a command and the files that its child saw. It is put in front of the
    /// others, and replaces the one of the same key, if any. If there are then more than the limit, the last
    /// one is removed. Each change must be of a seen file.
    ///
    /// The contents are kept in this order: those of the seen files, the new ones of the changes, the records
    /// of the words and of the seen files, the output, and the record of the changes. Refused are contents or
    /// records of more than 16 MiB (`TooLarge`), and those whose digest is that of others (`Collision`). A
    /// refusal leaves what the store shows as it was.
    pub fn answer_put(
        &mut self,
        words: &[Text],
        seen: &Tree,
        answer: AnswerRef<'_>,
    ) -> Result<(), StoreFault>
        requires { KeepToSeen answer.changes.now seen.now }
        ensures change { IsAllOrNothing self.old.kept self.new.kept result
            (remembering (copied_answer words.now seen.now answer.entry) self.old.kept) }
        ensures transaction { IsOneUse S.Store self.old self.new result
            (remembering (copied_answer words.now seen.now answer.entry) self.old.kept) }
        ensures within { OnOk result (AreSmall (contents_for (copied_answer words.now seen.now answer.entry))) }
        ensures apart { OnOk result (¬ SomeCollides (contents_for (copied_answer words.now seen.now answer.entry))
            self.old.kept.contents) }
        ensures why { IfErr result (IsRefusal
            (¬ AreSmall (contents_for (copied_answer words.now seen.now answer.entry))) ⊥
            (SomeCollides (contents_for (copied_answer words.now seen.now answer.entry)) self.old.kept.contents)) }
    {
        self.leave_a_tick()?;
        self.put_answer(words, seen, answer)
    }

    // The same, if a tick is left.
    fn put_answer(
        &mut self,
        words: &[Text],
        seen: &Tree,
        answer: AnswerRef<'_>,
    ) -> Result<(), StoreFault>
        requires keeps_to_seen { KeepToSeen answer.changes.now seen.now }
        requires left { self.old.next ≤ greatest_tick }
        ensures change { IsAllOrNothing self.old.kept self.new.kept result
            (remembering (copied_answer words.now seen.now answer.entry) self.old.kept) }
        ensures transaction { IsOneTransaction S.Store self.old self.new result
            (remembering (copied_answer words.now seen.now answer.entry) self.old.kept) }
        ensures within { OnOk result (AreSmall (contents_for (copied_answer words.now seen.now answer.entry))) }
        ensures apart { OnOk result (¬ SomeCollides (contents_for (copied_answer words.now seen.now answer.entry))
            self.old.kept.contents) }
        ensures why { IfErr result (IsRefusal
            (¬ AreSmall (contents_for (copied_answer words.now seen.now answer.entry))) ⊥
            (SomeCollides (contents_for (copied_answer words.now seen.now answer.entry)) self.old.kept.contents)) }
    {
        let before = self.lists.count();
        let answer = self.lists.prepare_answer(words, seen, answer)?;
        if let Err(fault) = put_prepared(
            &mut self.conn,
            &mut self.lists,
            before,
            answer,
            self.next,
        ) {
            self.lists.forget_since(before);
            return Err(fault);
        }
        self.next += 1;
        Ok(())
    }

    // Renumbers the uses if no tick is left for one more (docs/REFERENCE.md, "The store").
    fn leave_a_tick(&mut self) -> Result<(), StoreFault>
        ensures same { self.new.kept ≡ self.old.kept }
        ensures left { OnOk result (self.new.next ≤ greatest_tick) }
        ensures numbered { (self.new ≡ self.old) ⊎ IsNumberedAnew S.Store self.old self.new }
        ensures stands { Stands S.Store self.new.conn self.new.kept }
        ensures why { IfErr result (IsRefusal ⊥ ⊥ ⊥) }
    {
        if self.next <= GREATEST_TICK {
            return Ok(());
        }
        let keys = self.lists.answer_keys()?;
        if let Err(error) = renumber_rows(&mut self.conn, keys.as_slice()) {
            return Err(fault_of(error));
        }
        self.next = keys.len() as u64 + 1;
        Ok(())
    }

    /// A copy of the answer that is cached for the words of a command and the files that its child saw, with
    /// their modes and bytes. It is `None` if there is none. The answer is brought to the front: that is a
    /// transaction, unless it is there already.
    ///
    /// Bytes are compared, not only digests. The contents have their digests already, so none is hashed
    /// again. If other bytes are kept under a digest of the key, the call is refused as `Collision`. These
    /// digests are those of the seen files' contents and of the records of the words and of the seen files.
    /// If nothing is kept under one of them, no answer is cached: then the result may be `None`, whatever is
    /// kept under the others.
    ///
    /// Otherwise memory or the database may refuse. A refusal leaves what the store shows as it was.
    pub fn answer_find(
        &mut self,
        words: &[Text],
        seen: &Tree,
    ) -> Result<Option<StoredAnswer>, StoreFault>
        ensures found { IfOk result (λ found. found
            ≡ option_map stored_answer (answer_for words.now seen.now self.old.kept.answers)) }
        ensures change { IsAllOrNothing self.old.kept self.new.kept result (using words.now seen.now self.old.kept) }
        ensures transaction { (self.new ≡ self.old)
            ⊎ IsOneUse S.Store self.old self.new result (using words.now seen.now self.old.kept) }
        ensures apart { OnOk result (HasPlacedKey self.old.kept.contents words.now seen.now
            → ¬ AnyCollides (contents_of_key words.now seen.now) self.old.kept.contents) }
        ensures why { IfErr result (IsRefusal ⊥ ⊥
            (AnyCollides (contents_of_key words.now seen.now) self.old.kept.contents)) }
        ensures keys { HaveOwnKeys self.old.kept.answers }
    {
        let Some(found) = self.lists.find_answer(words, seen)? else {
            return Ok(None);
        };
        if !self.lists.is_first_answer(found.words, found.seen) {
            self.leave_a_tick()?;
            self.use_answer(found.words, found.seen)?;
        }
        Ok(Some(found.answer))
    }

    /// Whether an answer is cached for the words of a command and the files that its child saw. Nothing
    /// changes. Memory may refuse it, and so may contents of others under a digest of the key (`Collision`).
    pub fn has_answer(&self, words: &[Text], seen: &Tree) -> Result<bool, StoreFault>
        ensures held { IfOk result (λ held. held ≡ is_some (answer_for words.now seen.now self.now.kept.answers)) }
        ensures why { IfErr result (IsRefusal ⊥ ⊥
            (AnyCollides (contents_of_key words.now seen.now) self.now.kept.contents)) }
    {
        let found = self.lists.find_answer(words, seen)?;
        Ok(found.is_some())
    }

    // Brings the answer of a key to the front. There must be one, and a tick must be left.
    fn use_answer(&mut self, words: [u8; 32], seen: [u8; 32]) -> Result<(), StoreFault>
        requires there { Any (λ (answer : KeptAnswer). key_of answer ≡ (words, seen)) self.old.kept.answers }
        requires left { self.old.next ≤ greatest_tick }
        ensures change { IsAllOrNothing self.old.kept self.new.kept result (bringing (words, seen) self.old.kept) }
        ensures transaction { IsOneTransaction S.Store self.old self.new result (bringing (words, seen) self.old.kept) }
        ensures why { IfErr result (IsRefusal ⊥ ⊥ ⊥) }
    {
        if let Err(error) = use_rows(&mut self.conn, &words, &seen, self.next) {
            return Err(fault_of(error));
        }
        self.lists.bring_answer(words, seen);
        self.next += 1;
        Ok(())
    }

    /// How many answers are cached at most: from 1 to 100,000. It takes no memory.
    pub fn answer_limit(&self) -> u32
        ensures limit { result ≡ self.now.kept.limit }
        ensures within { IsLimit self.now.kept.limit }
        ensures few { length self.now.kept.answers ≤ self.now.kept.limit }
    {
        self.lists.answer_limit()
    }

    /// Sets how many answers are cached at most, which must be from 1 to 100,000. If there are more, the
    /// least recently used are removed; their contents stay. A refusal leaves what the store shows as it was.
    pub fn set_answer_limit(&mut self, limit: u32) -> Result<(), StoreFault>
        requires { IsLimit limit }
        ensures change { IsAllOrNothing self.old.kept self.new.kept result (limiting limit self.old.kept) }
        ensures transaction { IsOneTransaction S.Store self.old self.new result (limiting limit self.old.kept) }
        ensures why { IfErr result (IsRefusal ⊥ ⊥ ⊥) }
    {
        let keys = self.lists.answer_keys()?;
        let surplus = keys.len().saturating_sub(limit as usize);
        if let Err(error) = limit_rows(&mut self.conn, &keys.as_slice()[..surplus], limit) {
            return Err(fault_of(error));
        }
        self.lists.limit_answers(limit);
        Ok(())
    }

    /// Removes all cached answers, and returns how many there were. Their contents and the limit stay. A
    /// refusal leaves what the store shows as it was.
    pub fn answers_forget(&mut self) -> Result<u64, StoreFault>
        ensures change { IsAllOrNothing self.old.kept self.new.kept result (forgetting self.old.kept) }
        ensures transaction { IsOneTransaction S.Store self.old self.new result (forgetting self.old.kept) }
        ensures number { IfOk result (λ n. n ≡ length self.old.kept.answers) }
        ensures why { IfErr result (IsRefusal ⊥ ⊥ ⊥) }
    {
        let number = self.lists.count_answers();
        if let Err(error) = forget_rows(&mut self.conn) {
            return Err(fault_of(error));
        }
        self.lists.forget_answers();
        Ok(number)
    }

    /// How many answers are cached. It takes no memory.
    pub fn answers_len(&self) -> u64
        ensures number { result ≡ length self.now.kept.answers }
        ensures few { length self.now.kept.answers ≤ self.now.kept.limit }
        ensures keys { HaveOwnKeys self.now.kept.answers }
    {
        self.lists.count_answers()
    }

    /// The staged files. It fails only for lack of memory.
    pub fn staged(&self) -> Result<Tree, OutOfMemory>
        ensures tree { IfOk result (λ tree. tree ≡ self.now.kept.repo.staged) }
        ensures rising { IsRising self.now.kept.repo.staged }
    {
        self.lists.staged()
    }

    /// The files of the last commit, or an empty tree if there is no commit. It fails only for lack of
    /// memory.
    pub fn head(&self) -> Result<Tree, OutOfMemory>
        ensures tree { IfOk result (λ tree. tree ≡ last_tree self.now.kept.repo.history) }
        ensures rising { IsRising (last_tree self.now.kept.repo.history) }
    {
        self.lists.head()
    }

    /// The fixes, in the order of their paths. It fails only for lack of memory.
    pub fn fixes(&self) -> Result<Vec<Change>, OutOfMemory>
        ensures fixes { IfOk result (λ fixes. fixes.items ≡ self.now.kept.repo.fixes) }
        ensures rising { IsRisingChanges self.now.kept.repo.fixes }
    {
        self.lists.fixes()
    }

    /// The commits with their numbers, the oldest first. It fails only for lack of memory.
    pub fn log(&self) -> Result<Vec<LogEntry>, OutOfMemory>
        ensures { IfOk result (λ log. log.items ≡ log_from 1 self.now.kept.repo.history) }
    {
        self.lists.log()
    }

    /// The files of a commit, or `None` if no commit has the number. It fails only for lack of memory.
    pub fn tree_of(&self, number: u32) -> Result<Option<Tree>, OutOfMemory>
        ensures tree { IfOk result (λ tree. tree
            ≡ option_map (λ (commit : Commit). commit.tree) (commit_at number self.now.kept.repo.history)) }
        ensures rising { IfOk result (λ tree. IfSome tree IsRising) }
    {
        self.lists.tree_of(number)
    }

    /// Whether a path is staged. It takes no memory.
    pub fn is_staged(&self, path: &RepoPath) -> bool
        ensures { result ≡ is_some (entry_of path.now self.now.kept.repo.staged) }
    {
        self.lists.is_staged(path)
    }

    /// Whether the last commit has a file at a path; before the first commit there is none. It takes no
    /// memory.
    pub fn is_in_head(&self, path: &RepoPath) -> bool
        ensures { result ≡ is_some (entry_of path.now (last_tree self.now.kept.repo.history)) }
    {
        self.lists.is_in_head(path)
    }

    /// The mode of the staged file at a path, or `None` if there is none. It takes no memory.
    pub fn staged_mode(&self, path: &RepoPath) -> Option<Mode>
        ensures { result ≡ option_map (λ (entry : FileEntry). entry.mode)
            (entry_of path.now self.now.kept.repo.staged) }
    {
        self.lists.staged_mode(path)
    }

    /// The contents of the staged file at a path, or `None` if there is none. It takes no memory.
    pub fn staged_bytes(&self, path: &RepoPath) -> Option<&[u8]>
        ensures { option_copied result ≡ option_map (λ (entry : FileEntry). entry.bytes)
            (entry_of path.now self.now.kept.repo.staged) }
    {
        self.lists.staged_bytes(path)
    }

    /// The new contents that the fixes give to a path, or `None` if no fix is of the path or its fix removes
    /// the file. It takes no memory.
    pub fn fixed_bytes(&self, path: &RepoPath) -> Option<&[u8]>
        ensures { option_copied result ≡ fixed_bytes path.now self.now.kept.repo.fixes }
    {
        self.lists.fixed_bytes(path)
    }

    /// The contents of a commit's file at a path, or `None` if no commit has the number or the commit has no
    /// file there. It takes no memory.
    pub fn committed_bytes(&self, number: u32, path: &RepoPath) -> Option<&[u8]>
        ensures { option_copied result ≡ option_map (λ (entry : FileEntry). entry.bytes)
            (entry_of path.now (tree_at number self.now.kept.repo.history)) }
    {
        self.lists.committed_bytes(number, path)
    }

    /// Whether a path clashes with the staged files: one of their paths is a folder of the path, or the path
    /// is a folder of one of theirs. `stage` doesn't test this. It takes no memory.
    pub fn clashes(&self, path: &RepoPath) -> bool
        ensures { IsTrue result ↔ Clashes path.now self.now.kept.repo.staged }
    {
        self.lists.clashes(path)
    }

    /// The staged file at an index in the order of the paths, counted from 0, or `None` past the last. It
    /// takes no memory.
    pub fn staged_file(&self, index: usize) -> Option<FileRef<'_>>
        ensures file { option_map copied_file result ≡ slice_get self.now.kept.repo.staged index }
        ensures rising { IsRising self.now.kept.repo.staged }
    {
        self.lists.staged_file(index)
    }

    /// The last commit's file at an index in the order of the paths, counted from 0, or `None` past the last
    /// or if there is no commit. It takes no memory.
    pub fn head_file(&self, index: usize) -> Option<FileRef<'_>>
        ensures file { option_map copied_file result ≡ slice_get (last_tree self.now.kept.repo.history) index }
        ensures rising { IsRising (last_tree self.now.kept.repo.history) }
    {
        self.lists.head_file(index)
    }

    /// A commit's file at an index in the order of the paths, counted from 0, or `None` past the last or if
    /// no commit has the number. It takes no memory.
    pub fn commit_file(&self, number: u32, index: usize) -> Option<FileRef<'_>>
        ensures file { option_map copied_file result ≡ slice_get (tree_at number self.now.kept.repo.history) index }
        ensures rising { IsRising (tree_at number self.now.kept.repo.history) }
    {
        self.lists.commit_file(number, index)
    }

    /// Whether the staged files differ from those of the last commit, in their paths, modes or contents;
    /// before the first commit, whether any is staged. It takes no memory, and reads no contents.
    pub fn differs_from_head(&self) -> bool
        ensures { IsTrue result ↔ (self.now.kept.repo.staged ≢ last_tree self.now.kept.repo.history) }
    {
        self.lists.differs_from_head()
    }

    /// Whether a path's staged file has another mode or other contents than in the last commit, or only one
    /// of the two has the path. It takes no memory, and reads no contents.
    pub fn differs_from_head_at(&self, path: &RepoPath) -> bool
        ensures { IsTrue result ↔ (entry_of path.now self.now.kept.repo.staged ≢ entry_of path.now
            (last_tree self.now.kept.repo.history)) }
    {
        self.lists.differs_from_head_at(path)
    }

    /// How many fixes there are. It takes no memory.
    pub fn count_fixes(&self) -> u32
        ensures { result ≡ length self.now.kept.repo.fixes }
    {
        self.lists.count_fixes()
    }

    /// How many commits there are, which is the number of the last one. It takes no memory.
    pub fn count_commits(&self) -> u32
        ensures { result ≡ length self.now.kept.repo.history }
    {
        self.lists.count_commits()
    }

    /// The message of a commit, or `None` if no commit has the number. It takes no memory.
    pub fn message_of(&self, number: u32) -> Option<&[u8]>
        ensures { option_copied result ≡ option_map (λ (commit : Commit). commit.message)
            (commit_at number self.now.kept.repo.history) }
    {
        self.lists.message_of(number)
    }

    /// The connection, outside a transaction, with the store in its database.
    pub fn into_connection(self) -> Connection<S>
        ensures same { result ≡ self.conn }
        ensures stands { Stands S.Store result self.kept }
        ensures outside { result.in_transaction ≡ false }
    {
        let Store {
            conn,
            lists: _,
            next: _,
        } = self;
        conn
    }
}
