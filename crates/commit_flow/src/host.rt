//! The commands of a host that run no hooks. Each looks for what the host itself refuses, in a fixed order,
//! and then makes at most one call that changes the store.

ghost use Rattle.std.specs.Prelude.{◌≡◌, ◌≢◌, ◌↔◌, ◌≤◌, [], IsTrue, IfOk, IfErr, IfSome, MatchOption, OnOk, OnErr, option_map};
ghost use Rattle.hook_base.specs.Trees.{IsRising, IsRisingChanges, entry_of};
ghost use Rattle.repo_store.specs.AllOrNothing.{IsAllOrNothing};
ghost use Rattle.repo_store.specs.Contents.{Collides};
ghost use Rattle.repo_store.specs.Edits.{all_edited};
ghost use Rattle.repo_store.specs.Kept.{accepting, forgetting, limiting, staging, unstaging};
ghost use Rattle.store_faults.specs.Limits.{IsLimit};
ghost use Rattle.repo_store.specs.Log.{log_from};
ghost use Rattle.repo_store.specs.Repository.{Commit, commit_at, last_tree};
ghost use Rattle.repo_store.specs.Shown.{IsOneTransaction};
ghost use Rattle.result_book.specs.Calls.{AfterForget};
ghost use Rattle.result_book.specs.Contents.{count_of};
ghost use Rattle.repo_store.specs.StoreBooks.{remembered_by};
ghost use Rattle.commit_flow.specs.declared.command.Command.TheVariants.{Add, Remove, Stage, Accept, Forget, Limit};
ghost use Rattle.commit_flow.specs.declared.reply.Reply.TheVariants.{Added, Removed, Accepted, Forgot, Limited};
ghost use Rattle.commit_flow.specs.AnswerLimits.{IsLimitRefusal, IsLimitedTo};
ghost use Rattle.commit_flow.specs.Commands.{reply_of, reply_of_staging};
ghost use Rattle.commit_flow.specs.EditSteps.{AreOneCommand, AreSteps, CollidesAt, IsStagingStop, NoEditCollides};
ghost use Rattle.commit_flow.specs.StagedPaths.{IsLegal, IsStaged};
ghost use Rattle.commit_flow.specs.Stops.{IsOneCommand};
ghost use Rattle.commit_flow.specs.Steps.{IsAddable, IsRemoveRefusal, IsUnaddable, Step, entry_to_add, mode_to_add};

use crate::{HostRefusal, StagingStop};
use hook_base::{Change, Mode, OutOfMemory, RepoPath, Tree};
use repo_store::{LogEntry, MOST_CONTENT_BYTES, StagingEdit, Store};
use result_book::Book;
use sqlite::Alter;
use std::alloc::Global;

/// The host of a repository and of the cached results of children; a store keeps both. Each command changes
/// the repository as a whole or not at all, whatever stops it.
pub struct Host<S: Alter> {
    pub(crate) store: Store<S>,
}

// Written out, so that a caller doesn't prove again how each part is dropped.
impl<S: Alter + Drop> Drop for Host<S> {
    fn drop(self) {
        let Host { store: _ } = self;
    }
}

impl<S: Alter> Host<S> {
    /// The host of the repository in a store. Its cached results are those of the store. It takes no memory.
    pub fn over(store: Store<S>) -> Host<S>
        ensures { result ≡ record { store = store } }
    {
        Host { store }
    }

    /// The store, as the host leaves it. It takes no memory.
    pub fn into_store(self) -> Store<S>
        ensures { result ≡ self.store }
    {
        let Host { store } = self;
        store
    }

    /// The store, for look-ups that copy nothing. It takes no memory.
    pub fn store(&self) -> &Store<S>
        ensures { result.now ≡ self.now.store }
    {
        &self.store
    }

    /// Stages a file, in place of the one at its path, and removes the fixes. Without a mode the file keeps
    /// that of the staged file at its path, and is plain if there is none. It is refused, in this order, for
    ///
    /// - a text that is no path (`BadPath`),
    /// - more than 16 MiB (`TooLarge`),
    /// - a path that is a folder of a staged one, or lies in a staged one (`Clash`),
    /// - a staged tree of more than 100,000 files or 8 MiB of paths (`TooMany`),
    /// - contents whose digest is that of others (`Collision`).
    ///
    /// `OutOfMemory` and `Store` come if memory or the database refuses. A refusal leaves the repository as
    /// it was.
    pub fn add(
        &mut self,
        alloc: Global,
        path: &str,
        bytes: &[u8],
        mode: Option<Mode>,
    ) -> Result<(), HostRefusal>
        ensures step { Step self.old.store.kept.repo (Add path.now bytes.now mode) (reply_of (λ _. Added) result) []
            self.new.store.kept.repo }
        ensures change { IsAllOrNothing self.old.store.kept self.new.store.kept result
            (staging path.now (entry_to_add self.old.store.kept.repo path.now bytes.now mode) self.old.store.kept) }
        ensures command { IsOneCommand S.Store self.old.store self.new.store (Add path.now bytes.now mode)
            (reply_of (λ _. Added) result) }
        ensures apart { OnOk result (¬ Collides bytes.now self.old.store.kept.contents) }
        ensures collides { IfErr result (λ refusal. refusal ≡ HostRefusal.Collision
            → Collides bytes.now self.old.store.kept.contents) }
    {
        let path = self.addable(alloc, path, bytes)?;
        let mode = self.mode_to_add(&path, mode);
        self.store.stage(&path, mode, bytes)?;
        Ok(())
    }

    /// Removes a path from the staged files, and removes the fixes. It is refused, in this order, for a text
    /// that is no path (`BadPath`) and a path that isn't staged (`NotStaged`). `OutOfMemory` and `Store` come
    /// if memory or the database refuses. A refusal leaves the repository as it was.
    pub fn remove(&mut self, alloc: Global, path: &str) -> Result<(), HostRefusal>
        ensures step { Step self.old.store.kept.repo (Remove path.now) (reply_of (λ _. Removed) result) []
            self.new.store.kept.repo }
        ensures change { IsAllOrNothing self.old.store.kept self.new.store.kept result
            (unstaging path.now self.old.store.kept) }
        ensures command { IsOneCommand S.Store self.old.store self.new.store (Remove path.now)
            (reply_of (λ _. Removed) result) }
    {
        let path = self.removable(alloc, path)?;
        self.store.unstage(&path)?;
        Ok(())
    }

    /// Makes several changes of the staged files, each on what those before it left, and removes the fixes:
    /// all of them, or none. There must be at least one.
    ///
    /// The refusal is that of the first refused change, as [`Host::add`] or [`Host::remove`] would give it,
    /// with the change's index. `OutOfMemory` may come at a change too. `OutOfMemory` and `Store` come
    /// without an index if memory or the database refuses all together. A refusal leaves the repository as it
    /// was.
    pub fn stage_all(&mut self, edits: &[StagingEdit]) -> Result<(), StagingStop>
        requires { edits.now ≢ [] }
        ensures step { Step self.old.store.kept.repo (Stage edits.now) (reply_of_staging result) []
            self.new.store.kept.repo }
        ensures change { IsAllOrNothing self.old.store.kept self.new.store.kept result
            (all_edited edits.now self.old.store.kept) }
        ensures steps { OnOk result (AreSteps edits.now self.old.store.kept.repo self.new.store.kept.repo) }
        ensures refused { IfErr result (IsStagingStop edits.now self.old.store.kept.repo) }
        ensures command { AreOneCommand S.Store self.old.store self.new.store edits.now result }
        ensures one { IsOneCommand S.Store self.old.store self.new.store (Stage edits.now) (reply_of_staging result) }
        ensures remembered { remembered_by self.new.store.kept ≡ remembered_by self.old.store.kept }
        ensures apart { OnOk result (NoEditCollides edits.now self.old.store.kept) }
        ensures collides { IfErr result (λ stop. stop.refusal ≡ HostRefusal.Collision
            → MatchOption stop.at ⊥ (CollidesAt edits.now self.old.store.kept)) }
    {
        self.store.stage_all(edits)?;
        Ok(())
    }

    /// Applies the fixes to the staged files, removes them, and answers how many there were. `NoFixes` comes
    /// if there are none. Otherwise `OutOfMemory` and `Store` come if memory or the database refuses. A
    /// refusal leaves the repository as it was.
    pub fn accept(&mut self) -> Result<u32, HostRefusal>
        ensures step { Step self.old.store.kept.repo Accept (reply_of Accepted result) [] self.new.store.kept.repo }
        ensures change { IsAllOrNothing self.old.store.kept self.new.store.kept result (accepting self.old.store.kept) }
        ensures command { IsOneCommand S.Store self.old.store self.new.store Accept (reply_of Accepted result) }
    {
        if self.has_no_fixes() {
            return Err(HostRefusal::NoFixes);
        }
        let number = self.store.accept()?;
        Ok(number)
    }

    /// Removes all cached results, and answers how many there were. Their contents stay in the store.
    /// `OutOfMemory` comes if memory is refused, and `Store` if the database refuses. A refusal leaves what
    /// is cached as it was. The repository stays in any case.
    pub fn forget(&mut self) -> Result<u64, HostRefusal>
        ensures step { Step self.old.store.kept.repo Forget (reply_of Forgot result) [] self.new.store.kept.repo }
        ensures change { IsAllOrNothing self.old.store.kept self.new.store.kept result
            (forgetting self.old.store.kept) }
        ensures command { IsOneCommand S.Store self.old.store self.new.store Forget (reply_of Forgot result) }
        ensures number { IfOk result (λ number. number ≡ count_of (remembered_by self.old.store.kept)) }
        ensures forgotten { OnOk result (AfterForget (remembered_by self.old.store.kept)
            (remembered_by self.new.store.kept)) }
        ensures refused { OnErr result (remembered_by self.new.store.kept ≡ remembered_by self.old.store.kept) }
    {
        Ok(self.store.answers_forget()?)
    }

    /// How many results are cached. It takes no memory.
    pub fn remembered(&self) -> u64
        ensures { result ≡ count_of (remembered_by self.now.store.kept) }
    {
        self.store.len()
    }

    /// How many results are cached at most: from 1 to 100,000. It takes no memory.
    pub fn limit(&self) -> u32
        ensures limit { result ≡ (remembered_by self.now.store.kept).limit }
        ensures within { IsLimit (remembered_by self.now.store.kept).limit }
        ensures few { count_of (remembered_by self.now.store.kept) ≤ (remembered_by self.now.store.kept).limit }
    {
        self.store.answer_limit()
    }

    /// Sets how many results are cached at most, which must be from 1 to 100,000, and answers how many are
    /// left. If more are cached, the least recently used are removed; their contents stay in the store. It is
    /// one transaction, even if this is the limit already.
    ///
    /// `OutOfMemory` comes if memory is refused, and `Store` if the database refuses. A refusal leaves what
    /// is cached and the limit as they were. The repository stays in any case.
    pub fn set_limit(&mut self, limit: u32) -> Result<u64, HostRefusal>
        requires { IsLimit limit }
        ensures step { Step self.old.store.kept.repo (Limit limit) (reply_of Limited result) []
            self.new.store.kept.repo }
        ensures change { IsAllOrNothing self.old.store.kept self.new.store.kept result
            (limiting limit self.old.store.kept) }
        ensures transaction { IsOneTransaction S.Store self.old.store self.new.store result
            (limiting limit self.old.store.kept) }
        ensures command { IsOneCommand S.Store self.old.store self.new.store (Limit limit) (reply_of Limited result) }
        ensures number { IfOk result (λ number. number ≡ count_of (remembered_by self.new.store.kept)) }
        ensures limited { OnOk result (IsLimitedTo limit (remembered_by self.old.store.kept)
            (remembered_by self.new.store.kept)) }
        ensures refused { OnErr result (remembered_by self.new.store.kept ≡ remembered_by self.old.store.kept) }
        ensures why { IfErr result IsLimitRefusal }
    {
        self.store.set_answer_limit(limit)?;
        Ok(self.store.len())
    }

    /// The staged files. It fails only for lack of memory.
    pub fn staged(&self) -> Result<Tree, OutOfMemory>
        ensures tree { IfOk result (λ tree. tree ≡ self.now.store.kept.repo.staged) }
        ensures rising { IsRising self.now.store.kept.repo.staged }
    {
        self.store.staged()
    }

    /// The files of the last commit, or an empty tree if there is no commit. It fails only for lack of
    /// memory.
    pub fn head(&self) -> Result<Tree, OutOfMemory>
        ensures tree { IfOk result (λ tree. tree ≡ last_tree self.now.store.kept.repo.history) }
        ensures rising { IsRising (last_tree self.now.store.kept.repo.history) }
    {
        self.store.head()
    }

    /// The fixes, in the order of their paths. It fails only for lack of memory.
    pub fn fixes(&self) -> Result<Vec<Change>, OutOfMemory>
        ensures fixes { IfOk result (λ fixes. fixes.items ≡ self.now.store.kept.repo.fixes) }
        ensures rising { IsRisingChanges self.now.store.kept.repo.fixes }
    {
        self.store.fixes()
    }

    /// The commits with their numbers, the oldest first. It fails only for lack of memory.
    pub fn log(&self) -> Result<Vec<LogEntry>, OutOfMemory>
        ensures { IfOk result (λ log. log.items ≡ log_from 1 self.now.store.kept.repo.history) }
    {
        self.store.log()
    }

    /// The files of a commit, or `None` if no commit has the number. It fails only for lack of memory.
    pub fn tree_of(&self, number: u32) -> Result<Option<Tree>, OutOfMemory>
        ensures tree { IfOk result (λ tree. tree
            ≡ option_map (λ (commit : Commit). commit.tree) (commit_at number self.now.store.kept.repo.history)) }
        ensures rising { IfOk result (λ tree. IfSome tree IsRising) }
    {
        self.store.tree_of(number)
    }

    fn has_no_fixes(&self) -> bool
        ensures { IsTrue result ↔ (self.now.store.kept.repo.fixes ≡ []) }
    {
        self.store.count_fixes() == 0
    }

    // The path of a file that may be added. The limits of the staged files aren't checked here.
    fn addable(&self, alloc: Global, path: &str, bytes: &[u8]) -> Result<RepoPath, HostRefusal>
        ensures same { IfOk result (λ taken. taken ≡ path.now) }
        ensures addable { OnOk result (IsAddable self.now.store.kept.repo path.now bytes.now) }
        ensures refused { IfErr result (IsUnaddable self.now.store.kept.repo path.now bytes.now) }
    {
        let path = RepoPath::read(alloc, path)?;
        if bytes.len() > MOST_CONTENT_BYTES {
            return Err(HostRefusal::TooLarge);
        }
        if self.store.clashes(&path) {
            return Err(HostRefusal::Clash);
        }
        Ok(path)
    }

    // The mode that is asked for; otherwise that of the staged file at the path; otherwise plain.
    fn mode_to_add(&self, path: &RepoPath, asked: Option<Mode>) -> Mode
        ensures { result ≡ mode_to_add asked (entry_of path.now self.now.store.kept.repo.staged) }
    {
        match asked {
            Some(mode) => mode,
            None => self.store.staged_mode(path).unwrap_or(Mode::Plain),
        }
    }

    // The path of a staged file, which may be removed.
    fn removable(&self, alloc: Global, path: &str) -> Result<RepoPath, HostRefusal>
        ensures same { IfOk result (λ taken. taken ≡ path.now) }
        ensures removable { OnOk result (IsLegal path.now × IsStaged path.now self.now.store.kept.repo) }
        ensures refused { IfErr result (IsRemoveRefusal self.now.store.kept.repo path.now) }
    {
        let path = RepoPath::read(alloc, path)?;
        if !self.store.is_staged(&path) {
            return Err(HostRefusal::NotStaged);
        }
        Ok(path)
    }
}
