//! What a store shows, in memory: its commits, staged files, fixes, contents and answers.

ghost use Rattle.std.specs.Prelude.{◌≡◌, ◌≢◌, ◌↔◌, ◌<◌, ◌≤◌, [], true, map, length, take, drop, is_some, option_map, slice_get, Some, MatchOption, IfOk, IfErr, IfSome, IsPermutation, IsTrue, OnOk, OnErr};
ghost use Rattle.std.specs.Option.{option_copied};
ghost use Rattle.std.specs.Str.{IsUtf8};
ghost use Rattle.hook_base.specs.declared.file.FileEntry.{FileEntry};
ghost use Rattle.hook_base.specs.Paths.{IsRepoPath};
ghost use Rattle.hook_base.specs.Trees.{IsRising, IsRisingChanges, entry_of, put_file};
ghost use Rattle.repo_store.specs.Accepted.{HasAcceptedFiles, accepted_files};
ghost use Rattle.repo_store.specs.Answers.{HaveOwnKeys};
ghost use Rattle.repo_store.specs.Clashes.{Clashes};
ghost use Rattle.repo_store.specs.Complete.{IsComplete};
ghost use Rattle.repo_store.specs.FileRefs.{copied_file};
ghost use Rattle.repo_store.specs.Kept.{FixCollides, HasLarge, accepting, committing, keeping, nothing_kept, unstaging};
ghost use Rattle.repo_store.specs.ListedAnswers.{IsNextTick};
ghost use Rattle.repo_store.specs.Lists.{commit_of, file_of, fix_of, repository_of};
ghost use Rattle.repo_store.specs.Contents.{Collides, with_changes, with_new};
ghost use Rattle.store_faults.specs.Faults.{IsDamage, IsRefusal};
ghost use Rattle.repo_store.specs.FromRows.{AreUsesFor};
ghost use Rattle.repo_store.specs.UsesOf.{AreUsesOf};
ghost use Rattle.store_faults.specs.Limits.{Fits, IsSmall, most_commits, most_files};
ghost use Rattle.repo_store.specs.Log.{log_from};
ghost use Rattle.repo_store.specs.Repository.{Commit, commit_at, fixed_bytes, last_tree, staged_changes, tree_at, with_staged_file};
ghost use Rattle.repo_store.specs.Sound.{IsSound};

use crate::accepted::Accepted;
use crate::answer_list::AnswerList;
use crate::clashes::clashes;
use crate::contents::Contents;
use crate::differences::{are_same_rows, differ_at};
use crate::files::{commit_with, count_path_bytes, has_path, may_put, put_file, take_out};
use crate::from_rows::follow_uses;
use crate::known_digests::digest_of;
use crate::look_ups::{bytes_at, file_at, fixed_at, shown_at};
use crate::shared::{ListedFile, SharedCommit, SharedFix};
use crate::trees::{changes_of, log_of, tree_of};
use crate::{FileRef, LogEntry, StoreFault};
use hook_base::{Change, Content, Mode, OutOfMemory, RepoPath, Tree};
use std::alloc::Global;
use std::marker::Model;
use store_faults::{FIRST_LIMIT, MOST_COMMITS, MOST_CONTENT_BYTES};
use store_tables::UseRow;

mod answers;
mod staging;

pub(crate) use staging::Edited;

/// A repository in memory, with the blobs that are kept and the cached answers.
#[derive(Drop)]
pub(crate) struct Lists {
    contents: Contents,
    history: Vec<SharedCommit>,
    staged: Vec<ListedFile>,
    // The bytes of all staged paths together.
    staged_bytes: usize,
    fixes: Vec<SharedFix>,
    answers: AnswerList,
}

impl Model for Lists {
    ghost use Rattle.std.specs.Prelude.{◌&&◌, nat_lt, vec_len, vec_capacity};
    ghost use Rattle.repo_store.specs.Kept.{Mirror, mirror_code};

    ghost Value = { Mirror };

    ghost coded = { mirror_code };

    ghost use Rattle.repo_store.specs.Lists.{AreKept, repository_of};

    ghost view = { λ lists. record {
      kept = record {
        repo = repository_of lists.history.items lists.staged.items lists.fixes.items;
        contents = lists.contents;
        answers = lists.answers.answers;
        limit = lists.answers.limit;
      };
      has_room =
          nat_lt (vec_len lists.history) (vec_capacity lists.history) && nat_lt (vec_len lists.staged)
          (vec_capacity lists.staged);
      next = lists.answers.next;
    } };

    ghost invariant = { λ lists. AreKept lists.history.items lists.staged.items lists.fixes.items lists.staged_bytes };
}

impl Lists {
    /// What an empty store shows.
    pub(crate) fn new(alloc: Global) -> Result<Lists, OutOfMemory>
        ensures { IfOk result (λ lists. lists.kept ≡ nothing_kept) }
    {
        let answers = AnswerList::new(alloc, FIRST_LIMIT)?;
        Ok(Lists {
            contents: Contents::new(alloc),
            history: Vec::new(alloc),
            staged: Vec::new(alloc),
            staged_bytes: 0,
            fixes: Vec::new(alloc),
            answers,
        })
    }

    /// A repository of these lists.
    pub(crate) fn of(
        contents: Contents,
        history: Vec<SharedCommit>,
        staged: Vec<ListedFile>,
        fixes: Vec<SharedFix>,
        answers: AnswerList,
    ) -> Lists
        requires { IsSound (repository_of history.items staged.items fixes.items) }
        ensures kept { result.kept ≡ record {
          repo = repository_of history.items staged.items fixes.items;
          contents =
              contents;
          answers = answers.answers;
          limit = answers.limit;
        } }
        ensures next { result.next ≡ answers.next }
    {
        let staged_bytes = count_path_bytes(staged.as_slice());
        Lists {
            contents,
            history,
            staged,
            staged_bytes,
            fixes,
            answers,
        }
    }

    /// Puts the answers in the order of their uses, as `follow_uses` of `from_rows` does.
    pub(crate) fn follow_uses(&mut self, uses: &[UseRow]) -> Result<(), StoreFault>
        ensures others { self.new.kept ≡ record self.old.kept { answers = self.new.kept.answers } }
        ensures uses { OnOk result (AreUsesOf self.new.next uses.now self.new.kept.answers) }
        ensures next { OnOk result (IsNextTick self.new.next) }
        ensures moved { OnOk result (IsPermutation self.new.kept.answers self.old.kept.answers) }
        ensures keys { OnOk result (HaveOwnKeys self.new.kept.answers) }
        ensures broken { IfErr result (IsDamage (¬ AreUsesFor uses.now self.old.kept.answers)) }
    {
        let alloc = *self.staged.allocator();
        follow_uses(alloc, &mut self.answers, uses)
    }

    /// Makes room for one more staged file and one more commit.
    pub(crate) fn reserve(&mut self) -> Result<(), OutOfMemory>
        ensures same { self.new.kept ≡ self.old.kept }
        ensures room { OnOk result (self.new.has_room ≡ true) }
    {
        self.history.reserve(1)?;
        self.staged.reserve(1)?;
        Ok(())
    }

    /// How many blobs are kept.
    pub(crate) fn count(&self) -> usize
        ensures { result ≡ length self.now.kept.contents }
    {
        self.contents.len()
    }

    /// The blobs from an index on.
    pub(crate) fn since(&self, place: usize) -> &[Content]
        requires { place ≤ length self.now.kept.contents }
        ensures { result.now ≡ drop place self.now.kept.contents }
    {
        self.contents.since(place)
    }

    /// The blob of these bytes, which is added if there is none yet. A refusal leaves everything as it was.
    pub(crate) fn keep(&mut self, bytes: &[u8]) -> Result<Content, StoreFault>
        ensures content { IfOk result (λ content. content ≡ bytes.now) }
        ensures kept { OnOk result (self.new ≡ record self.old { kept = keeping bytes.now self.old.kept }) }
        ensures same { OnErr result (self.new ≡ self.old) }
        ensures why { IfErr result (IsRefusal (¬ IsSmall bytes.now) ⊥
            (IsSmall bytes.now × Collides bytes.now self.old.kept.contents)) }
        ensures small { OnOk result (IsSmall bytes.now) }
        ensures apart { OnOk result (¬ Collides bytes.now self.old.kept.contents) }
    {
        self.contents.keep(bytes)
    }

    // As `keep`, for bytes at a path: their digest may be known there.
    fn keep_at(&mut self, path: &RepoPath, bytes: &[u8]) -> Result<Content, StoreFault>
        ensures content { IfOk result (λ content. content ≡ bytes.now) }
        ensures kept { OnOk result (self.new ≡ record self.old { kept = keeping bytes.now self.old.kept }) }
        ensures same { OnErr result (self.new ≡ self.old) }
        ensures why { IfErr result (IsRefusal (¬ IsSmall bytes.now) ⊥
            (IsSmall bytes.now × Collides bytes.now self.old.kept.contents)) }
        ensures small { OnOk result (IsSmall bytes.now) }
        ensures apart { OnOk result (¬ Collides bytes.now self.old.kept.contents) }
    {
        if bytes.len() > MOST_CONTENT_BYTES {
            return Err(StoreFault::TooLarge);
        }
        let digest = digest_of(self.staged.as_slice(), self.fixes.as_slice(), path, bytes);
        self.contents.keep_under(digest, bytes)
    }

    /// Forgets the blobs from an index on.
    pub(crate) fn forget_since(&mut self, place: usize)
        ensures { self.new ≡ record self.old {
          kept = record self.old.kept
              { contents = take place self.old.kept.contents };
        } }
    {
        self.contents.truncate(place);
    }

    /// A file that can be staged, with room for it, whose contents are kept. A refusal leaves everything as
    /// it was.
    pub(crate) fn prepare(
        &mut self,
        path: &RepoPath,
        mode: Mode,
        bytes: &[u8],
    ) -> Result<ListedFile, StoreFault>
        ensures file { IfOk result (λ file. file_of file
            ≡ record { path = path.now; entry = record { mode = mode; bytes = bytes.now } }) }
        ensures kept { OnOk result (self.new.kept ≡ keeping bytes.now self.old.kept) }
        ensures room { OnOk result (self.new.has_room ≡ true) }
        ensures within { OnOk result (IsSmall bytes.now
            × Fits (put_file path.now (record { mode = mode; bytes = bytes.now }) self.old.kept.repo.staged)) }
        ensures same { OnErr result (self.new.kept ≡ self.old.kept) }
        ensures why { IfErr result (IsRefusal (¬ IsSmall bytes.now)
            (IsSmall bytes.now × (¬ Fits (put_file path.now (record { mode = mode; bytes = bytes.now })
            self.old.kept.repo.staged)))
            (IsSmall bytes.now × Fits (put_file path.now (record { mode = mode; bytes = bytes.now })
            self.old.kept.repo.staged) × Collides bytes.now self.old.kept.contents)) }
        ensures apart { OnOk result (¬ Collides bytes.now self.old.kept.contents) }
        ensures rising { IsRising self.old.kept.repo.staged }
        ensures path { IsRepoPath path.now }
        ensures utf8 { IsUtf8 path.now }
    {
        // The size of the contents is tested before the number of the files.
        let fits = may_put(self.staged.as_slice(), self.staged_bytes, path);
        if bytes.len() > MOST_CONTENT_BYTES {
            return Err(StoreFault::TooLarge);
        }
        if !fits {
            return Err(StoreFault::TooMany);
        }
        let path = path.clone()?;
        self.reserve()?;
        let before = self.count();
        let content = self.keep_at(&path, bytes)?;
        match ListedFile::of(*self.staged.allocator(), path, mode, content) {
            Ok(file) => Ok(file),
            Err(_refused) => {
                self.forget_since(before);
                Err(StoreFault::OutOfMemory)
            }
        }
    }

    /// Stages a file, for which there is room, and forgets the fixes.
    pub(crate) fn stage(&mut self, file: ListedFile)
        requires room { self.old.has_room ≡ true }
        requires fits { Fits (put_file file.path (record { mode = file.mode; bytes = file.content })
            self.old.kept.repo.staged) }
        ensures { self.new.kept ≡ record self.old.kept
            { repo = with_staged_file file.path (record { mode = file.mode; bytes = file.content }) self.old.kept.repo } }
    {
        let added = put_file(&mut self.staged, file);
        self.staged_bytes += added;
        self.fixes.clear();
    }

    /// How many commits there are.
    pub(crate) fn count_commits(&self) -> u32
        ensures { result ≡ length self.now.kept.repo.history }
    {
        self.history.len() as u32
    }

    /// The next commit, of the staged files, with room for it. A refusal leaves everything as it was.
    pub(crate) fn prepare_commit(&mut self, message: &[u8]) -> Result<SharedCommit, StoreFault>
        ensures commit { IfOk result (λ commit. commit_of commit
            ≡ record { message = message.now; tree = self.old.kept.repo.staged }) }
        ensures room { OnOk result (self.new.has_room ≡ true) }
        ensures within { OnOk result (IsSmall message.now × (length self.old.kept.repo.history < most_commits)) }
        ensures same { self.new.kept ≡ self.old.kept }
        ensures why { IfErr result (IsRefusal (¬ IsSmall message.now)
            (IsSmall message.now × (most_commits ≤ length self.old.kept.repo.history)) ⊥) }
    {
        if message.len() > MOST_CONTENT_BYTES {
            return Err(StoreFault::TooLarge);
        }
        if self.history.len() >= MOST_COMMITS {
            return Err(StoreFault::TooMany);
        }
        self.reserve()?;
        let commit = commit_with(message, &self.staged)?;
        Ok(commit)
    }

    /// Adds the next commit, for which there is room, and forgets the fixes.
    pub(crate) fn commit(&mut self, commit: SharedCommit)
        requires next { commit_of commit ≡ record { message = commit.message; tree = self.old.kept.repo.staged } }
        requires room { self.old.has_room ≡ true }
        requires few { length self.old.kept.repo.history < most_commits }
        ensures { self.new.kept ≡ committing commit.message self.old.kept }
    {
        let _done = self.history.push(commit);
        self.fixes.clear();
    }

    // A fix, whose contents are kept. A refusal leaves everything as it was.
    fn share_fix(&mut self, change: &Change) -> Result<SharedFix, StoreFault>
        ensures fix { IfOk result (λ fix. fix_of fix ≡ change.entry.now) }
        ensures kept { OnOk result (self.new.kept
            ≡ record self.old.kept { contents = with_new change.entry.now.now self.old.kept.contents }) }
        ensures same { OnErr result (self.new.kept ≡ self.old.kept) }
        ensures within { OnOk result (¬ MatchOption change.entry.now.now ⊥ (λ bytes. ¬ IsSmall bytes)) }
        ensures apart { OnOk result (¬ MatchOption change.entry.now.now ⊥
            (λ bytes. Collides bytes self.old.kept.contents)) }
        ensures why { IfErr result (IsRefusal (MatchOption change.entry.now.now ⊥ (λ bytes. ¬ IsSmall bytes)) ⊥
            (MatchOption change.entry.now.now ⊥ (λ bytes. Collides bytes self.old.kept.contents))) }
    {
        let path = change.path.clone()?;
        match &change.now {
            None => Ok(SharedFix { path, now: None }),
            Some(bytes) => {
                let content = self.contents.keep_shared(bytes)?;
                Ok(SharedFix {
                    path,
                    now: Some(content),
                })
            }
        }
    }

    /// Whether a path is staged.
    pub(crate) fn is_staged(&self, path: &RepoPath) -> bool
        ensures { result ≡ is_some (entry_of path.now self.now.kept.repo.staged) }
    {
        has_path(self.staged.as_slice(), path)
    }

    // The changes of staged files, whose contents are kept. After a refusal those of some changes are kept.
    fn share_fixes(&mut self, changes: &[Change]) -> Result<Vec<SharedFix>, StoreFault>
        ensures fixes { IfOk result (λ fixes. map fix_of fixes.items
            ≡ staged_changes changes.now self.old.kept.repo.staged) }
        ensures kept { OnOk result (self.new.kept.contents
            ≡ with_changes (staged_changes changes.now self.old.kept.repo.staged) self.old.kept.contents) }
        ensures sound { IsSound self.old.kept.repo }
        ensures repo { self.new.kept.repo ≡ self.old.kept.repo }
        ensures answers { self.new.kept.answers ≡ self.old.kept.answers }
        ensures limit { self.new.kept.limit ≡ self.old.kept.limit }
        ensures front { take (length self.old.kept.contents) self.new.kept.contents ≡ self.old.kept.contents }
        ensures within { OnOk result (¬ HasLarge (staged_changes changes.now self.old.kept.repo.staged)) }
        ensures apart { OnOk result (¬ FixCollides (staged_changes changes.now self.old.kept.repo.staged)
            self.old.kept.contents) }
        ensures why { IfErr result (IsRefusal (HasLarge (staged_changes changes.now self.old.kept.repo.staged)) ⊥
            (FixCollides (staged_changes changes.now self.old.kept.repo.staged) self.old.kept.contents)) }
    {
        let mut fixes = Vec::new(*self.staged.allocator());
        'changes: for change in changes {
            if self.is_staged(&change.path) {
                match self.share_fix(change) {
                    Ok(fix) => {
                        if fixes.push(fix).is_err() {
                            return Err(StoreFault::OutOfMemory);
                        }
                    }
                    Err(fault) => return Err(fault),
                }
            }
        }
        Ok(fixes)
    }

    /// The changes of staged files, whose contents are kept. A refusal leaves everything as it was.
    pub(crate) fn prepare_fixes(&mut self, changes: &[Change]) -> Result<Vec<SharedFix>, StoreFault>
        requires { IsRisingChanges changes.now }
        ensures fixes { IfOk result (λ fixes. map fix_of fixes.items
            ≡ staged_changes changes.now self.old.kept.repo.staged) }
        ensures rising { IfOk result (λ fixes. IsRisingChanges (map fix_of fixes.items)) }
        ensures few { IfOk result (λ fixes. length (map fix_of fixes.items) ≤ most_files) }
        ensures kept { OnOk result (self.new.kept
            ≡ record self.old.kept {
              contents = with_changes (staged_changes changes.now self.old.kept.repo.staged)
                  self.old.kept.contents;
            }) }
        ensures same { OnErr result (self.new.kept ≡ self.old.kept) }
        ensures within { OnOk result (¬ HasLarge (staged_changes changes.now self.old.kept.repo.staged)) }
        ensures apart { OnOk result (¬ FixCollides (staged_changes changes.now self.old.kept.repo.staged)
            self.old.kept.contents) }
        ensures why { IfErr result (IsRefusal (HasLarge (staged_changes changes.now self.old.kept.repo.staged)) ⊥
            (FixCollides (staged_changes changes.now self.old.kept.repo.staged) self.old.kept.contents)) }
    {
        let before = self.count();
        match self.share_fixes(changes) {
            Ok(fixes) => Ok(fixes),
            Err(fault) => {
                self.forget_since(before);
                Err(fault)
            }
        }
    }

    /// Sets the fixes.
    pub(crate) fn set_fixes(&mut self, fixes: Vec<SharedFix>)
        requires rising { IsRisingChanges (map fix_of fixes.items) }
        requires few { length (map fix_of fixes.items) ≤ most_files }
        ensures { self.new.kept ≡ record self.old.kept
            { repo = record self.old.kept.repo { fixes = map fix_of fixes.items } } }
    {
        self.fixes = fixes;
    }

    /// The staged files, which the tree shares.
    pub(crate) fn staged(&self) -> Result<Tree, OutOfMemory>
        ensures { IfOk result (λ tree. tree ≡ self.now.kept.repo.staged) }
    {
        tree_of(*self.staged.allocator(), self.staged.as_slice())
    }

    // The files of the last commit, or none if there is no commit.
    fn head_files(&self) -> &[ListedFile]
        ensures files { map file_of result.now ≡ last_tree self.now.kept.repo.history }
        ensures rising { IsRising (map file_of result.now) }
    {
        match self.history.as_slice() {
            [.., commit] => commit.files.as_slice(),
            [] => &[],
        }
    }

    /// The files of the last commit, which the tree shares, or none if there is no commit.
    pub(crate) fn head(&self) -> Result<Tree, OutOfMemory>
        ensures { IfOk result (λ tree. tree ≡ last_tree self.now.kept.repo.history) }
    {
        tree_of(*self.staged.allocator(), self.head_files())
    }

    /// The fixes, which share their contents.
    pub(crate) fn fixes(&self) -> Result<Vec<Change>, OutOfMemory>
        ensures { IfOk result (λ fixes. fixes.items ≡ self.now.kept.repo.fixes) }
    {
        changes_of(*self.staged.allocator(), self.fixes.as_slice())
    }

    /// The commits with their numbers, the oldest first.
    pub(crate) fn log(&self) -> Result<Vec<LogEntry>, OutOfMemory>
        ensures { IfOk result (λ log. log.items ≡ log_from 1 self.now.kept.repo.history) }
    {
        log_of(*self.staged.allocator(), self.history.as_slice())
    }

    // The commit of a number, if there is one.
    fn commit_at(&self, number: u32) -> Option<&SharedCommit>
        ensures commit { option_map commit_of (option_copied result) ≡ commit_at number self.now.kept.repo.history }
        ensures rising { IfSome result (λ commit. IsRising (map file_of commit.now.files.items)) }
    {
        if number == 0 {
            return None;
        }
        self.history.get(number as usize - 1)
    }

    // The files of a commit, or none if no commit has the number.
    fn files_at(&self, number: u32) -> &[ListedFile]
        ensures { map file_of result.now ≡ tree_at number self.now.kept.repo.history }
    {
        match self.commit_at(number) {
            Some(commit) => commit.files.as_slice(),
            None => &[],
        }
    }

    /// The files of a commit, or `None` if no commit has this number.
    pub(crate) fn tree_of(&self, number: u32) -> Result<Option<Tree>, OutOfMemory>
        ensures { IfOk result (λ tree. tree ≡ option_map (λ (commit : Commit). commit.tree)
            (commit_at number self.now.kept.repo.history)) }
    {
        match self.commit_at(number) {
            Some(commit) => {
                let tree = tree_of(*self.staged.allocator(), commit.files.as_slice())?;
                Ok(Some(tree))
            }
            None => Ok(None),
        }
    }

    /// The message of a commit, or `None` if no commit has this number.
    pub(crate) fn message_of(&self, number: u32) -> Option<&[u8]>
        ensures { option_copied result ≡ option_map (λ (commit : Commit). commit.message)
            (commit_at number self.now.kept.repo.history) }
    {
        match self.commit_at(number) {
            Some(commit) => Some(commit.message.as_slice()),
            None => None,
        }
    }

    /// The mode of a staged file, or `None` if the path isn't staged.
    pub(crate) fn staged_mode(&self, path: &RepoPath) -> Option<Mode>
        ensures { result ≡ option_map (λ (entry : FileEntry). entry.mode)
            (entry_of path.now self.now.kept.repo.staged) }
    {
        match file_at(self.staged.as_slice(), path) {
            Some(file) => Some(file.mode()),
            None => None,
        }
    }

    /// The contents of a staged file, or `None` if the path isn't staged.
    pub(crate) fn staged_bytes(&self, path: &RepoPath) -> Option<&[u8]>
        ensures { option_copied result ≡ option_map (λ (entry : FileEntry). entry.bytes)
            (entry_of path.now self.now.kept.repo.staged) }
    {
        bytes_at(self.staged.as_slice(), path)
    }

    /// The new contents that the fixes give to a path, or `None` if they give it none.
    pub(crate) fn fixed_bytes(&self, path: &RepoPath) -> Option<&[u8]>
        ensures { option_copied result ≡ fixed_bytes path.now self.now.kept.repo.fixes }
    {
        fixed_at(self.fixes.as_slice(), path)
    }

    /// The contents of a commit's file, or `None` if no commit has the number or the commit has no file at
    /// the path.
    pub(crate) fn committed_bytes(&self, number: u32, path: &RepoPath) -> Option<&[u8]>
        ensures { option_copied result ≡ option_map (λ (entry : FileEntry). entry.bytes)
            (entry_of path.now (tree_at number self.now.kept.repo.history)) }
    {
        match self.commit_at(number) {
            Some(commit) => bytes_at(commit.files.as_slice(), path),
            None => None,
        }
    }

    /// Whether a path clashes with the staged files.
    pub(crate) fn clashes(&self, path: &RepoPath) -> bool
        ensures { IsTrue result ↔ Clashes path.now self.now.kept.repo.staged }
    {
        clashes(self.staged.as_slice(), path)
    }

    /// The staged file at an index, by reference.
    pub(crate) fn staged_file(&self, index: usize) -> Option<FileRef<'_>>
        ensures { option_map copied_file result ≡ slice_get self.now.kept.repo.staged index }
    {
        shown_at(self.staged.as_slice(), index)
    }

    /// The file at an index of the last commit, by reference.
    pub(crate) fn head_file(&self, index: usize) -> Option<FileRef<'_>>
        ensures { option_map copied_file result ≡ slice_get (last_tree self.now.kept.repo.history) index }
    {
        shown_at(self.head_files(), index)
    }

    /// The file at an index of a commit, by reference.
    pub(crate) fn commit_file(&self, number: u32, index: usize) -> Option<FileRef<'_>>
        ensures { option_map copied_file result ≡ slice_get (tree_at number self.now.kept.repo.history) index }
    {
        shown_at(self.files_at(number), index)
    }

    /// Whether the last commit has a file at a path.
    pub(crate) fn is_in_head(&self, path: &RepoPath) -> bool
        ensures { result ≡ is_some (entry_of path.now (last_tree self.now.kept.repo.history)) }
    {
        has_path(self.head_files(), path)
    }

    /// Whether the staged files differ from those of the last commit.
    pub(crate) fn differs_from_head(&self) -> bool
        ensures { IsComplete self.now.kept → IsTrue result
            ↔ (self.now.kept.repo.staged ≢ last_tree self.now.kept.repo.history) }
    {
        !are_same_rows(self.staged.as_slice(), self.head_files())
    }

    /// Whether what is staged at a path differs from what the last commit has there.
    pub(crate) fn differs_from_head_at(&self, path: &RepoPath) -> bool
        ensures { IsComplete self.now.kept → IsTrue result
            ↔ (entry_of path.now self.now.kept.repo.staged ≢ entry_of path.now (last_tree self.now.kept.repo.history)) }
    {
        differ_at(self.staged.as_slice(), self.head_files(), path)
    }

    /// How many fixes there are.
    pub(crate) fn count_fixes(&self) -> u32
        ensures { result ≡ length self.now.kept.repo.fixes }
    {
        self.fixes.len() as u32
    }

    /// Whether there are no fixes.
    pub(crate) fn has_no_fixes(&self) -> bool
        ensures { IsTrue result ↔ (self.now.kept.repo.fixes ≡ []) }
    {
        self.fixes.is_empty()
    }

    /// The fixes as they are kept.
    pub(crate) fn shared_fixes(&self) -> &[SharedFix]
        ensures { map fix_of result.now ≡ self.now.kept.repo.fixes }
    {
        self.fixes.as_slice()
    }

    /// What the fixes make of the staged files.
    pub(crate) fn prepare_accept(&self) -> Result<Accepted, OutOfMemory>
        ensures accepted { IfOk result (HasAcceptedFiles self.now.kept.repo.fixes self.now.kept.repo.staged) }
        ensures rising { IfOk result (λ accepted. IsRising (map file_of (accepted_files accepted))) }
    {
        let alloc = *self.staged.allocator();
        Accepted::of(alloc, self.staged.as_slice(), self.fixes.as_slice())
    }

    /// Stages the files with the fixes applied, and forgets the fixes.
    pub(crate) fn accept(&mut self, accepted: Accepted)
        requires accepted { HasAcceptedFiles self.old.kept.repo.fixes self.old.kept.repo.staged accepted }
        requires rising { IsRising (map file_of (accepted_files accepted)) }
        ensures { self.new.kept ≡ accepting self.old.kept }
    {
        let fixes = self.fixes.as_slice();
        let staged_bytes = accepted.put_into(&mut self.staged, self.staged_bytes, fixes);
        self.staged_bytes = staged_bytes;
        self.fixes.clear();
    }

    /// Removes a path from the staged files, and forgets the fixes.
    pub(crate) fn unstage(&mut self, path: &RepoPath)
        ensures { self.new.kept ≡ unstaging path.now self.old.kept }
    {
        let freed = take_out(&mut self.staged, path);
        self.staged_bytes -= freed;
        self.fixes.clear();
    }
}
