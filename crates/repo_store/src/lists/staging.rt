//! Several changes of the staged files in memory. Each is made of what those before it left; if one is
//! refused, the state before all of them is restored.

ghost use Rattle.std.specs.Prelude.{◌≡◌, ◌++◌, ◌∷◌, [], map, take, IfOk, IfErr, OnOk, OnErr};
ghost use Rattle.hook_base.specs.Trees.{entry_of};
ghost use Rattle.repo_store.specs.declared.staging_edit.StagingEdit.TheVariants.{Add, Remove};
ghost use Rattle.repo_store.specs.Edits.{AreEditable, IsAddFault, IsEditFault, IsEditable, IsRemoveFault, IsStageable, IsStagingRefusal, IsTakeable, all_edited, edited, mode_to_stage};
ghost use Rattle.store_faults.specs.Limits.{path_bytes};
ghost use Rattle.repo_store.specs.Lists.{file_of, fix_of};
ghost use Rattle.repo_store.specs.SharedEdits.{IsBefore, IsLonger, edit_of, made_edit, made_edits};
ghost use Rattle.repo_store.specs.Sound.{IsSound};

use super::Lists;
use crate::shared::{ListedFile, SharedFix};
use crate::shared_edit::SharedEdit;
use crate::{StagingEdit, StagingFault, StagingRefusal, StoreFault};
use hook_base::{Mode, OutOfMemory, RepoPath};
use store_faults::MOST_CONTENT_BYTES;

/// What is restored if an edit is refused: the staged files with the bytes of all their paths, the fixes, and
/// how many blobs were kept.
#[derive(Drop)]
pub(crate) struct Before {
    staged: Vec<ListedFile>,
    staged_bytes: usize,
    fixes: Vec<SharedFix>,
    pub(crate) count: usize,
}

/// What the edits give to their paths, and the state before them.
#[derive(Drop)]
pub(crate) struct Edited {
    pub(crate) made: Vec<SharedEdit>,
    pub(crate) before: Before,
}

impl Lists {
    /// Makes the edits, each of what those before it left. A refusal leaves everything as it was.
    pub(crate) fn edit_all(&mut self, edits: &[StagingEdit]) -> Result<Edited, StagingRefusal>
        ensures edited { OnOk result (self.new.kept ≡ all_edited edits.now self.old.kept) }
        ensures made { IfOk result (λ edited. map edit_of edited.made.items ≡ made_edits edits.now self.old.kept) }
        ensures before { IfOk result (λ edited. IsBefore self.old.kept edited.before) }
        ensures sound { IsSound self.old.kept.repo }
        ensures longer { IsLonger self.old.kept self.new.kept }
        ensures editable { OnOk result (AreEditable edits.now self.old.kept) }
        ensures same { OnErr result (self.new.kept ≡ self.old.kept) }
        ensures refused { IfErr result (IsStagingRefusal edits.now self.old.kept) }
    {
        let before = match self.stood() {
            Ok(before) => before,
            Err(refused) => {
                return Err(StagingRefusal {
                    at: None,
                    fault: StagingFault::from(refused),
                });
            }
        };
        match self.edit_each(edits) {
            Ok(made) => Ok(Edited { made, before }),
            Err(refusal) => {
                self.restore(before);
                Err(refusal)
            }
        }
    }

    // The state to restore.
    fn stood(&self) -> Result<Before, OutOfMemory>
        ensures before { IfOk result (IsBefore self.now.kept) }
        ensures sound { IsSound self.now.kept.repo }
    {
        Ok(Before {
            staged: self.staged.clone()?,
            staged_bytes: self.staged_bytes,
            fixes: self.fixes.clone()?,
            count: self.contents.len(),
        })
    }

    /// Restores the state before the edits.
    pub(crate) fn restore(&mut self, before: Before)
        requires sound { IsSound (record self.old.kept.repo
            { staged = map file_of before.staged.items; fixes = map fix_of before.fixes.items }) }
        requires counted { before.staged_bytes ≡ path_bytes (map file_of before.staged.items) }
        ensures { self.new.kept ≡ record self.old.kept {
          repo = record self.old.kept.repo {
            staged = map file_of before.staged.items;
            fixes = map fix_of
                before.fixes.items;
          };
          contents = take before.count self.old.kept.contents;
        } }
    {
        let Before {
            staged,
            staged_bytes,
            fixes,
            count,
        } = before;
        self.contents.truncate(count);
        self.staged = staged;
        self.staged_bytes = staged_bytes;
        self.fixes = fixes;
    }

    // Makes the edits, each of what those before it left, and returns what each gives to its path. After a
    // refusal the edits before it are made.
    fn edit_each(&mut self, edits: &[StagingEdit]) -> Result<Vec<SharedEdit>, StagingRefusal>
        ensures edited { OnOk result (self.new.kept ≡ all_edited edits.now self.old.kept) }
        ensures made { IfOk result (λ made. map edit_of made.items ≡ made_edits edits.now self.old.kept) }
        ensures editable { OnOk result (AreEditable edits.now self.old.kept) }
        ensures longer { IsLonger self.old.kept self.new.kept }
        ensures refused { IfErr result (IsStagingRefusal edits.now self.old.kept) }
    {
        let mut made = Vec::new(*self.staged.allocator());
        'edits: for at in 0..edits.len() {
            if let Err(fault) = self.edit_onto(&mut made, &edits[at]) {
                return Err(StagingRefusal {
                    at: Some(at),
                    fault,
                });
            }
        }
        Ok(made)
    }

    // Makes an edit, and adds what it gives to its path to `made`.
    fn edit_onto(
        &mut self,
        made: &mut Vec<SharedEdit>,
        edit: &StagingEdit,
    ) -> Result<(), StagingFault>
        ensures edited { OnOk result (self.new.kept ≡ edited edit.now self.old.kept) }
        ensures made { OnOk result (map edit_of made.new.items
            ≡ map edit_of made.old.items ++ made_edit edit.now self.old.kept ∷ []) }
        ensures editable { OnOk result (IsEditable edit.now self.old.kept) }
        ensures longer { IsLonger self.old.kept self.new.kept }
        ensures refused { IfErr result (IsEditFault edit.now self.old.kept) }
    {
        let edit = self.edit(edit)?;
        made.push(edit)?;
        Ok(())
    }

    // Makes an edit.
    fn edit(&mut self, edit: &StagingEdit) -> Result<SharedEdit, StagingFault>
        ensures edited { OnOk result (self.new.kept ≡ edited edit.now self.old.kept) }
        ensures made { IfOk result (λ made. edit_of made ≡ made_edit edit.now self.old.kept) }
        ensures editable { OnOk result (IsEditable edit.now self.old.kept) }
        ensures longer { IsLonger self.old.kept self.new.kept }
        ensures refused { IfErr result (IsEditFault edit.now self.old.kept) }
    {
        match edit {
            StagingEdit::Add { path, bytes, mode } => {
                self.add(path.as_str(), bytes.as_slice(), *mode)
            }
            StagingEdit::Remove { path } => self.take(path.as_str()),
        }
    }

    // Stages a file.
    fn add(
        &mut self,
        path: &str,
        bytes: &[u8],
        asked: Option<Mode>,
    ) -> Result<SharedEdit, StagingFault>
        ensures edited { OnOk result (self.new.kept ≡ edited (Add path.now bytes.now asked) self.old.kept) }
        ensures made { IfOk result (λ made. edit_of made ≡ made_edit (Add path.now bytes.now asked) self.old.kept) }
        ensures editable { OnOk result (IsStageable path.now bytes.now asked self.old.kept) }
        ensures longer { IsLonger self.old.kept self.new.kept }
        ensures refused { IfErr result (IsAddFault path.now bytes.now asked self.old.kept) }
    {
        let path = RepoPath::read(*self.staged.allocator(), path)?;
        if bytes.len() > MOST_CONTENT_BYTES {
            return Err(StagingFault::Store(StoreFault::TooLarge));
        }
        if self.clashes(&path) {
            return Err(StagingFault::Clash);
        }
        let mode = self.mode_to_stage(&path, asked);
        let file = self.prepare(&path, mode, bytes)?;
        let shared = file.clone()?;
        self.stage(file);
        Ok(SharedEdit {
            path,
            file: Some(shared),
        })
    }

    // The requested mode, otherwise that of the staged file at the path, otherwise plain.
    fn mode_to_stage(&self, path: &RepoPath, asked: Option<Mode>) -> Mode
        ensures { result ≡ mode_to_stage asked (entry_of path.now self.now.kept.repo.staged) }
    {
        match asked {
            Some(mode) => mode,
            None => self.staged_mode(path).unwrap_or(Mode::Plain),
        }
    }

    // Removes a path from the staged files.
    fn take(&mut self, path: &str) -> Result<SharedEdit, StagingFault>
        ensures edited { OnOk result (self.new.kept ≡ edited (Remove path.now) self.old.kept) }
        ensures made { IfOk result (λ made. edit_of made ≡ made_edit (Remove path.now) self.old.kept) }
        ensures editable { OnOk result (IsTakeable path.now self.old.kept) }
        ensures longer { IsLonger self.old.kept self.new.kept }
        ensures refused { IfErr result (IsRemoveFault path.now self.old.kept) }
    {
        let path = RepoPath::read(*self.staged.allocator(), path)?;
        if !self.is_staged(&path) {
            return Err(StagingFault::NotStaged);
        }
        self.unstage(&path);
        Ok(SharedEdit { path, file: None })
    }
}
