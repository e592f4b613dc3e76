//! The files that the hooks of a run may get, and their tags.

ghost use Rattle.std.specs.Prelude.{◌≡◌, ℕ, List, IfOk, OnErr, OnOk};
ghost use Rattle.hook_base.specs.Trees.{apply_changes};
ghost use Rattle.path_select.specs.Candidates.{is_candidate, paths_of};
ghost use Rattle.path_select.specs.Selection.{selected_among, texts_of_rules};
ghost use Rattle.hook_run.specs.CandidateFiles.{files_at};

use file_tags::KeptTags;
use hook_base::{Change, Items, OutOfMemory, RepoPath, Tree};
use path_select::{Candidates, Rules, select_kept_among};
use std::alloc::Global;
use std::marker::Model;

/// The files of a tree at the candidates' paths. The tags of each are kept until it changes. Contracts see
/// only the files.
#[derive(Debug, Drop)]
pub(crate) struct CandidateFiles {
    tree: Tree,
    tags: KeptTags,
}

impl Model for CandidateFiles {
    ghost use Rattle.std.specs.Prelude.{◌≡◌, List};
    ghost use Rattle.hook_base.specs.declared.file.File.{File};
    ghost use Rattle.file_tags.specs.TreeTags.{tags_of_tree};

    ghost Value = { List File };

    ghost view = { λ files. files.tree };

    ghost invariant = { λ files. files.tags ≡ tags_of_tree files.tree };
}

impl CandidateFiles {
    /// The files of the tree at the candidates' paths; they share their contents with it. `OutOfMemory` if
    /// memory is refused.
    pub(crate) fn of(
        alloc: Global,
        candidates: &[RepoPath],
        tree: &Tree,
    ) -> Result<CandidateFiles, OutOfMemory>
        ensures { IfOk result (λ files. files ≡ files_at candidates.now tree.now) }
    {
        let paths = in_order(alloc, candidates)?;
        let tree = files_at(alloc, paths.as_slice(), tree)?;
        let tags = KeptTags::of(alloc, &tree)?;
        Ok(CandidateFiles { tree, tags })
    }

    /// Applies changes to the files. The tags of the files that the changes name are computed again, and the
    /// others kept. `OutOfMemory` if memory is refused; then files and tags stay as they were.
    pub(crate) fn follow(&mut self, changes: &[Change]) -> Result<(), OutOfMemory>
        ensures followed { OnOk result (self.new ≡ apply_changes changes.now self.old) }
        ensures kept { OnErr result (self.new ≡ self.old) }
    {
        if changes.is_empty() {
            return Ok(());
        }
        let mut after = self.tree.copy()?;
        after.apply(changes)?;
        self.tags.follow(&self.tree, &after, changes)?;
        self.tree = after;
        Ok(())
    }

    /// The files that the rules select, among candidates that have passed the patterns of the whole
    /// configuration. `OutOfMemory` if memory is refused.
    pub(crate) fn select(
        &self,
        alloc: Global,
        rules: &Rules,
        among: &Candidates,
    ) -> Result<Items<RepoPath>, OutOfMemory>
        ensures { IfOk result (λ chosen. chosen ≡ selected_among (texts_of_rules rules.now) among.now self.now) }
    {
        select_kept_among(alloc, rules, among, &self.tree, &self.tags)
    }
}

// The paths in their order, so that each file is put after those before it. Paths that are already in order
// aren't moved.
fn in_order<'a>(alloc: Global, paths: &'a [RepoPath]) -> Result<Vec<&'a RepoPath>, OutOfMemory>
    ensures { IfOk result (λ ordered. (path : List ℕ)
        → is_candidate (paths_of ordered.items) path ≡ is_candidate paths.now path) }
{
    let mut ordered = borrowed(alloc, paths)?;
    ordered.sort_unstable();
    Ok(ordered)
}

fn borrowed<'a>(alloc: Global, paths: &'a [RepoPath]) -> Result<Vec<&'a RepoPath>, OutOfMemory>
    ensures { IfOk result (λ references. paths_of references.items ≡ paths.now) }
{
    let mut references = Vec::with_capacity(alloc, paths.len())?;
    'paths: for path in paths {
        references.push(path)?;
    }
    Ok(references)
}

fn files_at(alloc: Global, paths: &[&RepoPath], tree: &Tree) -> Result<Tree, OutOfMemory>
    ensures { IfOk result (λ files. files ≡ files_at (paths_of paths.now) tree.now) }
{
    let mut files = Tree::new(alloc);
    if tree.len() == 0 {
        return Ok(files);
    }
    'paths: for path in paths {
        let path: &RepoPath = path;
        files.put_from(tree, path)?;
    }
    Ok(files)
}
