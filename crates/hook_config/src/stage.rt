//! The stages of hooks, and sets of them. A further stage needs its variant and its field here, its names in
//! `STAGE_NAMES` and in `specs/Stages.antt`, and there its cases of `has_stage` and `with_stage`.

ghost use Rattle.std.specs.Prelude.{◌≡◌};
ghost use Rattle.hook_config.specs.Stages.{no_stages, all_stages, each_stage, with_stage, has_stage, stage_rows, stage_in, stage_of_word};

/// When a hook is run: at the hook of Git with this name (githooks(5)), or only by hand.
#[derive(Clone, Copy, Debug, PartialEq, Eq)]
pub enum Stage {
    PreCommit,
    PreMergeCommit,
    PrePush,
    PrepareCommitMsg,
    CommitMsg,
    PostCheckout,
    PostCommit,
    PostMerge,
    PostRewrite,
    PreRebase,
    /// Only if a run asks for it.
    Manual,
}

// The names of the stages. `commit`, `push` and `merge-commit` are those that older configurations use
// (pre-commit.com, "Confining hooks to run at certain stages").
const STAGE_NAMES: [(&str, Stage); 14] = [
    ("pre-commit", Stage::PreCommit),
    ("commit", Stage::PreCommit),
    ("pre-merge-commit", Stage::PreMergeCommit),
    ("merge-commit", Stage::PreMergeCommit),
    ("pre-push", Stage::PrePush),
    ("push", Stage::PrePush),
    ("prepare-commit-msg", Stage::PrepareCommitMsg),
    ("commit-msg", Stage::CommitMsg),
    ("post-checkout", Stage::PostCheckout),
    ("post-commit", Stage::PostCommit),
    ("post-merge", Stage::PostMerge),
    ("post-rewrite", Stage::PostRewrite),
    ("pre-rebase", Stage::PreRebase),
    ("manual", Stage::Manual),
];

impl Stage {
    /// The stage that the word names, or nothing if it names none.
    #[tactic(auto, unfolding(crate::specs::Stages::stage_of_word))]
    pub fn of_word(word: &str) -> Option<Self>
        ensures { result ≡ stage_of_word word.now }
    {
        stage_in(&STAGE_NAMES, word)
    }
}

// The stage in the first row that has the word.
fn stage_in(rows: &[(&str, Stage)], word: &str) -> Option<Stage>
    ensures { result ≡ stage_in (stage_rows rows.now) word.now }
{
    for (name, stage) in rows {
        if *name == word {
            return Some(*stage);
        }
    }
    None
}

/// A set of stages: each field says whether its stage is in the set.
#[derive(Clone, Copy, Debug, PartialEq, Eq)]
pub struct Stages {
    pub pre_commit: bool,
    pub pre_merge_commit: bool,
    pub pre_push: bool,
    pub prepare_commit_msg: bool,
    pub commit_msg: bool,
    pub post_checkout: bool,
    pub post_commit: bool,
    pub post_merge: bool,
    pub post_rewrite: bool,
    pub pre_rebase: bool,
    pub manual: bool,
}

impl Stages {
    /// No stage.
    pub fn none() -> Self
        ensures { result ≡ no_stages }
    {
        Stages::each(false)
    }

    /// All eleven stages.
    pub fn all() -> Self
        ensures { result ≡ all_stages }
    {
        Stages::each(true)
    }

    fn each(is_there: bool) -> Self
        ensures { result ≡ each_stage is_there }
    {
        Stages {
            pre_commit: is_there,
            pre_merge_commit: is_there,
            pre_push: is_there,
            prepare_commit_msg: is_there,
            commit_msg: is_there,
            post_checkout: is_there,
            post_commit: is_there,
            post_merge: is_there,
            post_rewrite: is_there,
            pre_rebase: is_there,
            manual: is_there,
        }
    }

    /// These stages, and this one too.
    #[must_use]
    pub fn with(self, stage: Stage) -> Self
        ensures { result ≡ with_stage stage self }
    {
        let mut stages = self;
        match stage {
            Stage::PreCommit => stages.pre_commit = true,
            Stage::PreMergeCommit => stages.pre_merge_commit = true,
            Stage::PrePush => stages.pre_push = true,
            Stage::PrepareCommitMsg => stages.prepare_commit_msg = true,
            Stage::CommitMsg => stages.commit_msg = true,
            Stage::PostCheckout => stages.post_checkout = true,
            Stage::PostCommit => stages.post_commit = true,
            Stage::PostMerge => stages.post_merge = true,
            Stage::PostRewrite => stages.post_rewrite = true,
            Stage::PreRebase => stages.pre_rebase = true,
            Stage::Manual => stages.manual = true,
        }
        stages
    }

    /// Whether the stage is among them.
    pub fn has(self, stage: Stage) -> bool
        ensures { result ≡ has_stage self stage }
    {
        match stage {
            Stage::PreCommit => self.pre_commit,
            Stage::PreMergeCommit => self.pre_merge_commit,
            Stage::PrePush => self.pre_push,
            Stage::PrepareCommitMsg => self.prepare_commit_msg,
            Stage::CommitMsg => self.commit_msg,
            Stage::PostCheckout => self.post_checkout,
            Stage::PostCommit => self.post_commit,
            Stage::PostMerge => self.post_merge,
            Stage::PostRewrite => self.post_rewrite,
            Stage::PreRebase => self.pre_rebase,
            Stage::Manual => self.manual,
        }
    }
}
