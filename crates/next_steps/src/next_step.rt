//! Next steps, and the words for them.
//!
//! The contracts cite `specs/NextSteps.antt`.

ghost use Rattle.std.specs.Prelude.{◌≡◌};
ghost use Rattle.next_steps.specs.NextSteps.{step_text};

/// What a user can do next.
#[derive(Clone, Copy, Debug)]
pub enum NextStep {
    /// Give words, or a configuration on standard input.
    AskForHelp,
    /// Make a repository.
    MakeRepository,
    /// Go on with the repository that is there.
    UseRepository,
    /// Look at the fixes, and accept them.
    AcceptFixes,
    /// Run the hooks, of which some change files.
    MakeFixes,
    /// Write a configuration.
    WriteConfiguration,
    /// Write a configuration, and stage it.
    WriteAndStageConfiguration,
    /// Stage the configuration that the folder has.
    StageConfiguration,
    /// Learn what is wrong with the configuration that the folder has.
    ExplainConfiguration,
    /// Learn what is wrong with the staged configuration, from which that of the folder differs.
    ExplainStagedConfiguration,
}

impl NextStep {
    /// The line that says so.
    pub fn text(self) -> &'static str
        ensures { result.now ≡ step_text self }
    {
        match self {
            NextStep::AskForHelp => {
                "hint: a configuration is read from standard input: hookhost --help says more"
            }
            NextStep::MakeRepository => "hint: hookhost init makes a repository here",
            NextStep::UseRepository => {
                "hint: a repository is here already: go on with it, as by hookhost status"
            }
            NextStep::AcceptFixes => {
                "hint: hookhost fixes lists what hooks changed, hookhost accept stages it"
            }
            NextStep::MakeFixes => {
                "hint: there are no fixes: hookhost run makes them, where a hook changes files"
            }
            NextStep::WriteConfiguration => {
                "hint: there is no .pre-commit-config.yaml in this folder: write one first"
            }
            NextStep::WriteAndStageConfiguration => {
                "hint: write .pre-commit-config.yaml, then hookhost add .pre-commit-config.yaml"
            }
            NextStep::StageConfiguration => {
                "hint: hookhost add .pre-commit-config.yaml stages the configuration of this folder"
            }
            NextStep::ExplainConfiguration => "hint: hookhost explain says what is wrong and where",
            NextStep::ExplainStagedConfiguration => {
                "hint: hookhost cat .pre-commit-config.yaml | hookhost explain /dev/stdin says what is wrong and where"
            }
        }
    }
}
