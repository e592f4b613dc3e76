//! Laws of what the contracts cite. Each is a function that gives nothing: what it ensures is a theorem.

ghost use Rattle.std.specs.Prelude.{◌≡◌, ℕ, List, [], None, codes, map};
ghost use Rattle.hook_base.specs.declared.file.File.{File};
ghost use Rattle.hook_base.specs.Trees.{IsRising, entry_of, path_of};
ghost use Rattle.path_select.specs.Candidates.{AreRisingPaths, ArePassing};
ghost use Rattle.path_select.specs.Selection.{RuleTexts, found_in, rules_of_pattern, selected, selected_among};

/// What a hook gets among the candidates that pass the patterns of the whole configuration is what it gets
/// among all.
#[tactic(auto, using(crate::specs::SelectionLaws::selected_among_passing))]
pub fn selecting_among_the_passing_is_selecting_among_all()
    ensures { (rules : RuleTexts) (candidates among : List (List ℕ)) (tree : List File)
        → ArePassing rules.top_files rules.top_exclude candidates among
        → selected_among rules among tree ≡ selected rules candidates tree }
{}

/// The paths of the files that a hook gets are in their order, each once.
#[tactic(auto, using(crate::specs::SelectionLaws::selected_rising))]
pub fn what_is_selected_is_in_order()
    ensures { (rules : RuleTexts) (candidates : List (List ℕ)) (tree : List File) → IsRising tree
        → AreRisingPaths (selected rules candidates tree) }
{}

/// The files in whose path a pattern is found are those that it selects alone. All paths are candidates, all
/// other patterns are the default ones of a configuration, and no tags are asked for. The premise is that no
/// file's path is empty.
#[tactic(auto, using(crate::proofs::DefaultPatternLemmas::selected_alone))]
pub fn what_a_pattern_selects_alone_is_where_it_is_found()
    ensures { (pattern : List ℕ) (tree : List File) → entry_of [] tree ≡ None
        → selected (rules_of_pattern pattern) (map path_of tree) tree ≡ found_in pattern tree }
{}

/// The pattern `^$`, the default of `exclude`, is found in no path of a tree. The premise is that no file's path
/// is empty.
#[tactic(auto, using(crate::proofs::DefaultPatternLemmas::none_found_in))]
pub fn the_empty_text_is_found_in_no_path()
    ensures { (tree : List File) → entry_of [] tree ≡ None → found_in (codes "^$") tree ≡ [] }
{}
