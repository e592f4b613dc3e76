//! Laws of the definitions that the contracts cite. Each function returns nothing: what it ensures is a
//! theorem about the definitions alone.

ghost use Rattle.std.specs.Prelude.{◌≡◌, ◌||◌, ℕ, [], List, is_some};
ghost use Rattle.std.specs.List.{list_any};
ghost use Rattle.std.specs.Str.{bytes_eq};
ghost use Rattle.hook_base.specs.declared.file.File.{File};
ghost use Rattle.hook_base.specs.Rising.{IsRisingBy};
ghost use Rattle.hook_base.specs.Trees.{IsRising, entry_of};
ghost use Rattle.repository_text.specs.StatusText.{path_itself, paths_of_both, status_text};

/// If the staged files are those of the last commit, `status` prints nothing.
pub fn equal_trees_have_no_status()
    ensures { (files : List File) → status_text files files ≡ [] }
{}

/// `status` looks at each path that either of two trees has, and at no other.
pub fn status_looks_at_the_paths_of_either()
    ensures { (path : List ℕ) (files others : List File)
        → list_any (bytes_eq path) (paths_of_both files others)
        ≡ (is_some (entry_of path files) || is_some (entry_of path others)) }
{}

/// `status` goes through the paths of two trees in rising order, and meets none twice.
pub fn status_looks_at_rising_paths()
    ensures { (files others : List File) → IsRising files → IsRising others
        → IsRisingBy path_itself (paths_of_both files others) }
{}

/// Two rising lists with the same paths are equal. So the paths that `status` looks at determine the list
/// that it goes through.
pub fn rising_paths_are_told_by_what_they_hold()
    ensures { (paths others : List (List ℕ)) → IsRisingBy path_itself paths → IsRisingBy path_itself others
        → ((path : List ℕ) → list_any (bytes_eq path) paths ≡ list_any (bytes_eq path) others) → paths ≡ others }
{}
