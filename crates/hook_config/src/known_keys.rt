//! The keys of a configuration's three tables (pre-commit.com, "Adding pre-commit plugins to your project"
//! and "Creating new hooks"). `specs/KnownKeys.antt` says what each has to be. The functions that read the
//! value at a key, or compare a key with these, are proved only if the words here and there are the same.
//! (docs/REFERENCE.md, "The configuration's keys".)
//!
//! What else a further key of a hook touches is listed in `docs/ARCHITECTURE.md`, "Where a change goes",
//! under "A hook key".

ghost use Rattle.std.specs.Prelude.{◌≡◌};
ghost use Rattle.hook_config.specs.KnownKeys.{hook_keys, is_key, rows_of_known_keys, repository_keys, top_keys};

/// What the value at a key has to be.
#[derive(Clone, Copy, Debug, PartialEq, Eq)]
pub enum KeyKind {
    /// A text, and it has to be there.
    RequiredText,
    /// A list, and it has to be there.
    RequiredList,
    /// A text.
    Text,
    /// A list of texts.
    Texts,
    /// An unquoted word for true or false.
    Truth,
    /// A text in which `regex` reads a pattern.
    Pattern,
    /// An unquoted number from 1 to [`MOST_NAMES`](crate::MOST_NAMES), as
    /// [`name_count_of_word`](crate::name_count_of_word) reads it.
    NameCount,
    /// Anything: a value that says nothing to this runner is ignored.
    Ignored,
}

/// The keys of the table at the top, in the order in which they are read, and then those that are ignored.
/// Any other key is ignored too, and listed in [`Config::unknown`](crate::Config::unknown).
pub fn top_keys() -> &'static [(&'static str, KeyKind)]
    ensures { rows_of_known_keys result.now ≡ top_keys }
{
    &[
        ("default_stages", KeyKind::Texts),
        ("files", KeyKind::Pattern),
        ("exclude", KeyKind::Pattern),
        ("fail_fast", KeyKind::Truth),
        ("repos", KeyKind::RequiredList),
        ("ci", KeyKind::Ignored),
        ("default_install_hook_types", KeyKind::Ignored),
        ("default_language_version", KeyKind::Ignored),
        ("minimum_pre_commit_version", KeyKind::Ignored),
    ]
}

/// The keys of a repository's table, in the same order as those of [`top_keys`].
pub fn repository_keys() -> &'static [(&'static str, KeyKind)]
    ensures { rows_of_known_keys result.now ≡ repository_keys }
{
    &[
        ("repo", KeyKind::RequiredText),
        ("hooks", KeyKind::RequiredList),
    ]
}

/// The keys of a hook's table, in the same order as those of [`top_keys`].
pub fn hook_keys() -> &'static [(&'static str, KeyKind)]
    ensures { rows_of_known_keys result.now ≡ hook_keys }
{
    &[
        ("log_file", KeyKind::Text),
        ("additional_dependencies", KeyKind::Texts),
        ("id", KeyKind::RequiredText),
        ("name", KeyKind::RequiredText),
        ("alias", KeyKind::Text),
        ("language", KeyKind::RequiredText),
        ("entry", KeyKind::RequiredText),
        ("args", KeyKind::Texts),
        ("files", KeyKind::Pattern),
        ("exclude", KeyKind::Pattern),
        ("types", KeyKind::Texts),
        ("types_or", KeyKind::Texts),
        ("exclude_types", KeyKind::Texts),
        ("stages", KeyKind::Texts),
        ("always_run", KeyKind::Truth),
        ("verbose", KeyKind::Truth),
        ("pass_filenames", KeyKind::Truth),
        ("fail_fast", KeyKind::Truth),
        ("x_reads", KeyKind::Pattern),
        ("x_per_file", KeyKind::Truth),
        ("x_at_most", KeyKind::NameCount),
        ("language_version", KeyKind::Ignored),
        ("minimum_pre_commit_version", KeyKind::Ignored),
        ("require_serial", KeyKind::Ignored),
        ("description", KeyKind::Ignored),
    ]
}

/// Whether one of the keys has the word.
pub fn is_key(keys: &[(&str, KeyKind)], word: &str) -> bool
    ensures { result ≡ is_key (rows_of_known_keys keys.now) word.now }
{
    for (key, _) in keys {
        if *key == word {
            return true;
        }
    }
    false
}
