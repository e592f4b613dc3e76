//! The words that a configuration knows, to be proposed for an unknown one that is near. Each list except
//! that of the tags is proved to be the one of `specs/KnownWords.antt`, which takes its words from
//! `hook_config`. The keys are those of `hook_config` itself.

ghost use Rattle.std.specs.Prelude.{◌≡◌};
ghost use Rattle.hook_config.specs.Rows.{texts};
ghost use Rattle.configuration_explain.specs.KnownWords.{argument_words, language_words, local_words, stage_words, truth_words};

use crate::marks::Owner;
use hook_config::{KeyKind, hook_keys, repository_keys, top_keys};

/// The names of the stages, the older ones too.
pub(crate) fn stage_words() -> &'static [&'static str]
    ensures { texts result.now ≡ stage_words }
{
    &[
        "pre-commit",
        "commit",
        "pre-merge-commit",
        "merge-commit",
        "pre-push",
        "push",
        "prepare-commit-msg",
        "commit-msg",
        "post-checkout",
        "post-commit",
        "post-merge",
        "post-rewrite",
        "pre-rebase",
        "manual",
    ]
}

/// The languages.
pub(crate) fn language_words() -> &'static [&'static str]
    ensures { texts result.now ≡ language_words }
{
    &["system", "script", "fail", "pygrep"]
}

/// The one repository that is served.
pub(crate) fn local_words() -> &'static [&'static str]
    ensures { texts result.now ≡ local_words }
{
    &["local"]
}

/// The arguments of `pygrep`.
pub(crate) fn argument_words() -> &'static [&'static str]
    ensures { texts result.now ≡ argument_words }
{
    &["-i", "--ignore-case", "--multiline", "--negate"]
}

/// The words for true and false.
pub(crate) fn truth_words() -> &'static [&'static str]
    ensures { texts result.now ≡ truth_words }
{
    &[
        "true", "True", "TRUE", "yes", "Yes", "YES", "on", "On", "ON", "false", "False", "FALSE",
        "no", "No", "NO", "off", "Off", "OFF",
    ]
}

/// The tags that a file may have: those of the tables of `file_tags`, and those that each file has.
pub(crate) fn tag_words() -> &'static [&'static str] {
    &[
        "awk",
        "bash",
        "binary",
        "c",
        "c#",
        "c++",
        "cmake",
        "css",
        "csv",
        "dash",
        "dockerfile",
        "editorconfig",
        "executable",
        "file",
        "gif",
        "gitattributes",
        "gitignore",
        "go",
        "go-mod",
        "groovy",
        "gzip",
        "header",
        "html",
        "icon",
        "image",
        "ini",
        "jar",
        "java",
        "javascript",
        "jenkins",
        "jpeg",
        "json",
        "jsx",
        "kotlin",
        "ksh",
        "lua",
        "makefile",
        "markdown",
        "non-executable",
        "pdf",
        "perl",
        "php",
        "plain-text",
        "plist",
        "png",
        "proto",
        "pyi",
        "python",
        "python2",
        "python3",
        "r",
        "rst",
        "ruby",
        "rust",
        "scala",
        "sh",
        "shell",
        "sql",
        "swift",
        "terraform",
        "tex",
        "text",
        "toml",
        "ts",
        "tsx",
        "vue",
        "xml",
        "yaml",
        "zip",
        "zsh",
    ]
}

/// The keys of a table, in the order in which they are read.
pub(crate) fn keys_of(owner: Owner) -> &'static [(&'static str, KeyKind)] {
    match owner {
        Owner::Top => top_keys(),
        Owner::Repository(_) => repository_keys(),
        Owner::Hook(_) => hook_keys(),
    }
}

/// Whether the word is one of these.
pub(crate) fn is_among(words: &[&str], word: &str) -> bool {
    for known in words {
        if *known == word {
            return true;
        }
    }
    false
}
