//! How many file names each command of a hook gets in a cautious run. (docs/REFERENCE.md, "Known tools".)

ghost use Rattle.std.specs.Prelude.{◌≡◌, ◌&&◌, not};
ghost use Rattle.std.specs.List.{list_any};
ghost use Rattle.run_options.specs.SplitFiles.{can_split, is_sum_option, language_splits, limits_sum, may_split, new_most_names, tool_splits};
ghost use Rattle.run_options.specs.Tools.{tool_in, tool_rows};

use crate::harmless::are_harmless;
use crate::tools::{Verdict, tool_named};
use hook_base::Text;
use hook_config::{Hook, Language, MOST_NAMES};

// The most names that each of the commands gets if the files of a hook are split. With fewer, the start of a
// tool like eslint takes longer than its work.
const SPLIT_NAMES: usize = 100;

/// The most file names that each command of the hook gets in a cautious run. It is `SPLIT_NAMES` if the hook
/// doesn't say a number itself, isn't serial, and its files may be split (`can_split`).
pub(crate) fn new_most_names(hook: &Hook) -> usize
    ensures { result ≡ new_most_names hook.now }
{
    if may_split(hook) && language_splits(&hook.language) {
        SPLIT_NAMES
    } else {
        hook.x_at_most
    }
}

fn may_split(hook: &Hook) -> bool
    ensures { result ≡ may_split hook.now }
{
    hook.x_at_most == MOST_NAMES && !hook.require_serial && hook.pass_filenames && !hook.always_run
}

fn language_splits(language: &Language) -> bool
    ensures { result ≡ language_splits language.now }
{
    match language {
        Language::System(words) => can_split(words.as_slice()),
        Language::Fail | Language::Pygrep(_) | Language::Script(_) => false,
    }
}

/// Whether the files of a command with these words may be split among several commands, so that they say the
/// same together: it is a known tool with harmless words, and its verdict on a file doesn't depend on others.
pub fn can_split(words: &[Text]) -> bool
    ensures { result ≡ can_split words.now }
{
    match words {
        [name, others @ ..] => tool_splits(name.as_str(), others),
        [] => false,
    }
}

fn tool_splits(name: &str, words: &[Text]) -> bool
    ensures { result ≡ tool_splits (tool_in tool_rows name.now) words.now }
{
    match tool_named(name) {
        Some((kind, _, Verdict::OfEach)) => { are_harmless(kind, words) && !limit_sum(words) }
        _ => false,
    }
}

fn limit_sum(words: &[Text]) -> bool
    ensures { result ≡ list_any limits_sum words.now }
{
    words.iter().any(|word| limits_sum(word.as_str()))
}

// An option with which few faults in each part pass, though together they are too many. With a limit of 0 the
// first one fails in any part.
fn limits_sum(word: &str) -> bool
    ensures { result ≡ limits_sum word.now }
{
    is_sum_option(word) && word != "--max-warnings=0"
}

// An option of eslint and stylelint: how many warnings all files may have together.
fn is_sum_option(word: &str) -> bool
    ensures { result ≡ is_sum_option word.now }
{
    word.starts_with("--max-warnings=")
}
