//! The languages. A further one needs a variant of `Language` and of `LanguageName`, its word in `of_word`
//! here and in `specs/Languages.antt`, and a case in both `language_of`. What its hooks answer is in
//! `hook_run`: `IsLanguageRun` of its `specs/HookRun.antt`, and `begin_language` of its `begin.rt`.

ghost use Rattle.std.specs.Prelude.{◌≡◌, IfOk, IfErr, map};
ghost use Rattle.hook_config.specs.Gives.{GivesValue};
ghost use Rattle.hook_config.specs.Languages.{grep_of, language_of, name_of_word};
ghost use Rattle.hook_config.specs.declared.config_fault.ConfigKind.TheVariants.{OutOfMemory};

use crate::command_words::CommandWords;
use crate::config_fault::ConfigKind;
use crate::config_text::ConfigText;
use crate::configuration::Language;
use builtin_hooks::Grep;
use std::alloc::Global;

/// The name of a language.
#[derive(Clone, Copy)]
pub(crate) enum LanguageName {
    Fail,
    Pygrep,
    System,
    Script,
}

impl LanguageName {
    /// The language that the word names, or nothing if it names none.
    pub(crate) fn of_word(word: &str) -> Option<Self>
        ensures { result ≡ name_of_word word.now }
    {
        if word == "fail" {
            Some(LanguageName::Fail)
        } else if word == "pygrep" {
            Some(LanguageName::Pygrep)
        } else if word == "system" {
            Some(LanguageName::System)
        } else if word == "script" {
            Some(LanguageName::Script)
        } else {
            None
        }
    }
}

/// The language of this name, for an entry and its arguments.
pub(crate) fn language_of(
    alloc: Global,
    name: LanguageName,
    entry: &ConfigText,
    args: &[ConfigText],
) -> Result<Language, ConfigKind>
    ensures { GivesValue (λ language. language) result (language_of name entry.now args.now) }
{
    match name {
        LanguageName::Fail => Ok(Language::Fail),
        LanguageName::Pygrep => Ok(Language::Pygrep(grep_of(alloc, entry, args)?)),
        LanguageName::System => Ok(Language::System(CommandWords::read(alloc, entry, args)?)),
        LanguageName::Script => Ok(Language::Script(CommandWords::read(alloc, entry, args)?)),
    }
}

// What an entry and its arguments ask to look for. `BadArgs` if an argument isn't known, whatever the entry
// is; `BadPattern` if `regex` doesn't take the entry.
#[tactic(auto, unfolding(crate::specs::Languages::grep_of))]
fn grep_of(alloc: Global, entry: &ConfigText, args: &[ConfigText]) -> Result<Grep, ConfigKind>
    ensures { GivesValue (λ grep. grep) result (grep_of entry.now args.now) }
{
    let words = words_of(alloc, args)?;
    Ok(Grep::build(alloc, entry.as_str(), words.as_slice())?)
}

fn words_of<'a>(alloc: Global, args: &'a [ConfigText]) -> Result<Vec<&'a str>, ConfigKind>
    ensures same { IfOk result (λ words. map (λ word. word.now) words.items ≡ args.now) }
    ensures refused { IfErr result (λ kind. kind ≡ OutOfMemory) }
{
    let mut words = Vec::with_capacity(alloc, args.len())?;
    for arg in args {
        words.push(arg.as_str())?;
    }
    Ok(words)
}
