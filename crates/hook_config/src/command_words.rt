//! The words of a hook's command.

ghost use Rattle.std.specs.Prelude.{◌≡◌, ◌≢◌, [], ◌∷◌, IfOk};
ghost use Rattle.hook_config.specs.CommandWords.{command_words_of, entry_words_of, first_word};
ghost use Rattle.hook_config.specs.Gives.{GivesValue};

use crate::config_fault::ConfigKind;
use crate::config_text::ConfigText;
use arg_partition::words;
use hook_base::Text;
use std::alloc::Global;
use std::marker::Model;

/// The words of a hook's command: those of its entry, then its arguments. There is at least one, and the
/// first isn't empty. Contracts see the list of their texts.
#[derive(Debug, Drop)]
pub struct CommandWords {
    words: Vec<Text>,
}

impl Model for CommandWords {
    ghost use Rattle.std.specs.Prelude.{◌≢◌, List, ℕ, []};
    ghost use Rattle.hook_config.specs.CommandWords.{first_word};

    ghost Value = { List (List ℕ) };

    ghost view = { λ command. command.words.items };

    ghost invariant = { λ command. first_word command.words.items ≢ [] };
}

impl CommandWords {
    /// The words of an entry with these arguments. `BadEntry` if the entry can't be cut into words, has none,
    /// or its first word is empty.
    #[tactic(auto, unfolding(crate::specs::CommandWords::command_words_of))]
    pub(crate) fn read(
        alloc: Global,
        entry: &ConfigText,
        args: &[ConfigText],
    ) -> Result<Self, ConfigKind>
        ensures { GivesValue (λ words. words) result (command_words_of entry.now args.now) }
    {
        let mut words = entry_words_of(alloc, entry.as_str())?;
        for arg in args {
            words.push(arg.clone()?.into_text())?;
        }
        Ok(CommandWords { words })
    }

    /// All words: there is at least one, and the first isn't empty.
    pub fn as_slice(&self) -> &[Text]
        ensures same { result.now ≡ self.now }
        ensures named { first_word self.now ≢ [] }
    {
        self.words.as_slice()
    }

    /// The first word, which isn't empty.
    pub fn first(&self) -> &Text
        ensures same { result.now ≡ first_word self.now }
        ensures named { result.now ≢ [] }
    {
        &self.words[0]
    }

    /// The words after the first.
    pub fn rest(&self) -> &[Text]
        ensures { self.now ≡ first_word self.now ∷ result.now }
    {
        &self.words[1..]
    }
}

// The words of an entry. The first isn't empty.
#[tactic(auto, unfolding(crate::specs::CommandWords::entry_words_of))]
fn entry_words_of(alloc: Global, entry: &str) -> Result<Vec<Text>, ConfigKind>
    ensures words { GivesValue (λ words. words.items) result (entry_words_of entry.now) }
    ensures named { IfOk result (λ words. first_word words.items ≢ []) }
{
    let words = words(alloc, entry)?.into_vec();
    match words.as_slice() {
        [first, ..] if !first.is_empty() => Ok(words),
        _ => Err(ConfigKind::BadEntry),
    }
}
