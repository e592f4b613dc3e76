//! Lists of the names of tags.

ghost use Rattle.std.specs.Prelude.{◌≡◌, ◌≤◌, ◌++◌, [], ◌∷◌, length, IfOk};
ghost use Rattle.hook_config.specs.Limits.{AreTexts, most_text_bytes};

use crate::config_text::ConfigText;
use hook_base::Text;
use std::alloc::{AllocError, Global};
use std::marker::Model;

/// The names of tags, in the order of the text, each of at most `MOST_TEXT_BYTES` bytes. Contracts see the
/// list of their texts.
#[derive(Debug, Drop)]
pub struct TagNames {
    names: Vec<Text>,
}

impl Model for TagNames {
    ghost use Rattle.std.specs.Prelude.{List, ℕ};
    ghost use Rattle.hook_config.specs.Limits.{AreTexts};

    ghost Value = { List (List ℕ) };

    ghost view = { λ tags. tags.names.items };

    ghost invariant = { λ tags. AreTexts tags.names.items };
}

impl TagNames {
    /// No tags.
    pub(crate) fn new(alloc: Global) -> Self
        ensures { result ≡ [] }
    {
        TagNames {
            names: Vec::new(alloc),
        }
    }

    /// Adds a tag after the others. `AllocError` if memory is refused.
    pub(crate) fn push(&mut self, tag: ConfigText) -> Result<(), AllocError>
        ensures { IfOk result (λ _. self.new ≡ self.old ++ tag ∷ []) }
    {
        self.names.push(tag.into_text())?;
        Ok(())
    }

    /// The names.
    pub fn as_slice(&self) -> &[Text]
        ensures same { result.now ≡ self.now }
        ensures within { AreTexts self.now }
    {
        self.names.as_slice()
    }
}
