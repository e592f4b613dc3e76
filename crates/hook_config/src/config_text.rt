//! The texts of a configuration.

ghost use Rattle.std.specs.Prelude.{◌≡◌, ◌≢◌, ◌≤◌, ◌<◌, ◌↔◌, length, string_bytes, IsNone, IfOk, IfSome, []};
ghost use Rattle.hook_config.specs.Limits.{most_text_bytes};

use crate::limits::MOST_TEXT_BYTES;
use hook_base::Text;
use std::alloc::{AllocError, Global};
use std::marker::Model;

/// A text of a configuration, of at most `MOST_TEXT_BYTES` bytes. Contracts see it as the list of its bytes
/// in UTF-8.
#[derive(Debug, Drop)]
pub struct ConfigText {
    text: String,
}

impl Model for ConfigText {
    ghost use Rattle.std.specs.Prelude.{List, ℕ, ◌≤◌, length, string_bytes};
    ghost use Rattle.hook_config.specs.Limits.{most_text_bytes};

    ghost Value = { List ℕ };

    ghost view = { λ owned. string_bytes owned.text };

    ghost invariant = { λ owned. length (string_bytes owned.text) ≤ most_text_bytes };
}

impl ConfigText {
    /// The text, or nothing if it is longer than `MOST_TEXT_BYTES`.
    pub fn new(text: String) -> Option<Self>
        ensures long { IsNone result ↔ (most_text_bytes < length (string_bytes text)) }
        ensures same { IfSome result (λ owned. owned ≡ string_bytes text) }
    {
        if text.len() <= MOST_TEXT_BYTES {
            Some(ConfigText { text })
        } else {
            None
        }
    }

    /// A copy of a text that is no longer than a text may be. `AllocError` if memory is refused.
    pub(crate) fn copy_of(alloc: Global, text: &str) -> Result<Self, AllocError>
        requires { length text.now ≤ most_text_bytes }
        ensures { IfOk result (λ owned. owned ≡ text.now) }
    {
        let text = String::from_str(alloc, text)?;
        Ok(ConfigText { text })
    }

    /// The empty text.
    pub fn empty(alloc: Global) -> Self
        ensures { result ≡ [] }
    {
        ConfigText {
            text: String::new(alloc),
        }
    }

    /// The text, of at most `MOST_TEXT_BYTES` bytes.
    pub fn as_str(&self) -> &str
        ensures same { result.now ≡ self.now }
        ensures within { length self.now ≤ most_text_bytes }
    {
        self.text.as_str()
    }

    /// The same text, without its limit. It allocates nothing.
    pub(crate) fn into_text(self) -> Text
        ensures same { result ≡ self }
        ensures within { length self ≤ most_text_bytes }
    {
        let ConfigText { text } = self;
        Text::from(text)
    }
}

impl Clone for ConfigText {
    ghost use Rattle.std.specs.Prelude.{◌≡◌};

    ghost is_clone = { λ made source. made ≡ source };

    fn clone(&self) -> Result<Self, AllocError> {
        Ok(ConfigText {
            text: self.text.clone()?,
        })
    }
}
