//! Owned texts, as lists of bytes.

ghost use Rattle.std.specs.Prelude.{◌≡◌, ◌↔◌, [], length, string_bytes, IfOk, IsTrue};

use crate::{Items, OutOfMemory};
use std::alloc::{AllocError, Global};
use std::marker::Model;

/// A text that contracts see as the list of its bytes in UTF-8. It is made from a `String` and turned back
/// into it without an allocation.
#[derive(Debug, Drop)]
pub struct Text {
    text: String,
}

impl Model for Text {
    ghost use Rattle.std.specs.Prelude.{List, ℕ, string_bytes};

    ghost Value = { List ℕ };

    ghost view = { λ owned. string_bytes owned.text };
}

impl Text {
    /// A copy of the text, or `OutOfMemory` if memory is refused.
    pub fn copy_of(alloc: Global, text: &str) -> Result<Self, OutOfMemory>
        ensures { IfOk result (λ copy. copy ≡ text.now) }
    {
        let text = String::from_str(alloc, text)?;
        Ok(Text { text })
    }

    /// The number of bytes.
    pub fn len(&self) -> usize
        ensures { result ≡ length self.now }
    {
        self.text.len()
    }

    /// Whether there are no bytes.
    pub fn is_empty(&self) -> bool
        ensures { IsTrue result ↔ (self.now ≡ []) }
    {
        self.text.is_empty()
    }

    /// The same text, borrowed.
    pub fn as_str(&self) -> &str
        ensures { result.now ≡ self.now }
    {
        self.text.as_str()
    }

    /// The same text, as a `String`. It allocates nothing.
    pub fn into_string(self) -> String
        ensures { string_bytes result ≡ self }
    {
        let Text { text } = self;
        text
    }
}

impl From<String> for Text {
    ghost use Rattle.std.specs.Prelude.{string_bytes, ◌≡◌};

    ghost from_gives = { λ text owned. owned ≡ string_bytes text };

    fn from(text: String) -> Self {
        Text { text }
    }
}

impl Clone for Text {
    ghost use Rattle.std.specs.Prelude.{◌≡◌, string_bytes};

    ghost is_clone = { λ source made. made ≡ source };

    fn clone(&self) -> Result<Self, AllocError> {
        Ok(Text {
            text: self.text.clone()?,
        })
    }
}

impl PartialEq for Text {
    ghost use Rattle.std.specs.Prelude.{nat_eq};
    ghost use Rattle.std.specs.Cmp.{partial_equiv_from_equiv};
    ghost use Rattle.std.specs.Cmp.Lexicographic.{nat_list_eq_equiv, pointwise};

    ghost eq = { pointwise nat_eq };

    ghost laws = { partial_equiv_from_equiv nat_list_eq_equiv };

    fn eq(&self, other: &Self) -> bool {
        self.text == other.text
    }
}

impl Eq for Text {
    ghost use Rattle.std.specs.Cmp.Lexicographic.{nat_list_eq_equiv};

    ghost laws = { nat_list_eq_equiv };
}

/// A copy of the texts, or `OutOfMemory` if memory is refused.
pub fn copy_texts(alloc: Global, texts: &[Text]) -> Result<Items<Text>, OutOfMemory>
    ensures { IfOk result (λ copy. copy ≡ texts.now) }
{
    let texts = texts.to_vec(alloc)?;
    Ok(Items::from(texts))
}
