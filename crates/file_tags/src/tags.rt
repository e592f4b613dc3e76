//! The tags of one file.

ghost use Rattle.std.specs.Prelude.{◌≡◌};
ghost use Rattle.file_tags.specs.FileTags.{has_tag};
ghost use Rattle.file_tags.specs.TagTables.{texts_of};

use std::marker::Model;

/// What a file is, for example `python` or `executable`. Contracts see the list of the tags, each as the
/// list of its bytes.
#[derive(Debug, Drop)]
pub struct Tags {
    tags: Vec<&'static str>,
}

impl Model for Tags {
    ghost use Rattle.std.specs.Prelude.{List, ℕ};
    ghost use Rattle.file_tags.specs.TagTables.{texts_of};

    ghost Value = { List (List ℕ) };

    ghost view = { λ all. texts_of all.tags.items };
}

impl Tags {
    /// These tags.
    pub(crate) fn new(tags: Vec<&'static str>) -> Self
        ensures { result ≡ texts_of tags.entry.items }
    {
        Tags { tags }
    }

    /// Whether a tag is among them. Upper and lower case differ. It takes no memory.
    pub fn has(&self, tag: &str) -> bool
        ensures { result ≡ has_tag tag.now self.now }
    {
        has_tag(self.tags.as_slice(), tag)
    }
}

/// Whether a tag is among tags.
pub(crate) fn has_tag(tags: &[&'static str], tag: &str) -> bool
    ensures { result ≡ has_tag tag.now (texts_of tags.now) }
{
    tags.iter().any(|other| *other == tag)
}
