//! A file's tags, shared between lists of them.

ghost use Rattle.std.specs.Prelude.{◌≡◌, IfOk};

use crate::Tags;
use hook_base::OutOfMemory;
use std::alloc::{AllocError, Global};
use std::marker::Model;
use std::rc::Rc;

/// The tags of a file, shared, so that a copy takes no memory. Contracts see the tags.
#[derive(Debug, Drop)]
pub(crate) struct SharedTags {
    tags: Rc<Tags>,
}

impl Model for SharedTags {
    ghost use Rattle.std.specs.Prelude.{List, ℕ};

    ghost Value = { List (List ℕ) };

    ghost view = { λ shared. shared.tags.value };
}

impl SharedTags {
    /// The tags, to be shared. `OutOfMemory` if memory is refused.
    pub(crate) fn new(alloc: Global, tags: Tags) -> Result<SharedTags, OutOfMemory>
        ensures { IfOk result (λ shared. shared ≡ tags) }
    {
        let tags = Rc::new(alloc, tags)?;
        Ok(SharedTags { tags })
    }

    /// The tags.
    pub(crate) fn as_tags(&self) -> &Tags
        ensures { result.now ≡ self.now }
    {
        self.tags.as_ref()
    }
}

// The same tags, shared once more. `AllocError` if they have too many owners to be counted.
impl Clone for SharedTags {
    ghost use Rattle.std.specs.Prelude.{◌≡◌};

    ghost is_clone = { λ source made. made ≡ source };

    fn clone(&self) -> Result<Self, AllocError> {
        let tags = self.tags.clone()?;
        Ok(SharedTags { tags })
    }
}
