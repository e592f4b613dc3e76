//! Changes of the staged files that are made together.

ghost use Rattle.std.specs.Prelude.{◌≡◌, ◌≢◌, [], None, IfSome};

use repo_store::StagingEdit;
use std::marker::Model;

/// Changes of the staged files that are made together, at least one. Contracts see the list.
#[derive(Debug, Drop)]
pub struct StagingEdits {
    edits: Vec<StagingEdit>,
}

impl Model for StagingEdits {
    ghost use Rattle.std.specs.Prelude.{List, [], ◌≢◌};
    ghost use Rattle.repo_store.specs.declared.staging_edit.StagingEdit.{StagingEdit};

    ghost Value = { List StagingEdit };

    ghost view = { λ all. all.edits.items };

    ghost invariant = { λ all. all.edits.items ≢ [] };
}

impl StagingEdits {
    /// Takes changes, or answers `None` if there are none. It takes no memory.
    pub fn of(edits: Vec<StagingEdit>) -> Option<StagingEdits>
        ensures taken { IfSome result (λ all. all ≡ edits.items) }
        ensures none { result ≡ None → edits.items ≡ [] }
    {
        if edits.is_empty() {
            return None;
        }
        Some(StagingEdits { edits })
    }

    /// The changes, in order. It takes no memory.
    pub fn as_slice(&self) -> &[StagingEdit]
        ensures same { result.now ≡ self.now }
        ensures some { self.now ≢ [] }
    {
        self.edits.as_slice()
    }
}
