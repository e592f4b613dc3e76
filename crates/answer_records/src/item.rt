//! The items of a record.

use crate::RecordFault;
use crate::draft::Draft;
use crate::unread::Unread;
use hook_base::RepoPath;
use std::alloc::Global;

/// An item of the list in a record. No spelling of an item is the beginning of another's.
pub(crate) trait Item: Drop {
    ghost use Rattle.std.specs.Prelude.{◌≡◌, ◌++◌, List, ℕ, IfOk, IfErr, OnOk};
    ghost use Rattle.answer_records.specs.Reading.{IsRecordRefusal};
    ghost use Rattle.answer_records.specs.Items.{BeginsWithNone, IsToldApart, IsUnread};

    /// Which values are items.
    ghost is_item: { Self → Type 0 };

    /// The bytes of an item.
    ghost spelling: { Self → List ℕ };

    /// Adds the item to a record.
    fn put(&self, draft: &mut Draft) -> Result<(), RecordFault>
        ensures added { OnOk result (draft.new ≡ draft.old ++ spelling self.now) }
        ensures item { OnOk result (is_item self.now) }
        ensures refused { IfErr result (IsRecordRefusal (draft.old ++ spelling self.now)) };

    /// The item at the front of the bytes, and the rest.
    fn take(alloc: Global, bytes: &[u8]) -> Result<(Self, &[u8]), Unread>
        ensures found { IfOk result (λ read. is_item read.0 × (bytes.now ≡ spelling read.0 ++ read.1.now)) }
        ensures unread { IfErr result (IsUnread (BeginsWithNone is_item spelling bytes.now)) };

    ghost told_apart: { IsToldApart is_item spelling };
}

/// An item about a file.
pub(crate) trait Placed: Item {
    ghost use Rattle.std.specs.Prelude.{◌≡◌, List, ℕ};

    /// The file's path.
    ghost place_of: { Self → List ℕ };

    /// The file's path.
    fn path(&self) -> &RepoPath
        ensures { result.now ≡ place_of self.now };
}
