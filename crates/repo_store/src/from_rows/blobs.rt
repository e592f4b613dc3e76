//! The blobs that the rows of `blobs` hold.

ghost use Rattle.std.specs.Prelude.{◌≡◌, map, IfOk, IfErr, OnOk};
ghost use Rattle.std.specs.List.{AllByRecursion};
ghost use Rattle.store_faults.specs.Faults.{IsDamage};
ghost use Rattle.repo_store.specs.RowRules.{IsBlobRow};
ghost use Rattle.repo_store.specs.Rows.{blob_row};

use crate::StoreFault;
use crate::contents::Contents;
use std::alloc::Global;
use store_tables::BlobRow;

/// The blobs, each under the digest of its row.
pub(crate) fn contents_of(alloc: Global, rows: Vec<BlobRow>) -> Result<Contents, StoreFault>
    ensures contents { IfOk result (λ contents. map blob_row contents ≡ rows.items) }
    ensures obeys { OnOk result (AllByRecursion IsBlobRow rows.items) }
    ensures broken { IfErr result (IsDamage (¬ AllByRecursion IsBlobRow rows.items)) }
{
    let mut contents = Contents::new(alloc);
    'rows: for row in rows {
        contents.admit(row)?;
    }
    Ok(contents)
}
