//! Laws of the definitions that the contracts cite. Each function returns nothing: what it ensures is a
//! theorem.

ghost use Rattle.std.specs.Prelude.{◌↔◌, ℕ, List};
ghost use Rattle.lazy_disk.specs.DueCut.{MayLeaveDue};
ghost use Rattle.lazy_disk.specs.LazyDisk.{cut_of, inner_of};

use crate::LazyDisk;
use sqlite_disk::Disk;

/// Whatever a crash may leave of the disk below, it may also leave of this disk: a cut that is delayed may be
/// lost.
#[tactic(auto, using(crate::proofs::CutLemmas::left_below))]
pub fn what_the_disk_below_may_leave_may_be_left<D: Disk>(disk: &LazyDisk<D>)
    ensures { (left : List ℕ) → D.Disk.may_leave (inner_of disk.now) left
        → ⟦<LazyDisk<D> as Disk>⟧.may_leave disk.now left }
{}

/// While a cut is delayed, a crash may leave whatever an unsynced cut may make of what the disk below may
/// keep. Otherwise it may leave just what the disk below may keep.
pub fn a_cut_that_is_put_off_is_not_synced<D: Disk>(disk: &LazyDisk<D>)
    ensures { (left : List ℕ) → ⟦<LazyDisk<D> as Disk>⟧.may_leave disk.now left
        ↔ MayLeaveDue (cut_of disk.now) (D.Disk.may_leave (inner_of disk.now)) left }
{}
