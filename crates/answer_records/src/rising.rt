//! A record as a list of files in the order of their paths.

ghost use Rattle.std.specs.Prelude.{◌≡◌, ◌↔◌, IfOk, IsTrue};
ghost use Rattle.hook_base.specs.Rising.{IsRisingBy};
ghost use Rattle.answer_records.specs.Reading.{Decodes, IsRisingListOf};

use crate::item::Placed;
use crate::list::read_list;
use crate::unread::Unread;
use hook_base::{Items, OutOfMemory};
use std::alloc::Global;
use std::cmp::Ordering;

/// The items whose record these bytes are, with paths that rise.
pub(crate) fn read_rising<T: Placed>(
    alloc: Global,
    bytes: &[u8],
) -> Result<Option<Items<T>>, OutOfMemory>
    ensures { IfOk result (Decodes (IsRisingListOf T.is_item T.spelling T.place_of) bytes.now) }
{
    let items = match read_list::<T>(alloc, bytes) {
        Ok(items) => items,
        Err(Unread::NoRecord) => return Ok(None),
        Err(Unread::OutOfMemory) => return Err(OutOfMemory),
    };
    if !are_rising(items.as_slice()) {
        return Ok(None);
    }
    Ok(Some(Items::from(items)))
}

// Whether each path comes before the next.
fn are_rising<T: Placed>(items: &[T]) -> bool
    ensures { IsTrue result ↔ IsRisingBy T.place_of items.now }
{
    'pairs: for index in 1..items.len() {
        match items[index - 1].path().cmp(items[index].path()) {
            Ordering::Less => {}
            _ => return false,
        }
    }
    true
}
