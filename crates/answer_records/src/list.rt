//! A record as a list of items of one kind.

ghost use Rattle.std.specs.Prelude.{IfOk, IfErr};
ghost use Rattle.answer_records.specs.Records.{list_bytes};
ghost use Rattle.answer_records.specs.Reading.{IsListOf, IsRecordRefusal};
ghost use Rattle.answer_records.specs.Items.{HasNoValue, IsUnread};

use crate::draft::Draft;
use crate::fields::number;
use crate::item::Item;
use crate::unread::Unread;
use crate::{MOST_RECORD_BYTES, RecordFault};
use hook_base::Bytes;
use std::alloc::Global;

/// The record of the items, in their order.
pub(crate) fn list_record<T: Item>(alloc: Global, items: &[T]) -> Result<Bytes, RecordFault>
    ensures record { IfOk result (λ bytes. IsListOf T.is_item T.spelling items.now bytes) }
    ensures refused { IfErr result (IsRecordRefusal (list_bytes T.spelling items.now)) }
{
    let mut draft = Draft::of_items(alloc, items.len())?;
    'items: for item in items {
        item.put(&mut draft)?;
    }
    Ok(draft.into_bytes())
}

/// The items whose record these bytes are.
pub(crate) fn read_list<T: Item>(alloc: Global, bytes: &[u8]) -> Result<Vec<T>, Unread>
    ensures found { IfOk result (λ items. IsListOf T.is_item T.spelling items.items bytes.now) }
    ensures unread { IfErr result (IsUnread (HasNoValue (IsListOf T.is_item T.spelling) bytes.now)) }
{
    if bytes.len() > MOST_RECORD_BYTES {
        return Err(Unread::NoRecord);
    }
    let Some((count, mut rest)) = number(bytes) else {
        return Err(Unread::NoRecord);
    };
    let mut items = Vec::new(alloc);
    'items: for _ in 0..count {
        let (item, after) = T::take(alloc, rest)?;
        items.push(item)?;
        rest = after;
    }
    if !rest.is_empty() {
        return Err(Unread::NoRecord);
    }
    Ok(items)
}
