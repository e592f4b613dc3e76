//! A record while it is written.

ghost use Rattle.std.specs.Prelude.{◌≡◌, ◌<◌, ◌++◌, IfOk, IfErr, OnOk};
ghost use Rattle.answer_records.specs.Limits.{IsStorable, most_record_bytes};
ghost use Rattle.answer_records.specs.Reading.{IsRecordRefusal};
ghost use Rattle.answer_records.specs.Records.{counted_bytes, number_bytes};
ghost use Rattle.answer_records.specs.Items.{IsCountRefusal};

use crate::{MOST_RECORD_BYTES, RecordFault};
use hook_base::Bytes;
use std::alloc::Global;
use std::marker::Model;

/// The beginning of a record. It never gets larger than a record may be. Contracts see its bytes.
#[derive(Drop)]
pub(crate) struct Draft {
    bytes: Vec<u8>,
}

impl Model for Draft {
    ghost use Rattle.std.specs.Prelude.{List, ℕ};
    ghost use Rattle.answer_records.specs.Limits.{IsStorable};

    ghost Value = { List ℕ };

    ghost view = { λ draft. draft.bytes.items };

    ghost invariant = { λ draft. IsStorable draft.bytes.items };
}

impl Draft {
    /// The beginning of a record of `count` items.
    pub(crate) fn of_items(alloc: Global, count: usize) -> Result<Draft, RecordFault>
        ensures number { IfOk result (λ draft. draft ≡ number_bytes count) }
        ensures refused { IfErr result (IsCountRefusal count) }
    {
        if count > MOST_RECORD_BYTES {
            return Err(RecordFault::TooLarge);
        }
        let bytes = Vec::from_slice(alloc, &(count as u32).to_be_bytes())?;
        Ok(Draft { bytes })
    }

    /// Adds bytes.
    pub(crate) fn put(&mut self, bytes: &[u8]) -> Result<(), RecordFault>
        ensures added { OnOk result (self.new ≡ self.old ++ bytes.now) }
        ensures refused { IfErr result (IsRecordRefusal (self.old ++ bytes.now)) }
    {
        if bytes.len() > MOST_RECORD_BYTES - self.bytes.len() {
            return Err(RecordFault::TooLarge);
        }
        self.bytes.extend_from_slice(bytes)?;
        Ok(())
    }

    /// Adds the number of bytes, and then the bytes.
    pub(crate) fn put_counted(&mut self, bytes: &[u8]) -> Result<(), RecordFault>
        ensures added { OnOk result (self.new ≡ self.old ++ counted_bytes bytes.now) }
        ensures refused { IfErr result (IsRecordRefusal (self.old ++ counted_bytes bytes.now)) }
    {
        if bytes.len() > MOST_RECORD_BYTES {
            return Err(RecordFault::TooLarge);
        }
        self.put(&(bytes.len() as u32).to_be_bytes())?;
        self.put(bytes)
    }

    /// The bytes.
    pub(crate) fn into_bytes(self) -> Bytes
        ensures same { result ≡ self }
        ensures storable { IsStorable self }
    {
        let Draft { bytes } = self;
        Bytes::from(bytes)
    }
}
