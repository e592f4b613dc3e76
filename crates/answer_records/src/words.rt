//! The record of the words of a command.

ghost use Rattle.std.specs.Prelude.{◌≡◌, IfOk, IfErr};
ghost use Rattle.answer_records.specs.Records.{words_record};
ghost use Rattle.answer_records.specs.Reading.{Decodes, IsRecordRefusal, IsWordsRecord};

use crate::RecordFault;
use crate::draft::Draft;
use crate::fields::counted;
use crate::item::Item;
use crate::list::{list_record, read_list};
use crate::unread::Unread;
use hook_base::{Bytes, Items, OutOfMemory, Text};
use std::alloc::Global;
use std::str;

/// The record of the words of a command, in their order. `TooLarge` exactly if it would have more than
/// [`MOST_RECORD_BYTES`](crate::MOST_RECORD_BYTES) bytes. `OutOfMemory` if memory is refused.
#[tactic(auto, unfolding(crate::specs::Records::words_record))]
pub fn words_record(alloc: Global, words: &[Text]) -> Result<Bytes, RecordFault>
    ensures same { IfOk result (λ bytes. bytes ≡ words_record words.now) }
    ensures record { IfOk result (λ bytes. IsWordsRecord words.now bytes) }
    ensures refused { IfErr result (IsRecordRefusal (words_record words.now)) }
{
    list_record(alloc, words)
}

/// The words whose record these bytes are, or `None` if the bytes aren't such a record. `OutOfMemory` if
/// memory is refused.
pub fn read_words(alloc: Global, bytes: &[u8]) -> Result<Option<Items<Text>>, OutOfMemory>
    ensures { IfOk result (Decodes IsWordsRecord bytes.now) }
{
    match read_list(alloc, bytes) {
        Ok(words) => Ok(Some(Items::from(words))),
        Err(Unread::NoRecord) => Ok(None),
        Err(Unread::OutOfMemory) => Err(OutOfMemory),
    }
}

impl Item for Text {
    ghost use Rattle.std.specs.Str.{IsUtf8};
    ghost use Rattle.answer_records.specs.Records.{counted_bytes};
    ghost use Rattle.answer_records.specs.RecordLemmas.{words_told_apart};

    ghost is_item = { IsUtf8 };

    ghost spelling = { counted_bytes };

    ghost told_apart = { words_told_apart };

    fn put(&self, draft: &mut Draft) -> Result<(), RecordFault> {
        draft.put_counted(self.as_str().as_bytes())
    }

    fn take(alloc: Global, bytes: &[u8]) -> Result<(Text, &[u8]), Unread> {
        let Some((word, rest)) = counted(bytes) else {
            return Err(Unread::NoRecord);
        };
        let Ok(word) = str::from_utf8(word) else {
            return Err(Unread::NoRecord);
        };
        Ok((Text::copy_of(alloc, word)?, rest))
    }
}
