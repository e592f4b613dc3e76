//! The words of a child's command, read from their record.

ghost use Rattle.std.specs.Prelude.{◌≡◌, ℕ, List, map, IfOk, IfErr};
ghost use Rattle.sha2.specs.Sha256.{sha256};
ghost use Rattle.answer_records.specs.Reading.{IsWordsRecord};
ghost use Rattle.repo_store.specs.Complete.{IsAmong};
ghost use Rattle.store_faults.specs.Faults.{IsDamage};
ghost use Rattle.repo_store.specs.RowRules.{HasKept};
ghost use Rattle.repo_store.specs.Rows.{blob_row};

use super::columns::content_at;
use super::recorded::Recorded;
use crate::StoreFault;
use crate::contents::Contents;
use answer_records::read_words;
use hook_base::{Items, Text};
use std::alloc::Global;

/// The words whose record is kept under a digest.
pub(crate) fn words_at(
    alloc: Global,
    contents: &Contents,
    digest: &[u8],
) -> Result<Recorded<Items<Text>>, StoreFault>
    ensures named { IfOk result (λ words. sha256 words.record ≡ digest.now) }
    ensures among { IfOk result (λ words. IsAmong contents.now words.record) }
    ensures record { IfOk result (λ words. IsWordsRecord words.part words.record) }
    ensures broken { IfErr result (IsDamage
        ((words : List (List ℕ)) → ¬ HasKept (map blob_row contents.now) digest.now (IsWordsRecord words))) }
{
    let record = content_at(contents, digest)?;
    let Some(part) = read_words(alloc, record.as_slice())? else {
        return Err(StoreFault::Damaged);
    };
    Ok(Recorded { part, record })
}
