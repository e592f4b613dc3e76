//! The fields of a record, each read at the front of the bytes.

ghost use Rattle.std.specs.Prelude.{◌≡◌, ◌<◌, ◌^◌, ◌++◌, length, IfOk, IfErr, IfSome, IfNone};
ghost use Rattle.answer_records.specs.Items.{BeginsWithNoBytes, IsUnread};
ghost use Rattle.hook_base.specs.Paths.{message_path};
ghost use Rattle.answer_records.specs.Reading.{IsDigest, IsTreePath};
ghost use Rattle.answer_records.specs.Records.{counted_bytes, number_bytes};

use crate::unread::Unread;
use hook_base::{PathFault, RepoPath};
use std::alloc::Global;
use std::str;

/// The number at the front, and the rest.
pub(crate) fn number(bytes: &[u8]) -> Option<(u32, &[u8])>
    ensures found { IfSome result (λ read. bytes.now ≡ number_bytes read.0 ++ read.1.now) }
    ensures few { IfSome result (λ read. read.0 < 2 ^ 32) }
    ensures none { IfNone result (length bytes.now < 4) }
{
    let (front, rest) = bytes.split_first_chunk::<4>()?;
    Some((u32::from_be_bytes(*front), rest))
}

/// The bytes at the front, after their number, and the rest.
pub(crate) fn counted(bytes: &[u8]) -> Option<(&[u8], &[u8])>
    ensures found { IfSome result (λ read. bytes.now ≡ counted_bytes read.0.now ++ read.1.now) }
    ensures few { IfSome result (λ read. length read.0.now < 2 ^ 32) }
    ensures none { IfNone result (BeginsWithNoBytes bytes.now) }
{
    let (count, rest) = number(bytes)?;
    rest.split_at_checked(count as usize)
}

/// The digest at the front, and the rest.
pub(crate) fn digest_at(bytes: &[u8]) -> Option<(&[u8; 32], &[u8])>
    ensures found { IfSome result (λ read. bytes.now ≡ read.0.now ++ read.1.now) }
    ensures digest { IfSome result (λ read. IsDigest read.0.now) }
    ensures none { IfNone result (length bytes.now < 32) }
{
    bytes.split_first_chunk::<32>()
}

/// Reads bytes as the path of a file in a tree.
pub(crate) fn tree_path(alloc: Global, bytes: &[u8]) -> Result<RepoPath, Unread>
    ensures path { IfOk result (λ path. (path ≡ bytes.now) × IsTreePath bytes.now) }
    ensures unread { IfErr result (IsUnread (¬ IsTreePath bytes.now)) }
{
    let Ok(text) = str::from_utf8(bytes) else {
        return Err(Unread::NoRecord);
    };
    match RepoPath::read(alloc, text) {
        Ok(path) => Ok(path),
        Err(PathFault::OutOfMemory) => Err(Unread::OutOfMemory),
        Err(_) => message_path(alloc, text),
    }
}

// Reads a text as the path of a commit's message.
fn message_path(alloc: Global, text: &str) -> Result<RepoPath, Unread>
    ensures path { IfOk result (λ path. (path ≡ text.now) × (text.now ≡ message_path)) }
    ensures unread { IfErr result (IsUnread (¬ (text.now ≡ message_path))) }
{
    let message = RepoPath::message(alloc)?;
    if message.as_str() != text {
        return Err(Unread::NoRecord);
    }
    Ok(message)
}
