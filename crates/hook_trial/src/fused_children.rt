//! Children with one call that fails, read from a row's first words. After `fused` come the number of that
//! call and its fault. Then, as without that word, comes the table from which the others answer
//! (`child_tables.rt`).

use crate::child_tables::children_of;
use crate::turn_children::TurnChildren;
use child_port::{Fault, FuseChildren};
use std::alloc::Global;
use trial_rows::{Stop, Words, fault_of};

/// The children that the first words describe.
pub(crate) fn fused_children_of(
    alloc: Global,
    words: &mut Words<'_>,
) -> Result<FuseChildren<TurnChildren>, Stop> {
    let (kth, fault) = fuse_of(words)?;
    let children = children_of(alloc, words)?;
    Ok(FuseChildren::new(children, kth, fault))
}

// Which call fails, and its fault. Without the word none fails.
fn fuse_of(words: &mut Words<'_>) -> Result<(u64, Fault), Stop> {
    if !words.take("fused")? {
        return Ok((0, Fault::NotStarted));
    }
    let kth = u64::from(words.number()?);
    Ok((kth, fault_of(words.bytes()?)?))
}
