//! Small collections that contracts see as lists, and the refusal of memory.
//!
//! `Bytes`, `Text` and `Items` own their bytes or items. `OutOfMemory` is the refusal of memory.
#![tactic(auto)]

mod bytes;
mod items;
mod memory;
mod text;

pub use bytes::Bytes;
pub use items::Items;
pub use memory::OutOfMemory;
pub use text::{Text, copy_texts};
