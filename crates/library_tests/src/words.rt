//! The words of a command.

use hook_base::{Items, Text};
use std::alloc::Global;
use std::test::Fail;

/// The words between the blanks of a line.
pub(crate) fn words_of(alloc: Global, line: &str) -> Result<Items<Text>, Fail> {
    let mut words = Vec::new(alloc);
    for word in line.split_whitespace() {
        words.push(Text::copy_of(alloc, word)?)?;
    }
    Ok(Items::from(words))
}
