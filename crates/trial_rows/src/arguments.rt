//! What the arguments of a call say.

use crate::stop::Stop;
use std::alloc::Global;

/// The text of an argument. `BadLine` if it isn't UTF-8.
pub fn text_of(argument: &[u8]) -> Result<&str, Stop> {
    str::from_utf8(argument).map_err(|_| Stop::BadLine)
}

/// The texts of arguments. `BadLine` if one isn't UTF-8.
pub fn texts_of(alloc: Global, arguments: &[Vec<u8>]) -> Result<Vec<&str>, Stop> {
    let mut texts = Vec::new(alloc);
    for argument in arguments {
        texts.push(text_of(argument.as_slice())?)?;
    }
    Ok(texts)
}

/// The number of an argument in decimal digits. `BadLine` if it is no number of 32 bits.
pub fn number_of(argument: &[u8]) -> Result<u32, Stop> {
    text_of(argument)?.parse().map_err(|_| Stop::BadLine)
}

/// The one argument of a call. `BadLine` if it has none or several.
pub fn only(arguments: &[Vec<u8>]) -> Result<&[u8], Stop> {
    match arguments {
        [argument] => Ok(argument.as_slice()),
        _ => Err(Stop::BadLine),
    }
}
