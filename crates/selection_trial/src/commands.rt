//! Calls on the words of an entry and the parts of a command.

use crate::files::paths_of;
use arg_partition::{Cut, PartsFault, WordsFault, parts, words};
use hook_base::Text;
use std::alloc::Global;
use trial_rows::{AnswerBytes, Stop, only, text_of};

/// `words TEXT`: the words, each with a line feed before it, or the number and the name of the refusal.
pub(crate) fn cut(alloc: Global, arguments: &[Vec<u8>]) -> Result<AnswerBytes, Stop> {
    match words(alloc, text_of(only(arguments)?)?) {
        Ok(words) => Ok(preceded(alloc, words.as_slice())),
        Err(fault) => words_refusal(alloc, fault),
    }
}

fn preceded(alloc: Global, words: &[Text]) -> AnswerBytes {
    let mut answer = AnswerBytes::new(alloc);
    for word in words {
        answer = answer.texts(&["\n", word.as_str()]);
    }
    answer
}

fn words_refusal(alloc: Global, fault: WordsFault) -> Result<AnswerBytes, Stop> {
    let answer = AnswerBytes::new(alloc).shown(fault.number());
    match fault {
        WordsFault::OpenQuote => Ok(answer.text(" OpenQuote")),
        WordsFault::NothingEscaped => Ok(answer.text(" NothingEscaped")),
        WordsFault::OutOfMemory => Err(Stop::OutOfMemory),
    }
}

/// `parts LIMIT MOST WORDS NAMES`: the cuts, a line each, or the number, the name and the index of the
/// refusal. Each word and each name ends with a line feed.
pub(crate) fn partitioned(alloc: Global, arguments: &[Vec<u8>]) -> Result<AnswerBytes, Stop> {
    let [limit, most, words, names] = arguments else {
        return Err(Stop::BadLine);
    };
    let (limit, most) = (size(limit.as_slice())?, size(most.as_slice())?);
    parted(alloc, limit, most, words.as_slice(), names.as_slice())
}

fn parted(
    alloc: Global,
    limit: usize,
    most: usize,
    words: &[u8],
    names: &[u8],
) -> Result<AnswerBytes, Stop> {
    let words = texts(alloc, words)?;
    let names = paths_of(alloc, names)?;
    if most == 0 {
        return Err(Stop::BadLine);
    }
    match parts(alloc, words.as_slice(), names.as_slice(), limit, most) {
        Ok(cuts) => Ok(shown(alloc, cuts.as_slice())),
        Err(PartsFault::TooLong(index)) => {
            Ok(AnswerBytes::new(alloc).text("1 TooLong ").shown(index))
        }
        Err(PartsFault::OutOfMemory) => Err(Stop::OutOfMemory),
    }
}

fn shown(alloc: Global, cuts: &[Cut]) -> AnswerBytes {
    let mut answer = AnswerBytes::new(alloc);
    for cut in cuts {
        answer = answer.shown(cut.start).text(" ");
        answer = answer.shown(cut.end).text("\n");
    }
    answer
}

// The number of an argument in decimal digits. `BadLine` if it isn't a number of 64 bits.
fn size(argument: &[u8]) -> Result<usize, Stop> {
    text_of(argument)?.parse().map_err(|_| Stop::BadLine)
}

/// The lines of an argument, each a text.
pub(crate) fn texts(alloc: Global, lines: &[u8]) -> Result<Vec<Text>, Stop> {
    let mut texts = Vec::new(alloc);
    for line in text_of(lines)?.lines() {
        texts.push(Text::copy_of(alloc, line)?)?;
    }
    Ok(texts)
}
