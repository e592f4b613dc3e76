//! What the rows show of a file.

use hook_base::Mode;
use trial_rows::AnswerBytes;

// The most bytes of a file that are shown whole, and how many are shown of each end of a longer one.
const MOST_TOLD_BYTES: usize = 4096;

const END_BYTES: usize = 100;

/// Adds a line with the mode, the path and the length of a file, and then its bytes; of a long file only the
/// first and the last ones.
pub(crate) fn with_file(
    answer: AnswerBytes,
    list: &str,
    mode: Mode,
    path: &str,
    bytes: &[u8],
) -> AnswerBytes {
    let mode = match mode {
        Mode::Plain => " plain ",
        Mode::Executable => " executable ",
    };
    let answer = answer.texts(&[list, mode, path, " "]);
    with_ends(answer.shown(bytes.len()).text("\n"), bytes)
}

fn with_ends(answer: AnswerBytes, bytes: &[u8]) -> AnswerBytes {
    if bytes.len() <= MOST_TOLD_BYTES {
        return answer.bytes(bytes);
    }
    let (first, rest) = bytes.split_at(END_BYTES);
    let (_, last) = rest.split_at(rest.len() - END_BYTES);
    answer.bytes(first).bytes(last)
}
