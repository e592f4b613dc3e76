//! Calls on the tags of files.

use crate::files::path_of;
use file_tags::{MOST_SHEBANG_BYTES, Tags, shebang, tags_of};
use hook_base::{Content, FileEntry, Mode};
use std::alloc::Global;
use trial_rows::{AnswerBytes, Stop, only, text_of};

/// `tags_of MODE PATH BYTES TAG..`: those of the given tags that the file has, a line each.
pub(crate) fn among(alloc: Global, arguments: &[Vec<u8>]) -> Result<AnswerBytes, Stop> {
    let [mode, path, bytes, asked @ ..] = arguments else {
        return Err(Stop::BadLine);
    };
    let entry = entry_of(alloc, mode.as_slice(), bytes.as_slice())?;
    let tags = tags_of(alloc, &path_of(alloc, path.as_slice())?, &entry)?;
    lines_among(alloc, &tags, asked)
}

fn entry_of(alloc: Global, mode: &[u8], bytes: &[u8]) -> Result<FileEntry, Stop> {
    let mode = mode_of(mode)?;
    let bytes = Content::copy_of(alloc, bytes)?;
    Ok(FileEntry { mode, bytes })
}

// Adds those of the asked tags that are among the tags, a line each.
fn lines_among(alloc: Global, tags: &Tags, asked: &[Vec<u8>]) -> Result<AnswerBytes, Stop> {
    let mut answer = AnswerBytes::new(alloc);
    for tag in asked {
        let tag = text_of(tag.as_slice())?;
        if tags.has(tag) {
            answer = answer.texts(&[tag, "\n"]);
        }
    }
    Ok(answer)
}

fn mode_of(word: &[u8]) -> Result<Mode, Stop> {
    match word {
        b"plain" => Ok(Mode::Plain),
        b"executable" => Ok(Mode::Executable),
        _ => Err(Stop::BadLine),
    }
}

/// `shebang BYTES`: the words of the first line, a line each.
pub(crate) fn words_of(alloc: Global, arguments: &[Vec<u8>]) -> Result<AnswerBytes, Stop> {
    let words = shebang(alloc, only(arguments)?)?;
    let mut answer = AnswerBytes::new(alloc);
    for word in words.as_slice() {
        answer = answer.texts(&[word.as_str(), "\n"]);
    }
    Ok(answer)
}

/// `most_shebang_bytes`: the limit of a first line.
pub(crate) fn most_bytes(alloc: Global) -> AnswerBytes {
    AnswerBytes::new(alloc).shown(MOST_SHEBANG_BYTES)
}
