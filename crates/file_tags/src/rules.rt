//! The tags of a file, rule by rule.
//!
//! The contracts cite `specs/FileTags.antt`.

ghost use Rattle.std.specs.Prelude.{◌≡◌, IfOk, codes};
ghost use Rattle.std.specs.Str.{bytes_eq};
ghost use Rattle.file_tags.specs.Contents.{is_text};
ghost use Rattle.file_tags.specs.FileTags.{content_tags, extension_tags, interpreter_tags, mode_tags, script_tags, tags_of_file, told_tags};
ghost use Rattle.file_tags.specs.Shebangs.{from_interpreter};
ghost use Rattle.file_tags.specs.TagTables.{texts_of};

use crate::cuts::{extension_of, last_part};
use crate::first_line::shebang;
use crate::look_up::{interpreter_tags, name_tags, row_of_extension};
use crate::tags::{Tags, has_tag};
use hook_base::{FileEntry, Mode, OutOfMemory, RepoPath, Text};
use std::alloc::Global;

// How many bytes at a file's start decide whether it is text.
const LOOKED_AT: usize = 1_024;

/// The tags of the file at a path, by the rules of identify 2.5's tags_from_path:
/// - `file`, and `executable` or `non-executable` by its mode;
/// - those of its name and of its extension;
/// - if these give none, those of the interpreter that an executable file names in its first line;
/// - if none of these says it, `text` or `binary` by its first 1,024 bytes.
///
/// `OutOfMemory` if memory is refused.
pub fn tags_of(alloc: Global, path: &RepoPath, entry: &FileEntry) -> Result<Tags, OutOfMemory>
    ensures { IfOk result (λ tags. tags ≡ tags_of_file path.now entry.now) }
{
    let told = told_tags(alloc, last_part(path.as_str()), entry)?;
    let mut tags: Vec<&'static str> = Vec::new(alloc);
    tags.extend_from_slice(mode_tags(entry.mode))?;
    tags.extend_from_slice(told.as_slice())?;
    tags.extend_from_slice(content_tags(told.as_slice(), entry.bytes.as_slice()))?;
    Ok(Tags::new(tags))
}

fn mode_tags(mode: Mode) -> &'static [&'static str]
    ensures { texts_of result.now ≡ mode_tags mode }
{
    match mode {
        Mode::Plain => &["file", "non-executable"],
        Mode::Executable => &["file", "executable"],
    }
}

fn told_tags(alloc: Global, name: &str, entry: &FileEntry) -> Result<Vec<&'static str>, OutOfMemory>
    ensures { IfOk result (λ tags. texts_of tags.items ≡ told_tags name.now entry.now) }
{
    let mut tags = Vec::new(alloc);
    tags.extend_from_slice(name_tags(name))?;
    tags.extend_from_slice(extension_tags(alloc, name)?)?;
    if tags.is_empty() {
        tags.extend_from_slice(script_tags(alloc, entry)?)?;
    }
    Ok(tags)
}

fn extension_tags(alloc: Global, name: &str) -> Result<&'static [&'static str], OutOfMemory>
    ensures { IfOk result (λ tags. texts_of tags.now ≡ extension_tags name.now) }
{
    let mut extension = String::from_str(alloc, extension_of(name))?;
    extension.make_ascii_lowercase();
    Ok(row_of_extension(extension.as_str()))
}

fn script_tags(alloc: Global, entry: &FileEntry) -> Result<&'static [&'static str], OutOfMemory>
    ensures { IfOk result (λ tags. texts_of tags.now ≡ script_tags entry.now.mode entry.now.bytes) }
{
    match entry.mode {
        Mode::Plain => Ok(&[]),
        Mode::Executable => {
            let words = shebang(alloc, entry.bytes.as_slice())?;
            Ok(tags_of_words(words.as_slice()))
        }
    }
}

fn tags_of_words(words: &[Text]) -> &'static [&'static str]
    ensures { texts_of result.now ≡ interpreter_tags (from_interpreter words.now) }
{
    match from_interpreter(words) {
        [interpreter, ..] => interpreter_tags(last_part(interpreter.as_str())),
        [] => &[],
    }
}

// `env` starts the program that its first word names, or the word after `-S`.
fn from_interpreter(words: &[Text]) -> &[Text]
    ensures { result.now ≡ from_interpreter words.now }
{
    match words {
        [first, second, rest @ ..] if is_env(first) && second.as_str() == "-S" => rest,
        [first, rest @ ..] if is_env(first) => rest,
        _ => words,
    }
}

fn is_env(word: &Text) -> bool
    ensures { result ≡ bytes_eq word.now (codes "/usr/bin/env") }
{
    word.as_str() == "/usr/bin/env"
}

fn content_tags(told: &[&'static str], bytes: &[u8]) -> &'static [&'static str]
    ensures { texts_of result.now ≡ content_tags (texts_of told.now) bytes.now }
{
    if has_tag(told, "text") || has_tag(told, "binary") {
        &[]
    } else if is_text(bytes) {
        &["text"]
    } else {
        &["binary"]
    }
}

// Whether the first bytes are all those of a text. (identify 2.5's is_text.)
fn is_text(bytes: &[u8]) -> bool
    ensures { result ≡ is_text bytes.now }
{
    bytes
        .iter()
        .take(LOOKED_AT)
        .all(|byte| matches!(*byte, 7..=13 | 27 | 32..=126 | 128..=255))
}
