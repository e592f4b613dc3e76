//! The files that the words of `add` name, each read once.
//!
//! The contracts cite `specs/StagedWords.antt`.

ghost use Rattle.std.specs.BTreeSet.{contains_text};
ghost use Rattle.std.specs.Prelude.{◌≡◌, ◌||◌, false, true, string_bytes, IfErr, IfOk, MatchOption, OnOk};
ghost use Rattle.named_files.specs.Words.{is_working_folder};
ghost use Rattle.hookhost.specs.StagedWords.{IsStagedOnce, are_too_many, folder_path, is_folder_path};
ghost use Rattle.hookhost.specs.Stops.{IsStopOfReading};

use crate::files::read_regular;
use crate::folder_files::files_below;
use crate::names::path_named;
use crate::stop::CommandStop;
use commit_flow::StagingEdit;
use hook_base::{Bytes, Mode, Text};
use named_files::{is_working_folder, without_slashes};
use repo_store::MOST_FILES;
use std::collections::BTreeSet;
use std::fs;
use std::rt::Files;

// The edits so far, with their paths.
#[derive(Drop)]
struct Gathered {
    mode: Option<Mode>,
    edits: Vec<StagingEdit>,
    paths: BTreeSet<String>,
}

/// The edits that stage the files of the words, in the order of the words. A folder means the files below it,
/// and a file that comes again is staged once. The first word that can't be used is `CommandStop::CannotUse`, with
/// the path of the file or the folder that can't be read. Want of memory is `CommandStop::Refused`. An empty word,
/// which the store refuses, isn't read. If there are more files than a store may have, those after the first
/// one too many are left out, since the store refuses all of them.
pub(crate) fn staged_by<R: Files + AllocGlobal>(
    rt: &R,
    words: &[Text],
    mode: Option<Mode>,
) -> Result<Vec<StagingEdit>, CommandStop>
    ensures { IfErr result IsStopOfReading }
{
    let mut gathered = Gathered {
        mode,
        edits: Vec::new(rt.alloc()),
        paths: BTreeSet::new(rt.alloc()),
    };
    'words: for word in words {
        gather_word(rt, word.as_str(), &mut gathered)?;
    }
    Ok(gathered.edits)
}

/// The path of the folder that a word names, empty for the working folder, and `None` if it names no folder.
/// Slashes may follow the name. A link is no folder.
pub(crate) fn folder_of<R: Files + AllocGlobal>(
    rt: &R,
    word: &str,
) -> Result<Option<String>, CommandStop>
    ensures stopped { IfErr result IsStopOfReading }
    ensures named { IfOk result (λ folder. MatchOption folder (is_working_folder word.now ≡ false)
        (λ path. (string_bytes path ≡ folder_path word.now) × (is_folder_path word.now ≡ true))) }
{
    if is_working_folder(word) {
        return Ok(Some(String::new(rt.alloc())));
    }
    let path = without_slashes(word);
    match fs::symlink_metadata(rt, path) {
        Ok(found) if found.is_dir() => {}
        _ => return Ok(None),
    }
    match path_named(rt.alloc(), path)? {
        Some(_path) => Ok(Some(String::from_str(rt.alloc(), path)?)),
        None => Ok(None),
    }
}

fn gather_word<R: Files + AllocGlobal>(
    rt: &R,
    word: &str,
    gathered: &mut Gathered,
) -> Result<(), CommandStop>
    ensures { IfErr result IsStopOfReading }
{
    match folder_of(rt, word)? {
        Some(folder) => gather_folder(rt, folder.as_str(), gathered),
        None => gather_file(rt, String::from_str(rt.alloc(), word)?, gathered),
    }
}

fn gather_folder<R: Files + AllocGlobal>(
    rt: &R,
    folder: &str,
    gathered: &mut Gathered,
) -> Result<(), CommandStop>
    ensures { IfErr result IsStopOfReading }
{
    'files: for path in files_below(rt, folder)? {
        gather_file(rt, path, gathered)?;
    }
    Ok(())
}

fn gather_file<R: Files + AllocGlobal>(
    rt: &R,
    path: String,
    gathered: &mut Gathered,
) -> Result<(), CommandStop>
    ensures stopped { IfErr result IsStopOfReading }
    ensures gathered { OnOk result (IsStagedOnce
        (are_too_many gathered.old.edits.items || contains_text gathered.old.paths (string_bytes path))
        gathered.old.mode (string_bytes path) gathered.old.edits.items gathered.new.edits.items) }
{
    if gathered.edits.len() > MOST_FILES {
        return Ok(());
    }
    let is_new = gathered.paths.insert(path.clone()?)?;
    if !is_new {
        return Ok(());
    }
    let path = Text::from(path);
    let bytes = Bytes::from(bytes_of(rt, &path)?);
    let mode = gathered.mode;
    gathered.edits.push(StagingEdit::Add { path, bytes, mode })?;
    Ok(())
}

/// The bytes of a file to stage, as `read_regular` reads them. An empty path has none: the store refuses it.
pub(crate) fn bytes_of<R: Files + AllocGlobal>(rt: &R, path: &Text) -> Result<Vec<u8>, CommandStop>
    ensures { IfErr result IsStopOfReading }
{
    if path.is_empty() {
        return Ok(Vec::new(rt.alloc()));
    }
    read_regular(rt, path)
}
