//! The files below a folder of the working folder.

ghost use Rattle.std.specs.Prelude.{IfErr, IfOk};
ghost use Rattle.hookhost.specs.Stops.{IsStopOfReading};

use crate::stop::CommandStop;
use hook_base::Text;
use named_files::{is_left_out, is_of_repository, path_in};
use std::io::Read;
use std::rt::Files;
use std::{fs, io};

// What is found below a folder.
#[derive(Drop)]
struct Below {
    files: Vec<String>,
    // Those that weren't read yet.
    folders: Vec<String>,
    // Whether every file is wanted, so that what can't be read stops the walk. Otherwise that is left out.
    is_whole: bool,
}

/// The paths of the regular files below a folder, in the order of their bytes. The empty path is the working
/// folder. No link is followed, and `.git` and the `.hookhost` of the working folder are left out. A folder
/// that can't be read, or that holds a name which isn't UTF-8, is `CommandStop::CannotUse`; want of memory is
/// `CommandStop::Refused`.
pub(crate) fn files_below<R: Files + AllocGlobal>(
    rt: &R,
    folder: &str,
) -> Result<Vec<String>, CommandStop>
    ensures { IfErr result IsStopOfReading }
{
    walk(rt, folder, true)
}

/// The same for the working folder. But folders that can't be read and names that aren't UTF-8 are left out,
/// with what is below them.
pub(crate) fn readable_files<R: Files + AllocGlobal>(rt: &R) -> Result<Vec<String>, CommandStop>
    ensures { IfErr result IsStopOfReading }
{
    walk(rt, "", false)
}

fn walk<R: Files + AllocGlobal>(
    rt: &R,
    folder: &str,
    is_whole: bool,
) -> Result<Vec<String>, CommandStop>
    ensures { IfErr result IsStopOfReading }
{
    let mut below = Below {
        files: Vec::new(rt.alloc()),
        folders: Vec::new(rt.alloc()),
        is_whole,
    };
    if !is_of_repository(folder) {
        below.folders.push(String::from_str(rt.alloc(), folder)?)?;
    }
    'folders: for _turn in 0..u64::MAX {
        match below.folders.pop() {
            Some(folder) => look_into(rt, folder.as_str(), &mut below)?,
            None => break,
        }
    }
    let mut files = below.files;
    files.sort()?;
    Ok(files)
}

fn look_into<R: Files + AllocGlobal>(
    rt: &R,
    folder: &str,
    below: &mut Below,
) -> Result<(), CommandStop>
    ensures { IfErr result IsStopOfReading }
{
    match look_at_names(rt, folder, below) {
        Ok(done) => done,
        Err(error) => stop_or_leave(below, stop_at(rt, &error, folder)),
    }
}

// The outer error is one of reading the folder itself.
fn look_at_names<R: Files + AllocGlobal>(
    rt: &R,
    folder: &str,
    below: &mut Below,
) -> io::Result<Result<(), CommandStop>>
    ensures { IfOk result (λ done. IfErr done IsStopOfReading) }
{
    let mut listing = rt.open_dir(if folder.is_empty() { "." } else { folder })?;
    let mut names = [0u8; 8_192];
    'reads: for _turn in 0..u64::MAX {
        let count = listing.read(&mut names)?;
        if count == 0 {
            break;
        }
        if let Err(stop) = take_names(rt, folder, &names[..count], below) {
            return Ok(Err(stop));
        }
    }
    Ok(Ok(()))
}

// Each name ends with a NUL byte.
fn take_names<R: Files + AllocGlobal>(
    rt: &R,
    folder: &str,
    names: &[u8],
    below: &mut Below,
) -> Result<(), CommandStop>
    ensures { IfErr result IsStopOfReading }
{
    'names: for name in names.split(|byte| *byte == 0) {
        match str::from_utf8(name) {
            Ok(name) if is_left_out(folder, name) => {}
            Ok(name) => take_name(rt, folder, name, below)?,
            Err(_) => stop_or_leave(below, unusable(rt, folder))?,
        }
    }
    Ok(())
}

fn take_name<R: Files + AllocGlobal>(
    rt: &R,
    folder: &str,
    name: &str,
    below: &mut Below,
) -> Result<(), CommandStop>
    ensures { IfErr result IsStopOfReading }
{
    let path = path_in(rt.alloc(), folder, name)?;
    match fs::symlink_metadata(rt, path.as_str()) {
        Ok(found) if found.is_dir() => below.folders.push(path)?,
        Ok(found) if found.is_file() => below.files.push(path)?,
        Ok(_) => {}
        Err(error) => return stop_or_leave(below, CommandStop::of_file(&error, Text::from(path))),
    }
    Ok(())
}

// What can't be used stops the walk if every file is wanted, and is left out otherwise.
fn stop_or_leave(below: &Below, stop: CommandStop) -> Result<(), CommandStop>
    requires { IsStopOfReading stop }
    ensures { IfErr result IsStopOfReading }
{
    match stop {
        CommandStop::CannotUse(_) if !below.is_whole => Ok(()),
        stop => Err(stop),
    }
}

fn stop_at<R: AllocGlobal>(rt: &R, error: &io::Error, folder: &str) -> CommandStop
    ensures { IsStopOfReading result }
{
    match told(rt, folder) {
        Ok(word) => CommandStop::of_file(error, word),
        Err(stop) => stop,
    }
}

fn unusable<R: AllocGlobal>(rt: &R, folder: &str) -> CommandStop
    ensures { IsStopOfReading result }
{
    match told(rt, folder) {
        Ok(word) => CommandStop::CannotUse(word),
        Err(stop) => stop,
    }
}

// The folder, as messages show it.
fn told<R: AllocGlobal>(rt: &R, folder: &str) -> Result<Text, CommandStop>
    ensures { IfErr result IsStopOfReading }
{
    let folder = if folder.is_empty() { "." } else { folder };
    Ok(Text::copy_of(rt.alloc(), folder)?)
}
