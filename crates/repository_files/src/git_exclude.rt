//! How Git is kept from staging the folder of a repository: by a line in the checkout's `info/exclude`
//! (gitignore(5), "DESCRIPTION"). A file `.gitignore` in the folder would do so too. But it would be above
//! the files over which hooks run, and hide them from tools that follow such files.

use crate::checkout::{Checkout, find_checkout, read_at_most};
use std::fs::OpenOptions;
use std::io::{ErrorKind, Write};
use std::rt::Files;
use std::{fs, io};

/// The file with which an earlier program made Git ignore the folder.
const IGNORE_FILE: &str = ".hookhost/.gitignore";

// All that such a file contains.
const IGNORES_ALL: &[u8] = b"*\n";

// The line that keeps the folder out. With its slash at the end it matches only folders (gitignore(5),
// "PATTERN FORMAT").
const LINE: &str = ".hookhost/";

// The most bytes of an `info/exclude` to which the line is added.
const MOST_EXCLUDE_BYTES: usize = 1_048_576;

/// Makes sure that Git doesn't stage the repository's folder, if the working folder lies in a checkout. Then
/// it removes the ignore file of an earlier program, if that has just what the program wrote. A failure isn't
/// reported, and leaves that file: the repository works without this.
pub fn keep_out_of_git<R: Files + AllocGlobal>(rt: &R) {
    if see_to_line(rt).is_ok() {
        let _gone = remove_ignore_file(rt);
    }
}

/// Does the same, but only if there is such an ignore file: a command that needs no repository writes nothing
/// else into a checkout.
pub fn replace_ignore_file<R: Files + AllocGlobal>(rt: &R) {
    if is_ignore_file(rt).unwrap_or(false) {
        keep_out_of_git(rt);
    }
}

fn see_to_line<R: Files + AllocGlobal>(rt: &R) -> io::Result<()> {
    match find_checkout(rt)? {
        Checkout::None | Checkout::History => Ok(()),
        Checkout::Of(history) => have_line(rt, history.as_str()),
    }
}

// Makes sure that the history's `info/exclude` has the line.
fn have_line<R: Files + AllocGlobal>(rt: &R, history: &str) -> io::Result<()> {
    let name = format!(in rt.alloc(); "{history}/info/exclude")?;
    match read_at_most(rt, name.as_str(), MOST_EXCLUDE_BYTES) {
        Ok(bytes) if has_line(bytes.as_slice()) => Ok(()),
        Ok(bytes) => append_line(rt, name.as_str(), bytes.as_slice()),
        Err(error) if error.kind() == ErrorKind::NotFound => make_with_line(rt, history, name),
        Err(error) => Err(error),
    }
}

fn has_line(bytes: &[u8]) -> bool {
    bytes
        .split(|byte| *byte == b'\n')
        .any(|line| line == LINE.as_bytes())
}

// Adds the line to a file with these bytes.
fn append_line<R: Files>(rt: &R, name: &str, bytes: &[u8]) -> io::Result<()> {
    let mut file = OpenOptions::new().append(true).open(rt, name)?;
    if !(bytes.is_empty() || bytes.ends_with(b"\n")) {
        file.write_all(b"\n")?;
    }
    write_line(&mut file)
}

// Makes the file, and its folder if that is missing. Whatever else is at its name, such as a link that leads
// nowhere, stays.
fn make_with_line<R: Files + AllocGlobal>(rt: &R, history: &str, name: String) -> io::Result<()> {
    let folder = format!(in rt.alloc(); "{history}/info")?;
    let _made_or_there = fs::create_dir(rt, folder.as_str());
    let mut file = OpenOptions::new()
        .write(true)
        .create_new(true)
        .open(rt, name.as_str())?;
    write_line(&mut file)
}

fn write_line<W: Write>(file: &mut W) -> io::Result<()> {
    file.write_all(LINE.as_bytes())?;
    file.write_all(b"\n")
}

fn remove_ignore_file<R: Files + AllocGlobal>(rt: &R) -> io::Result<()> {
    if is_ignore_file(rt)? {
        fs::remove_file(rt, IGNORE_FILE)?;
    }
    Ok(())
}

// Whether the ignore file has just what an earlier program wrote.
fn is_ignore_file<R: Files + AllocGlobal>(rt: &R) -> io::Result<bool> {
    if !fs::symlink_metadata(rt, IGNORE_FILE)?.is_file() {
        return Ok(false);
    }
    let bytes = read_at_most(rt, IGNORE_FILE, IGNORES_ALL.len())?;
    Ok(bytes.as_slice() == IGNORES_ALL)
}
