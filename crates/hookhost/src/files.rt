//! What the program reads from the working folder.

ghost use Rattle.std.specs.Prelude.{◌≡◌, IfErr, IfOk};
ghost use Rattle.hookhost.specs.Names.{is_standard_input};
ghost use Rattle.hookhost.specs.FileTrees.{AreFilesOf, IsFileOf, IsTreeOf};
ghost use Rattle.hookhost.specs.Stops.{IsStopOfFile, IsStopOfFiles};

use crate::file_tree::{plain_file, tree_of};
use crate::stop::CommandStop;
use hook_base::{File, Items, MOST_FILE_BYTES, PathFault, RepoPath, Text, Tree};
use hook_cli::{MOST_CONFIGURATION_BYTES, TryFault};
use std::fs::OpenFile;
use std::io::{ErrorKind, Read};
use std::os::unix::fs::FileTypeExt;
use std::rt::Files;
use std::{fs, io};

/// The files of the words, as plain files of a tree. The first word whose path isn't allowed, or whose file
/// can't be read or is over 16 MiB, is `CommandStop::CannotUse`; want of memory is `CommandStop::Refused`.
pub(crate) fn read_tree<R: Files + AllocGlobal>(
    rt: &R,
    words: Items<Text>,
) -> Result<Tree, CommandStop>
    ensures tree { IfOk result (IsTreeOf words) }
    ensures refused { IfErr result (IsStopOfFiles words) }
{
    let files = read_files(rt, words)?;
    Ok(tree_of(rt.alloc(), files)?)
}

fn read_files<R: Files + AllocGlobal>(rt: &R, words: Items<Text>) -> Result<Vec<File>, CommandStop>
    ensures files { IfOk result (λ files. AreFilesOf words files.items) }
    ensures refused { IfErr result (IsStopOfFiles words) }
{
    let mut files = Vec::new(rt.alloc());
    'words: for word in words.into_vec() {
        files.push(read_plain_file(rt, word)?)?;
    }
    Ok(files)
}

fn read_plain_file<R: Files + AllocGlobal>(rt: &R, word: Text) -> Result<File, CommandStop>
    ensures file { IfOk result (IsFileOf word) }
    ensures refused { IfErr result (IsStopOfFile word) }
{
    let path = match RepoPath::read(rt.alloc(), word.as_str()) {
        Ok(path) => path,
        Err(PathFault::OutOfMemory) => return Err(CommandStop::Refused(TryFault::OutOfMemory)),
        Err(_) => return Err(CommandStop::CannotUse(word)),
    };
    match read_up_to(rt, word.as_str(), MOST_FILE_BYTES + 1) {
        Ok(bytes) if bytes.len() <= MOST_FILE_BYTES => Ok(plain_file(rt.alloc(), path, bytes)?),
        Ok(_) => Err(CommandStop::CannotUse(word)),
        Err(error) => Err(CommandStop::of_file(&error, word)),
    }
}

/// The configuration's bytes, up to one past the limit: the run refuses a longer one. A file that can't be
/// read is `CommandStop::CannotUse`, and want of memory is `CommandStop::Refused`.
pub(crate) fn read_configuration<R: Files + AllocGlobal>(
    rt: &R,
    word: Text,
) -> Result<Vec<u8>, CommandStop>
    ensures { IfErr result (IsStopOfFile word) }
{
    match read_up_to(rt, word.as_str(), MOST_CONFIGURATION_BYTES + 1) {
        Ok(bytes) => Ok(bytes),
        Err(error) => Err(CommandStop::of_file(&error, word)),
    }
}

/// The bytes of a file to stage or of a message, up to one past the limit: the host refuses a longer one. A file
/// that isn't there or can't be read, and anything but a regular file, is `CommandStop::CannotUse`; want of memory
/// is `CommandStop::Refused`.
pub(crate) fn read_regular<R: Files + AllocGlobal>(
    rt: &R,
    path: &Text,
) -> Result<Vec<u8>, CommandStop>
    ensures { IfErr result (IsStopOfFile path.now) }
{
    let word = path.clone()?;
    // Reading a pipe or a terminal would wait while the lock keeps other commands out.
    match read_from(rt, open_file(rt, word.as_str()), MOST_FILE_BYTES + 1) {
        Ok(bytes) => Ok(bytes),
        Err(error) => Err(CommandStop::of_file(&error, word)),
    }
}

/// Whether a word means standard input (POSIX.1-2017, XBD section 12.2, Guideline 13).
pub(crate) fn is_standard_input(word: &str) -> bool
    ensures { result ≡ is_standard_input word.now }
{
    word == "-"
}

/// The bytes of a word's file, or of standard input, at most so many. A file is read as by `read_up_to`.
pub(crate) fn read_word(rt: &HostRuntime, word: &str, most: usize) -> io::Result<Vec<u8>> {
    if is_standard_input(word) {
        let mut bytes = Vec::new(rt.alloc());
        rt.reader().take(most as u64).read_to_end(&mut bytes)?;
        Ok(bytes)
    } else {
        read_up_to(rt, word, most)
    }
}

/// The bytes of a file, at most so many. A fifo, which is a pipe with a name, isn't opened, since that would
/// wait for its other end (fifo(7)): the error is `ErrorKind::Unsupported`. A pipe without a name is read,
/// such as one that a shell passes on as `/dev/stdin` or `/dev/fd/63`.
pub(crate) fn read_up_to<R: Files + AllocGlobal>(
    rt: &R,
    path: &str,
    most: usize,
) -> io::Result<Vec<u8>> {
    read_from(rt, open_file_or_pipe(rt, path), most)
}

fn read_from<R: Files + AllocGlobal>(
    rt: &R,
    opened: io::Result<R::File>,
    most: usize,
) -> io::Result<Vec<u8>> {
    let mut bytes = Vec::new(rt.alloc());
    opened?.take(most as u64).read_to_end(&mut bytes)?;
    // A run keeps the bytes of all its files, and reading leaves unused memory after them.
    bytes.shrink_to_fit();
    Ok(bytes)
}

fn open_file<R: Files>(rt: &R, path: &str) -> io::Result<R::File> {
    match fs::metadata(rt, path) {
        Ok(found) if !found.is_file() => Err(ErrorKind::Unsupported.into()),
        _ => open_seen_file(rt, path),
    }
}

fn open_file_or_pipe<R: Files + AllocGlobal>(rt: &R, path: &str) -> io::Result<R::File> {
    if !is_pipe(rt, path) {
        return open_seen_file(rt, path);
    }
    if has_name(rt, path) {
        return Err(ErrorKind::Unsupported.into());
    }
    fs::open(rt, path)
}

// Opens what was no pipe when it was looked at. A fifo that has taken the name since may block the opening,
// but isn't read.
fn open_seen_file<R: Files>(rt: &R, path: &str) -> io::Result<R::File> {
    let file = fs::open(rt, path)?;
    if file.metadata()?.file_type().is_fifo() {
        return Err(ErrorKind::Unsupported.into());
    }
    Ok(file)
}

fn is_pipe<R: Files>(rt: &R, path: &str) -> bool {
    match fs::metadata(rt, path) {
        Ok(found) => found.file_type().is_fifo(),
        Err(_) => false,
    }
}

// Whether the file has a name. A pipe that is reached only by the process's own descriptors has none.
fn has_name<R: Files + AllocGlobal>(rt: &R, path: &str) -> bool {
    match fs::canonicalize(rt, path) {
        Ok(_) => true,
        Err(error) => error.kind() != ErrorKind::NotFound,
    }
}
