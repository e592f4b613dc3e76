//! How the program was built: whether it was proved, and from which commit (docs/REFERENCE.md, "How a program
//! was built").
//!
//! Its code can't say that of itself. So `share/stamp` appends it to the program's file, where the system
//! doesn't load it. The contracts cite `specs/BuildStamps.antt`, which has the form.

ghost use Rattle.std.specs.Prelude.{◌≡◌, ◌↔◌, IsTrue, codes};
ghost use Rattle.hookhost.specs.BuildStamps.{IsBuildLine, IsBuiltAs, IsGitCommit, IsGitId, IsGitIdBefore, IsHexDigit, without_line_feeds};

use std::fs;
use std::io::{self, Read, Seek, SeekFrom};
use std::rt::Files;

// How many bytes a stamp has, and its offset from the end of the file.
const STAMP_BYTES: usize = 96;

const FROM_END: i64 = -96;

// The file of the program that runs (proc(5), "/proc/self").
const PROGRAM: &str = "/proc/self/exe";

const PROVED: &[u8] = b"build: proved, of commit ";

const TRIAL: &[u8] = b"build: trial, nothing was proved, of commit ";

const UNKNOWN: &[u8] = b"build: unknown\n";

const UNKNOWN_COMMIT: &[u8] = b"unknown\n";

// How many hexadecimal digits of a commit's id a stamp has.
const GIT_DIGITS: usize = 12;

/// The last bytes of the program's file, as many as a stamp has. They are all 0 if they can't be read.
pub(crate) fn end_of_program<R: Files>(rt: &R) -> [u8; STAMP_BYTES] {
    let mut end = [0; STAMP_BYTES];
    match read_end(rt, &mut end) {
        Ok(()) => end,
        Err(_) => [0; STAMP_BYTES],
    }
}

fn read_end<R: Files>(rt: &R, end: &mut [u8]) -> io::Result<()> {
    let mut file = fs::open(rt, PROGRAM)?;
    let _start = file.seek(SeekFrom::End(FROM_END))?;
    file.read_exact(end)
}

/// The line that says how a program was built whose file ends with these bytes: the one of its stamp, or
/// `build: unknown` if it has none.
pub(crate) fn build_line(end: &[u8]) -> &[u8]
    ensures stamped { IsBuildLine (without_line_feeds end.now) → result.now ≡ without_line_feeds end.now }
    ensures unstamped { ¬ IsBuildLine (without_line_feeds end.now) → result.now ≡ codes "build: unknown\n" }
{
    let line = without_line_feeds(end);
    if is_build_line(line) { line } else { UNKNOWN }
}

fn without_line_feeds(bytes: &[u8]) -> &[u8]
    ensures { result.now ≡ without_line_feeds bytes.now }
{
    let mut rest = bytes;
    'feeds: while let [b'\n', after @ ..] = rest {
        rest = after;
    }
    rest
}

fn is_build_line(line: &[u8]) -> bool
    ensures { IsTrue result ↔ IsBuildLine line.now }
{
    is_built_as(line, PROVED) || is_built_as(line, TRIAL)
}

fn is_built_as(line: &[u8], words: &[u8]) -> bool
    ensures { IsTrue result ↔ IsBuiltAs words.now line.now }
{
    match line.strip_prefix(words) {
        Some(commit) => is_git_commit(commit),
        None => false,
    }
}

fn is_git_commit(text: &[u8]) -> bool
    ensures { IsTrue result ↔ IsGitCommit text.now }
{
    text == UNKNOWN_COMMIT
        || is_git_id_before(text, b"\n")
        || is_git_id_before(text, b" with changes\n")
}

fn is_git_id_before(text: &[u8], words: &[u8]) -> bool
    ensures { IsTrue result ↔ IsGitIdBefore words.now text.now }
{
    match text.strip_suffix(words) {
        Some(id) => is_git_id(id),
        None => false,
    }
}

fn is_git_id(id: &[u8]) -> bool
    ensures { IsTrue result ↔ IsGitId id.now }
{
    id.len() == GIT_DIGITS && id.iter().all(|&byte| is_hex_digit(byte))
}

fn is_hex_digit(byte: u8) -> bool
    ensures { IsTrue result ↔ IsHexDigit byte }
{
    matches!(byte, b'0'..=b'9' | b'a'..=b'f')
}
