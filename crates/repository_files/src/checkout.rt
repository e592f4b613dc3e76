//! The checkout of Git in which the working folder lies. Its *history* is the folder that
//! gitrepository-layout(5) calls the repository, mostly `.git`.

use std::fs::{Metadata, OpenFile};
use std::io::{ErrorKind, Read};
use std::os::unix::fs::MetadataExt;
use std::rt::Files;
use std::{fs, io};

// The name of a checkout's history, or of a file that says where the history is.
const GIT: &str = ".git";

// What such a file begins with (gitrepository-layout(5), "DESCRIPTION").
const GITDIR: &str = "gitdir: ";

// The most bytes of a file that names a folder.
const MOST_NAME_BYTES: usize = 4_096;

// The most folders above the working folder that are looked at. A path with more would be too long for the
// system.
const MOST_FOLDERS: usize = 1_000;

/// Where the working folder lies, as Git sees it.
#[derive(Debug, Drop)]
pub(crate) enum Checkout {
    /// In no checkout.
    None,
    /// Within a checkout's history, from which Git stages nothing.
    History,
    /// In a checkout, or in a worktree of it, whose history is the folder of this name.
    Of(String),
}

/// Whether the working folder lies in a checkout of Git. An error if that can't be said, for example because
/// the `.git` is another user's, or if memory is refused.
pub fn is_in_checkout<R: Files + AllocGlobal>(rt: &R) -> io::Result<bool> {
    Ok(matches!(find_checkout(rt)?, Checkout::Of(_)))
}

/// Looks for the checkout in the working folder and in those above it. An error if that can't be said, for
/// example because the `.git` is another user's, or names a folder that is no history.
pub(crate) fn find_checkout<R: Files + AllocGlobal>(rt: &R) -> io::Result<Checkout> {
    let owner = fs::metadata(rt, ".")?.uid();
    let mut up = String::new(rt.alloc());
    let mut below = None;
    'folders: for _ in 0..MOST_FOLDERS {
        let here = fs::metadata(rt, format!(in rt.alloc(); "{up}.")?.as_str())?;
        if is_same(below.as_ref(), &here) {
            return Ok(Checkout::None);
        }
        if let Some(history) = history_in(rt, up.as_str(), owner)? {
            return checkout_of(rt, history, below.as_ref());
        }
        below = Some(here);
        up.push_str("../")?;
    }
    Err(ErrorKind::Unsupported.into())
}

// The checkout of this history, which was found in the folder above `below`, or in the working folder itself.
fn checkout_of<R: Files + AllocGlobal>(
    rt: &R,
    history: String,
    below: Option<&Metadata>,
) -> io::Result<Checkout> {
    let found = fs::metadata(rt, history.as_str())?;
    if is_same(below, &found) {
        return Ok(Checkout::History);
    }
    Ok(Checkout::Of(common_folder(rt, history)?))
}

fn is_same(one: Option<&Metadata>, other: &Metadata) -> bool {
    match one {
        Some(one) => one.dev() == other.dev() && one.ino() == other.ino(),
        None => false,
    }
}

// The history that this folder's `.git` is or names. `None` if there is no such entry, or if it is a folder
// that is no history, past which Git looks too. An error if it is another user's than the working folder: it
// could name any folder in which this user may write.
fn history_in<R: Files + AllocGlobal>(
    rt: &R,
    folder: &str,
    owner: u32,
) -> io::Result<Option<String>> {
    let name = format!(in rt.alloc(); "{folder}{GIT}")?;
    match fs::symlink_metadata(rt, name.as_str()) {
        Ok(found) if found.uid() != owner => Err(ErrorKind::PermissionDenied.into()),
        Ok(_) => history_at(rt, folder, name),
        Err(error) if error.kind() == ErrorKind::NotFound => Ok(None),
        Err(error) => Err(error),
    }
}

fn history_at<R: Files + AllocGlobal>(
    rt: &R,
    folder: &str,
    name: String,
) -> io::Result<Option<String>> {
    if fs::metadata(rt, name.as_str())?.is_dir() {
        let found = is_history(rt, name.as_str())?;
        return Ok(found.then_some(name));
    }
    let told = read_name(rt, name.as_str())?;
    match told.as_str().strip_prefix(GITDIR) {
        Some(place) => {
            let history = place_from(rt, folder, place)?;
            if is_history(rt, history.as_str())? {
                Ok(Some(history))
            } else {
                Err(ErrorKind::NotFound.into())
            }
        }
        None => Err(ErrorKind::InvalidData.into()),
    }
}

// Whether a folder is a history: it must have a file `HEAD` (gitrepository-layout(5), "HEAD").
fn is_history<R: Files + AllocGlobal>(rt: &R, folder: &str) -> io::Result<bool> {
    let head = format!(in rt.alloc(); "{folder}/HEAD")?;
    match fs::symlink_metadata(rt, head.as_str()) {
        Ok(_) => Ok(true),
        Err(error) if error.kind() == ErrorKind::NotFound => Ok(false),
        Err(error) => Err(error),
    }
}

// The history that all worktrees of a checkout share. The file `commondir` of a worktree's history names it
// (gitrepository-layout(5), "commondir").
fn common_folder<R: Files + AllocGlobal>(rt: &R, history: String) -> io::Result<String> {
    let name = format!(in rt.alloc(); "{history}/commondir")?;
    match read_name(rt, name.as_str()) {
        Ok(place) => {
            let from = format!(in rt.alloc(); "{history}/")?;
            place_from(rt, from.as_str(), place.as_str())
        }
        Err(error) if error.kind() == ErrorKind::NotFound => Ok(history),
        Err(error) => Err(error),
    }
}

// A place that is given as a full path, or relative to a folder, whose name ends with a slash or is empty.
fn place_from<R: Files + AllocGlobal>(rt: &R, folder: &str, place: &str) -> io::Result<String> {
    let from = if place.starts_with('/') { "" } else { folder };
    Ok(format!(in rt.alloc(); "{from}{place}")?)
}

// The name in a file, without the line ends after it.
fn read_name<R: Files + AllocGlobal>(rt: &R, name: &str) -> io::Result<String> {
    let bytes = read_at_most(rt, name, MOST_NAME_BYTES)?;
    match str::from_utf8(bytes.as_slice()) {
        Ok(text) => {
            let name = text.trim_end_matches(['\n', '\r']);
            Ok(String::from_str(rt.alloc(), name)?)
        }
        Err(_) => Err(ErrorKind::InvalidData.into()),
    }
}

/// The bytes of a file. An error if there are more than `most`, or if anything but a regular file is at the
/// name: that isn't opened.
pub(crate) fn read_at_most<R: Files + AllocGlobal>(
    rt: &R,
    name: &str,
    most: usize,
) -> io::Result<Vec<u8>> {
    if !fs::metadata(rt, name)?.is_file() {
        return Err(ErrorKind::Unsupported.into());
    }
    let mut bytes = Vec::new(rt.alloc());
    let file = fs::open(rt, name)?;
    file.take((most as u64).saturating_add(1))
        .read_to_end(&mut bytes)?;
    if bytes.len() > most {
        return Err(ErrorKind::FileTooLarge.into());
    }
    Ok(bytes)
}
