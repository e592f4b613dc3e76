//! Folders that are held open: a name is looked up in the folder itself, whatever is put in its place
//! meanwhile.

use std::io;

// The descriptor of standard error.
const LAST_STREAM: i32 = 2;

/// A folder that is held open.
#[derive(Debug)]
pub(crate) struct HeldFolder {
    number: i32,
}

impl HeldFolder {
    /// Holds a scratch folder. An error if it, or its parent folder, is a link or isn't there.
    pub(crate) fn scratch(folder: &str) -> io::Result<HeldFolder> {
        match folder.rsplit_once('/') {
            Some((parent, name)) => {
                let parent = if parent.is_empty() { "/" } else { parent };
                HeldFolder::found(libc::AT_FDCWD, parent)?.folder(name)
            }
            None => HeldFolder::found(libc::AT_FDCWD, folder),
        }
    }

    /// Holds the folder of a path in this one. It is opened step by step, so that the path may be longer than
    /// the system takes at once. An error if it, or a folder on the way, is a link or isn't there.
    pub(crate) fn within(&self, path: &str) -> io::Result<HeldFolder> {
        let mut names = path.split('/');
        let mut held = self.folder(names.next().unwrap_or("."))?;
        for name in names {
            held = held.folder(name)?;
        }
        Ok(held)
    }

    fn folder(&self, name: &str) -> io::Result<HeldFolder> {
        HeldFolder::found(self.number, name)
    }

    fn found(dir: i32, name: &str) -> io::Result<HeldFolder> {
        let number = above_streams(os::open_dir_at(dir, name.as_bytes()));
        if number < 0 {
            Err(last_error())
        } else {
            Ok(HeldFolder { number })
        }
    }

    /// Its descriptor.
    pub(crate) fn number(&self) -> i32 {
        self.number
    }
}

impl Drop for HeldFolder {
    fn drop(self) {
        let HeldFolder { number } = self;
        libc::close(number);
    }
}

// Moves a descriptor above those of the standard streams. open(2) gives the lowest number, so a program that
// was started without a standard stream gets its number here. The child is started in the folder by its
// number, and would find its own stream under it.
fn above_streams(number: i32) -> i32 {
    if 0 <= number && number <= LAST_STREAM {
        let moved = os::duplicate(number);
        libc::close(number);
        moved
    } else {
        number
    }
}

/// The error of the system call that failed last (errno(3)).
pub(crate) fn last_error() -> io::Error {
    io::Error::from_raw_os_error(os::errno())
}
