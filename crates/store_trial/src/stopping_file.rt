//! A disk that stops: two files in memory, one of which accepts a number of operations and then none, until
//! the machine crashes and comes back. Like the files of `hookhost`, they are only waited for if something
//! was written, and are cut late.

use crate::answer::Answer;
use crate::ask::Ask;
use crate::play::Play;
use crate::print;
use crate::stop::Stop;
use lazy_disk::LazyDisk;
use repo_store::StoreFault;
use sqlite::{Connection, Error, FileStore, Files, Options};
use sqlite_disk::{Crash, Disk, Fuse, Memory};
use std::alloc::Global;
use std::io::{BufRead, BufReader};

/// Small, so that the log is copied into the database file within a short play.
const CHECKPOINT_FRAMES: usize = 8;

type StoppingFile = LazyDisk<Fuse<Memory>>;

/// The files, while no database is open in them.
type Kept<D> = Option<Files<D>>;

/// Plays the lines of standard input over files of which the log or the database accepts a number of
/// operations.
pub(crate) fn play_stopping(rt: &HostRuntime, which: &str, at: &str) -> Result<(), Stop> {
    let mut files = Some(files_of(rt.alloc(), which, at)?);
    let mut play = Play::new(rt.alloc());
    let mut answer = Answer::new(rt.alloc());
    play_lines(rt, &mut files, &mut play, &mut answer)
}

fn files_of(alloc: Global, which: &str, at: &str) -> Result<Files<StoppingFile>, Stop> {
    let at = at.parse().map_err(|_| Stop::Usage)?;
    match which {
        "log" => Ok(files_with(alloc, at, u64::MAX)),
        "database" => Ok(files_with(alloc, u64::MAX, at)),
        _ => Err(Stop::Usage),
    }
}

fn files_with(alloc: Global, log: u64, db: u64) -> Files<StoppingFile> {
    Files {
        log: LazyDisk::new(Fuse::new(Memory::new(alloc), log)),
        db: LazyDisk::new(Fuse::new(Memory::new(alloc), db)),
    }
}

fn play_lines<D: Disk + Crash + Drop>(
    rt: &HostRuntime,
    files: &mut Kept<D>,
    play: &mut Play<FileStore<D>>,
    answer: &mut Answer,
) -> Result<(), Stop> {
    for line in BufReader::new(rt.alloc(), rt.reader())?.lines(rt.alloc()) {
        play_line(files, play, line?.as_str(), answer)?;
        print(rt, answer)?;
    }
    Ok(())
}

fn play_line<D: Disk + Crash + Drop>(
    files: &mut Kept<D>,
    play: &mut Play<FileStore<D>>,
    line: &str,
    answer: &mut Answer,
) -> Result<(), Stop> {
    match play.begin(line, answer)? {
        Ask::Connection => match connect(answer.alloc(), files)? {
            Ok(conn) => end(files, play.go_on(line, conn, answer)?, answer),
            Err(error) => {
                answer.refused(&StoreFault::from(error));
                Ok(())
            }
        },
        ask => end(files, ask, answer),
    }
}

/// Opens the database in the files. If that is refused, the next line can use the files again.
fn connect<D: Disk + Drop>(
    alloc: Global,
    kept: &mut Kept<D>,
) -> Result<Result<Connection<FileStore<D>>, Error>, Stop> {
    let files = kept.take().ok_or(Stop::BadLine)?;
    if !files.may_be_used() {
        return Err(Stop::BadLine);
    }
    match Connection::open_files(alloc, files, options()) {
        Ok(conn) => Ok(Ok(conn)),
        Err((error, left)) => {
            *kept = Some(left.into_files());
            Ok(Err(error))
        }
    }
}

fn end<D: Disk + Crash + Drop>(
    files: &mut Kept<D>,
    ask: Ask<FileStore<D>>,
    answer: &mut Answer,
) -> Result<(), Stop> {
    match ask {
        Ask::Nothing => Ok(()),
        Ask::GiveBack(store) => {
            *files = Some(store.close());
            Ok(())
        }
        Ask::Crash(store) => {
            if let Some(store) = store {
                *files = Some(store.close());
            }
            crash(files)?;
            answer.begin("ok");
            Ok(())
        }
        Ask::Closing(conn) => {
            let _closed = conn.close();
            Err(Stop::BadLine)
        }
        Ask::Connection => Err(Stop::BadLine),
    }
}

/// What wasn't synchronized may be lost, and the files can be used again.
fn crash<D: Disk + Crash>(files: &mut Kept<D>) -> Result<(), Stop> {
    match files {
        None => Err(Stop::BadLine),
        Some(files) => {
            files.log.crash();
            files.db.crash();
            Ok(())
        }
    }
}

fn options() -> Options {
    let mut options = Options::new(1);
    options.checkpoint_frames = CHECKPOINT_FRAMES;
    options
}
