//! Runs of a configuration over files without bytes, which need no child.
//!
//! A run's answer is a line with `passed`, `failed` or `refused`, and what was written. If the run is
//! refused, the line also has the refusal, as `Debug` shows it, and how often the writer was called.

use crate::readers::{Pieces, Texts};
use crate::writers::{Flushed, Kept};
use child_port::TableChildren;
use hook_base::{Content, FileEntry, Items, Mode, RepoPath, Tree};
use hook_cli::{TryFault, try_over};
use std::alloc::Global;
use std::io::{Read, Write};
use trial_rows::{AnswerBytes, Stop, number_of, text_of, verdict_of};

/// `try_over CONFIGURATION PATH..`: a run over plain files at these paths.
pub(crate) fn over_files(alloc: Global, arguments: &[Vec<u8>]) -> Result<AnswerBytes, Stop> {
    let [configuration, paths @ ..] = arguments else {
        return Err(Stop::BadLine);
    };
    let mut reader = Pieces::new(configuration.as_slice());
    let mut writer = Kept::new(alloc);
    kept(alloc, &mut reader, &mut writer, paths)
}

/// `try_failing_reader CALL CONFIGURATION PATH..`: the reader gives an error in the call with this number.
pub(crate) fn with_failing_reader(
    alloc: Global,
    arguments: &[Vec<u8>],
) -> Result<AnswerBytes, Stop> {
    let [call, configuration, paths @ ..] = arguments else {
        return Err(Stop::BadLine);
    };
    let mut reader = Pieces::failing(configuration.as_slice(), number_of(call.as_slice())?);
    let mut writer = Kept::new(alloc);
    kept(alloc, &mut reader, &mut writer, paths)
}

/// `try_failing_writer CALL CONFIGURATION PATH..`: the writer gives an error in the call with this number.
pub(crate) fn with_failing_writer(
    alloc: Global,
    arguments: &[Vec<u8>],
) -> Result<AnswerBytes, Stop> {
    let [call, configuration, paths @ ..] = arguments else {
        return Err(Stop::BadLine);
    };
    let mut reader = Pieces::new(configuration.as_slice());
    let mut writer = Kept::failing(alloc, number_of(call.as_slice())?);
    kept(alloc, &mut reader, &mut writer, paths)
}

/// `try_texts TEXT..`: a run over no files, whose reader gives one of the texts in each call. The first line
/// ends with how often the reader was called.
pub(crate) fn of_texts(alloc: Global, arguments: &[Vec<u8>]) -> Result<AnswerBytes, Stop> {
    let mut reader = Texts::new(arguments);
    let mut writer = Kept::new(alloc);
    let ran = tried(alloc, &mut reader, &mut writer, &Tree::new(alloc));
    let answer = head_of(alloc, ran, writer.calls).text(", ");
    let answer = answer.shown(reader.calls).text(" calls of the reader");
    Ok(told(answer, writer.bytes.as_slice()))
}

/// `try_left CONFIGURATION`: a run over no files. The first line ends with how many bytes were left unread.
pub(crate) fn with_bytes_left(alloc: Global, arguments: &[Vec<u8>]) -> Result<AnswerBytes, Stop> {
    let [configuration] = arguments else {
        return Err(Stop::BadLine);
    };
    let mut reader = Pieces::new(configuration.as_slice());
    let mut writer = Kept::new(alloc);
    let ran = tried(alloc, &mut reader, &mut writer, &Tree::new(alloc));
    let answer = head_of(alloc, ran, writer.calls).text(", ");
    let answer = answer.shown(reader.left.len()).text(" bytes left");
    Ok(told(answer, writer.bytes.as_slice()))
}

/// `try_flushed CONFIGURATION PATH..`: the writer keeps only what was flushed.
pub(crate) fn with_flushes(alloc: Global, arguments: &[Vec<u8>]) -> Result<AnswerBytes, Stop> {
    let [configuration, paths @ ..] = arguments else {
        return Err(Stop::BadLine);
    };
    let mut reader = Pieces::new(configuration.as_slice());
    let mut writer = Flushed::new(alloc);
    let ran = tried(alloc, &mut reader, &mut writer, &tree_of(alloc, paths)?);
    Ok(told(head_of(alloc, ran, 0), writer.out.as_slice()))
}

fn kept(
    alloc: Global,
    reader: &mut Pieces<'_>,
    writer: &mut Kept,
    paths: &[Vec<u8>],
) -> Result<AnswerBytes, Stop> {
    let ran = tried(alloc, reader, writer, &tree_of(alloc, paths)?);
    Ok(told(head_of(alloc, ran, writer.calls), writer.bytes.as_slice()))
}

fn tried(
    alloc: Global,
    reader: &mut impl Read,
    writer: &mut impl Write,
    tree: &Tree,
) -> Result<bool, TryFault> {
    let mut children = TableChildren::new(Items::from(Vec::new(alloc)));
    try_over(alloc, reader, writer, tree, &mut children)
}

fn head_of(alloc: Global, ran: Result<bool, TryFault>, calls: u32) -> AnswerBytes {
    let answer = AnswerBytes::new(alloc);
    match ran {
        Ok(passed) => answer.text(verdict_of(passed)),
        Err(fault) => {
            let answer = answer.text("refused ").debug(fault).text(", ");
            answer.shown(calls).text(" calls of the writer")
        }
    }
}

fn told(head: AnswerBytes, written: &[u8]) -> AnswerBytes {
    head.text("\n").bytes(written)
}

fn tree_of(alloc: Global, paths: &[Vec<u8>]) -> Result<Tree, Stop> {
    let mut tree = Tree::new(alloc);
    for path in paths {
        let path = RepoPath::read(alloc, text_of(path.as_slice())?)?;
        tree.put(path, empty_file(alloc)?)?;
    }
    Ok(tree)
}

fn empty_file(alloc: Global) -> Result<FileEntry, Stop> {
    Ok(FileEntry {
        mode: Mode::Plain,
        bytes: Content::copy_of(alloc, b"")?,
    })
}
