//! Tests of what no clause of `result_book` says: that calls which allocate succeed, and by example what a
//! key is and which row is dropped.

ghost use Rattle.store_faults.specs.Limits.{IsLimit};

use crate::words::words_of;
use child_port::{Answer, is_stray};
use hook_base::{Bytes, Change, Changes, Content, FileEntry, Items, Mode, RepoPath, Text, Tree};
use result_book::{Book, ListBook};
use std::alloc::Global;
use std::process::Abort;
use std::test::Fail;
use store_faults::FIRST_LIMIT;

// The files at these paths with the bytes after `=`. `*` before a path means that the file is executable.
fn tree_of(alloc: Global, files: &str) -> Result<Tree, Fail> {
    let mut tree = Tree::new(alloc);
    for file in files.split_whitespace() {
        let (file, mode) = match file.strip_prefix("*") {
            Some(file) => (file, Mode::Executable),
            None => (file, Mode::Plain),
        };
        let (path, bytes) = file.split_once('=').ok_or("no bytes")?;
        let bytes = Content::copy_of(alloc, bytes.as_bytes())?;
        tree.put(RepoPath::read(alloc, path)?, FileEntry { mode, bytes })?;
    }
    Ok(tree)
}

// An answer that prints this, and leaves it in the file at this path.
fn answer_of(alloc: Global, path: &str, output: &str) -> Result<Answer, Fail> {
    let mut changes = Vec::new(alloc);
    changes.push(Change {
        path: RepoPath::read(alloc, path)?,
        now: Some(Content::copy_of(alloc, output.as_bytes())?),
    })?;
    Ok(Answer {
        status: 3,
        output: Bytes::copy_of(alloc, output.as_bytes())?,
        changes: Changes::from_rising(changes).ok().ok_or("not rising")?,
    })
}

// Puts an answer that prints this for these words and files.
fn put(
    rt: &impl Abort,
    alloc: Global,
    book: &mut ListBook,
    key: (&str, &str),
    output: &str,
) -> Result<(), Fail> {
    let words = words_of(alloc, key.0)?;
    let seen = tree_of(alloc, key.1)?;
    let answer = answer_of(alloc, "a.txt", output)?;
    assert!(rt; !is_stray(&answer, &seen));
    Ok(book.put(words.as_slice(), &seen, &answer)?)
}

// Checks that what is found for these words and files is an answer that prints this, or nothing.
fn check_found(
    rt: &impl Abort,
    alloc: Global,
    book: &mut ListBook,
    key: (&str, &str),
    output: Option<&str>,
) -> Result<(), Fail> {
    let words = words_of(alloc, key.0)?;
    let seen = tree_of(alloc, key.1)?;
    let found = book.find(words.as_slice(), &seen)?;
    let wanted = match output {
        Some(output) => Some(answer_of(alloc, "a.txt", output)?),
        None => None,
    };
    assert_eq!(rt; found, wanted, "{} on {}", key.0, key.1);
    Ok(())
}

// What a book is asked for these words and files, and how many answers it holds then.
#[derive(Clone, Copy)]
enum Step {
    Find((&'static str, &'static str), Option<&'static str>),
    Put((&'static str, &'static str), &'static str),
    Len(u64),
    // The number of answers that were removed.
    Forget(u64),
}

use Step::{Find, Forget, Len, Put};

fn check_step(rt: &impl Abort, alloc: Global, book: &mut ListBook, step: Step) -> Result<(), Fail> {
    match step {
        Find(key, output) => check_found(rt, alloc, book, key, output)?,
        Put(key, output) => put(rt, alloc, book, key, output)?,
        Len(count) => assert_eq!(rt; book.len(), count),
        Forget(count) => assert_eq!(rt; book.forget()?, count),
    }
    Ok(())
}

fn check_steps(
    rt: &impl Abort,
    alloc: Global,
    book: &mut ListBook,
    steps: &[Step],
) -> Result<(), Fail> {
    for step in steps {
        check_step(rt, alloc, book, *step)?;
    }
    Ok(())
}

#[test]
fn remembers_an_answer_until_it_forgets(rt: HostRuntime) -> Result<(), Fail> {
    let key = ("c", "a.txt=1");
    check_steps(
        &rt,
        rt.alloc(),
        &mut ListBook::new(rt.alloc(), FIRST_LIMIT),
        &[
            Find(key, None),
            Len(0),
            Put(key, "first"),
            Find(key, Some("first")),
            Find(("c", "a.txt=2"), None),
            Put(key, "second"),
            Find(key, Some("second")),
            Len(1),
            Forget(1),
            Find(key, None),
            Len(0),
            Forget(0),
        ],
    )
}

// Checks that nothing is found for the words and files at first, and then what was put. The second time
// another answer replaces it.
fn check_key(
    rt: &impl Abort,
    alloc: Global,
    book: &mut ListBook,
    key: (&'static str, &'static str),
    before: Option<&'static str>,
    output: &'static str,
) -> Result<(), Fail> {
    check_steps(rt, alloc, book, &[Find(key, before), Put(key, output)])
}

const KEYS: [(&str, &str); 10] = [
    ("c", "a.txt=1"),
    ("c", "a.txt=12"),
    ("c", "*a.txt=1"),
    ("c", "a.txt=1 b.txt=1"),
    ("c", "a.txt=1 c.txt=1"),
    ("d", "a.txt=1"),
    ("c d", "a.txt=1"),
    ("d c", "a.txt=1"),
    ("cd", "a.txt=1"),
    ("", "a.txt=1"),
];

#[test]
fn tells_keys_apart(rt: HostRuntime) -> Result<(), Fail> {
    let mut book = ListBook::new(rt.alloc(), FIRST_LIMIT);
    for key in KEYS {
        check_key(&rt, rt.alloc(), &mut book, key, None, key.0)?;
    }
    assert_eq!(rt; book.len(), 10);
    for key in KEYS {
        check_key(&rt, rt.alloc(), &mut book, key, Some(key.0), key.1)?;
    }
    for key in KEYS {
        check_found(&rt, rt.alloc(), &mut book, key, Some(key.1))?;
    }
    assert_eq!(rt; book.forget()?, 10);
    Ok(())
}

fn play_word(rt: &impl Abort, alloc: Global, book: &mut ListBook, word: &str) -> Result<(), Fail> {
    match word.strip_suffix("?") {
        Some(word) => check_found(rt, alloc, book, (word, "a.txt=1"), Some(word)),
        None => put(rt, alloc, book, (word, "a.txt=1"), word),
    }
}

fn play_line(rt: &impl Abort, alloc: Global, book: &mut ListBook, line: &str) -> Result<(), Fail> {
    for word in line.split_whitespace() {
        play_word(rt, alloc, book, word)?;
    }
    Ok(())
}

// Checks that each word of a line is found, or that none is.
fn check_line(
    rt: &impl Abort,
    alloc: Global,
    book: &mut ListBook,
    line: &str,
    are_kept: bool,
) -> Result<(), Fail> {
    for word in line.split_whitespace() {
        let wanted = if are_kept { Some(word) } else { None };
        check_found(rt, alloc, book, (word, "a.txt=1"), wanted)?;
    }
    Ok(())
}

// Plays a line over a book with a limit: each word is put, or looked up if `?` follows it. Then the `kept`
// ones are found and the `gone` ones aren't, and the book reports how many there are.
fn check_play(
    rt: &impl Abort,
    alloc: Global,
    limit: u32,
    line: &str,
    kept: &str,
    gone: &str,
) -> Result<(), Fail>
    requires { IsLimit limit }
{
    let mut book = ListBook::new(alloc, limit);
    play_line(rt, alloc, &mut book, line)?;
    check_line(rt, alloc, &mut book, kept, true)?;
    check_line(rt, alloc, &mut book, gone, false)?;
    check_count(rt, alloc, &mut book, kept.split_whitespace().count() as u64)
}

// Checks how many answers are cached and removed, and that one is cached again afterwards.
fn check_count(
    rt: &impl Abort,
    alloc: Global,
    book: &mut ListBook,
    count: u64,
) -> Result<(), Fail> {
    let key = ("z", "a.txt=1");
    check_steps(
        rt,
        alloc,
        book,
        &[
            Len(count),
            Forget(count),
            Put(key, "z"),
            Find(key, Some("z")),
        ],
    )
}

#[test]
fn drops_the_least_recently_used(rt: HostRuntime) -> Result<(), Fail> {
    for (line, kept, gone) in [("a", "a", "b"), ("a b", "b", "a"), ("a b b? b a", "a", "b")] {
        check_play(&rt, rt.alloc(), 1, line, kept, gone)?;
    }
    for (line, kept, gone) in [
        ("a b", "a b", "c"),
        ("a b c", "b c", "a"),
        ("a b a? c", "a c", "b"),
        ("a b a c", "a c", "b"),
        ("a b b? c", "b c", "a"),
    ] {
        check_play(&rt, rt.alloc(), 2, line, kept, gone)?;
    }
    for (line, kept, gone) in [
        ("a b c d", "b c d", "a"),
        ("a b c a? d", "c d a", "b"),
        ("a b c b? d", "b c d", "a"),
        ("a b c a? b? d e", "b d e", "a c"),
        ("a b c a? b? c? d", "b c d", "a"),
        ("a b b a? b c", "a b c", "d"),
    ] {
        check_play(&rt, rt.alloc(), 3, line, kept, gone)?;
    }
    Ok(())
}
