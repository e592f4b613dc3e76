//! Tests of what no clause of `child_display` says: by example that lines are made, and what is written to a
//! terminal while a child runs.

use child_display::{
    ShownChildren, ShownHook, Terminal, clearing, columns_of, line_of_child, line_of_hook,
};
use child_port::{Answer, Children, Fault, FuseChildren, News, Outcome, TableChildren, TableRow};
use hook_base::{Bytes, Changes, Items, OutOfMemory, Text, Tree};
use std::alloc::Global;
use std::io;
use std::io::{ErrorKind, Write};
use std::process::Abort;
use std::test::Fail;

fn words_of(alloc: Global, words: &[&str]) -> Result<Items<Text>, OutOfMemory> {
    let mut texts = Vec::new(alloc);
    for word in words {
        texts.push(Text::copy_of(alloc, word)?)?;
    }
    Ok(Items::from(texts))
}

#[test]
fn shows_a_command_in_as_many_columns_as_there_are(rt: HostRuntime) -> Result<(), Fail> {
    let alloc = rt.alloc();
    for (words, before, columns, shown) in [
        (&["true"], 0, 80, "[0] true"),
        (
            &["true"],
            18446744073709551615,
            80,
            "[18446744073709551615] true",
        ),
        (&["true"], 7, 8, "[7] true"),
        (&["true"], 7, 7, "[7] tru"),
        (&["true"], 7, 1, "["),
        (&["true"], 7, 0, ""),
        (&[""], 1, 80, "[1] "),
        (&["a b"], 1, 80, "[1] a b"),
        (
            &["a\nb\u{1b}[31mc\r\t\0\u{7f}\u{9b}"],
            1,
            80,
            "[1] a?b?[31mc?????",
        ),
        (&["日本"], 1, 8, "[1] 日本"),
        (&["日本"], 1, 7, "[1] 日"),
        (&["日本"], 1, 6, "[1] 日"),
        (&["日b"], 1, 5, "[1] "),
        (&["e\u{301}é"], 1, 6, "[1] e\u{301}é"),
    ] {
        let words = words_of(alloc, words)?;
        let line = line_of_child(alloc, words.as_slice(), before, columns)?;
        let wanted = format!(in alloc; "\u{1b}[?7l{shown}\u{1b}[?7h")?;
        assert_eq!(rt; line.as_str(), wanted.as_str());
    }
    Ok(())
}

#[test]
fn reads_how_many_columns_there_are(rt: HostRuntime) {
    for (said, columns) in [
        ("80", 80),
        ("1", 1),
        ("0132", 132),
        ("65535", 65535),
        ("", 80),
        ("0", 80),
        ("65536", 80),
        ("-1", 80),
        ("80 ", 80),
        ("wide", 80),
    ] {
        assert_eq!(rt; columns_of(said), columns, "{said}");
    }
}

// A terminal that accepts nothing.
#[derive(Drop)]
struct Broken;

impl Write for Broken {
    fn write(&mut self, _buf: &[u8]) -> io::Result<usize> {
        Err(io::Error::from(ErrorKind::BrokenPipe))
    }

    fn flush(&mut self) -> io::Result<()> {
        Err(io::Error::from(ErrorKind::BrokenPipe))
    }
}

fn done(alloc: Global) -> Result<Answer, OutOfMemory> {
    Ok(Answer {
        status: 3,
        output: Bytes::copy_of(alloc, b"said")?,
        changes: Changes::new(alloc),
    })
}

// Children that answer `c x` on an empty tree, fail their second call with a signal, and have reported seven
// outcomes.
fn children_of(alloc: Global) -> Result<FuseChildren<TableChildren>, Fail> {
    let mut rows = Vec::new(alloc);
    rows.push(TableRow {
        words: words_of(alloc, &["c", "x"])?,
        seen: Tree::new(alloc),
        answer: done(alloc)?,
    })?;
    let table = TableChildren::with_calls(Items::from(rows), 7);
    Ok(FuseChildren::new(table, 2, Fault::Signal))
}

// What shown children report of three calls, and their counts.
fn play<W: Write + Drop>(
    rt: &impl Abort,
    alloc: Global,
    terminal: Option<Terminal<W>>,
) -> Result<(), Fail> {
    let mut children = ShownChildren::new(children_of(alloc)?, terminal);
    let tree = Tree::new(alloc);
    let words = words_of(alloc, &["c", "x"])?;
    for (outcome, calls, faults) in [
        (Outcome::Done(done(alloc)?), 8, 0),
        (Outcome::Failed(Fault::Signal), 9, 1),
        (Outcome::Done(done(alloc)?), 10, 1),
    ] {
        assert!(rt; children.calls() < u64::MAX);
        assert_eq!(rt; children.run(words.as_slice(), &tree, &tree)?, outcome);
        assert_eq!(rt; (children.calls(), children.faults()), (calls, faults));
    }
    Ok(())
}

#[test]
fn shows_each_child_and_clears_its_line(rt: HostRuntime) -> Result<(), Fail> {
    let alloc = rt.alloc();
    let mut told = Vec::new(alloc);
    play(
        &rt,
        alloc,
        Some(Terminal {
            alloc,
            writer: &mut told,
            columns: 7,
        }),
    )?;
    let mut wanted = String::new(alloc);
    for shown in ["[7] c x", "[8] c x", "[9] c x"] {
        wanted.push_str("\u{1b}[?7l")?;
        wanted.push_str(shown)?;
        wanted.push_str("\u{1b}[?7h")?;
        wanted.push_str(clearing())?;
    }
    assert_eq!(rt; told.as_slice(), wanted.as_str().as_bytes());
    Ok(())
}

#[test]
fn tells_the_same_without_a_terminal_or_with_a_broken_one(rt: HostRuntime) -> Result<(), Fail> {
    let alloc = rt.alloc();
    play::<Broken>(&rt, alloc, None)?;
    play(
        &rt,
        alloc,
        Some(Terminal {
            alloc,
            writer: Broken,
            columns: 80,
        }),
    )
}

fn hook_of(alloc: Global, name: &str, place: usize) -> Result<ShownHook, OutOfMemory> {
    Ok(ShownHook {
        name: Text::copy_of(alloc, name)?,
        place,
        stage_hooks: 12,
    })
}

#[test]
fn names_a_hook_before_the_words(rt: HostRuntime) -> Result<(), Fail> {
    let alloc = rt.alloc();
    let words = words_of(alloc, &["c", "x"])?;
    for (name, columns, shown) in [
        ("lint", 80, "[4] 3/12 lint: c x"),
        ("lint", 12, "[4] 3/12 lin"),
        ("", 80, "[4] 3/12 : c x"),
        ("a\nb\u{1b}", 80, "[4] 3/12 a?b?: c x"),
        ("日本", 11, "[4] 3/12 日"),
    ] {
        let hook = hook_of(alloc, name, 3)?;
        let line = line_of_hook(alloc, &hook, words.as_slice(), 4, columns)?;
        let wanted = format!(in alloc; "\u{1b}[?7l{shown}\u{1b}[?7h")?;
        assert_eq!(rt; line.as_str(), wanted.as_str());
    }
    Ok(())
}

// Runs a child before a run reports anything, and then children of two hooks.
fn run_heard<W: Write + Drop>(
    rt: &impl Abort,
    alloc: Global,
    terminal: Terminal<W>,
) -> Result<(), Fail> {
    let table = TableChildren::with_calls(Items::new(alloc), 0);
    let mut children = ShownChildren::new(table, Some(terminal));
    assert!(rt; children.hears());
    let tree = Tree::new(alloc);
    for (place, name) in [(0, ""), (2, "C"), (2, "C"), (12, "D")] {
        if place > 0 {
            let hooks = 12;
            let id = "c";
            children.hear(News::Hook {
                place,
                hooks,
                id,
                name,
            });
            children.hear(News::Report(b"C...Passed\n"));
        }
        let words = words_of(alloc, &["c", "a"])?;
        assert!(rt; children.calls() < u64::MAX);
        let _outcome = children.run(words.as_slice(), &tree, &tree)?;
    }
    Ok(())
}

#[test]
fn names_the_hook_that_the_run_says(rt: HostRuntime) -> Result<(), Fail> {
    let alloc = rt.alloc();
    let mut told = Vec::new(alloc);
    run_heard(
        &rt,
        alloc,
        Terminal {
            alloc,
            writer: &mut told,
            columns: 80,
        },
    )?;
    let mut wanted = String::new(alloc);
    for shown in [
        "[0] c a",
        "[1] 2/12 C: c a",
        "[2] 2/12 C: c a",
        "[3] 12/12 D: c a",
    ] {
        wanted.push_str("\u{1b}[?7l")?;
        wanted.push_str(shown)?;
        wanted.push_str("\u{1b}[?7h")?;
        wanted.push_str(clearing())?;
    }
    assert_eq!(rt; told.as_slice(), wanted.as_str().as_bytes());
    Ok(())
}
