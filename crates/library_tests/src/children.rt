//! Tests of what no clause of `child_port` says: that calls which allocate succeed, the rules by example, and
//! which call of a fuse fails.

use crate::words::words_of;
use child_port::{
    Answer, Children, Fault, FuseChildren, Outcome, TableChildren, TableRow, is_stray, plain_word,
    seen_of,
};
use hook_base::{Bytes, Change, Changes, Content, FileEntry, Items, Mode, RepoPath, Text, Tree};
use std::alloc::Global;
use std::process::Abort;
use std::test::Fail;

// A file at each of these paths. It contains its path, and is executable if the path ends in `.sh`.
fn tree_of(alloc: Global, paths: &str) -> Result<Tree, Fail> {
    let mut tree = Tree::new(alloc);
    for path in paths.split_whitespace() {
        let mode = if path.ends_with(".sh") {
            Mode::Executable
        } else {
            Mode::Plain
        };
        let bytes = Content::copy_of(alloc, path.as_bytes())?;
        tree.put(RepoPath::read(alloc, path)?, FileEntry { mode, bytes })?;
    }
    Ok(tree)
}

fn paths_of(alloc: Global, paths: &str) -> Result<Vec<RepoPath>, Fail> {
    let mut all = Vec::new(alloc);
    for path in paths.split_whitespace() {
        all.push(RepoPath::read(alloc, path)?)?;
    }
    Ok(all)
}

// Checks that a child with these words and extra paths sees the files at these paths, or all if it sees the
// whole tree.
fn check_seen(
    rt: &impl Abort,
    alloc: Global,
    tree: &Tree,
    words: &str,
    further: &str,
    paths: &str,
) -> Result<(), Fail> {
    let words_read = words_of(alloc, words)?;
    let further_read = paths_of(alloc, further)?;
    let (words_read, further_read) = (words_read.as_slice(), further_read.as_slice());
    let seen = seen_of(alloc, words_read, further_read, false, tree)?;
    assert_eq!(rt; seen, tree_of(alloc, paths)?, "{words}, {further}");
    let whole = seen_of(alloc, words_read, further_read, true, tree)?;
    assert_eq!(rt; &whole, tree, "{words}, {further}, whole");
    Ok(())
}

#[test]
fn sees_the_files_that_its_words_name(rt: HostRuntime) -> Result<(), Fail> {
    let all = "a.txt b.txt tools/lint.sh tools/lint.sh.txt x";
    let tree = tree_of(rt.alloc(), all)?;
    for (words, paths) in [
        ("", ""),
        ("sh tools/lint.sh a.txt", "a.txt tools/lint.sh"),
        ("x a.txt b.txt", "a.txt b.txt x"),
        ("./x", "x"),
        ("././x", ""),
        (".//x", ""),
        ("x/", ""),
        ("/x", ""),
        ("tools", ""),
        ("x x ./x a.txt x", "a.txt x"),
        ("x tools/lint.sh b.txt a.txt", "a.txt b.txt tools/lint.sh x"),
        ("b.txt c.txt ./b.txt a.txt sh a.txt", "a.txt b.txt"),
        (
            "a.txt b.txt tools/lint.sh tools/lint.sh.txt",
            "a.txt b.txt tools/lint.sh tools/lint.sh.txt",
        ),
        ("a.txt b.txt tools/lint.sh tools/lint.sh.txt x", all),
        (
            "x ./x tools/lint.sh.txt b.txt tools/lint.sh a.txt b.txt",
            all,
        ),
        ("--config=a.txt B.TXT c.txt", ""),
    ] {
        check_seen(&rt, rt.alloc(), &tree, words, "", paths)?;
    }
    Ok(())
}

#[test]
fn sees_the_further_files(rt: HostRuntime) -> Result<(), Fail> {
    let tree = tree_of(rt.alloc(), "a.txt b.txt lint.cfg tools/lint.sh")?;
    for (words, further, paths) in [
        ("", "lint.cfg", "lint.cfg"),
        ("c a.txt", "lint.cfg", "a.txt lint.cfg"),
        ("c ./lint.cfg", "lint.cfg", "lint.cfg"),
        (
            "c b.txt",
            "tools/lint.sh a.txt",
            "a.txt b.txt tools/lint.sh",
        ),
        ("c", "a.txt a.txt", "a.txt"),
        ("c", "none.cfg", ""),
        (
            "c tools/lint.sh",
            "z.cfg b.txt none.cfg",
            "b.txt tools/lint.sh",
        ),
        (
            "c b.txt ./b.txt lint.cfg",
            "lint.cfg a.txt b.txt",
            "a.txt b.txt lint.cfg",
        ),
        (
            "c tools/lint.sh a.txt",
            "lint.cfg b.txt lint.cfg",
            "a.txt b.txt lint.cfg tools/lint.sh",
        ),
        (
            "c",
            "a.txt lint.cfg tools/lint.sh",
            "a.txt lint.cfg tools/lint.sh",
        ),
    ] {
        check_seen(&rt, rt.alloc(), &tree, words, further, paths)?;
    }
    Ok(())
}

#[test]
fn takes_one_dot_slash_away(rt: HostRuntime) {
    for (word, plain) in [
        ("", ""),
        ("x", "x"),
        ("./x", "x"),
        ("././x", "./x"),
        ("./", ""),
        (".", "."),
        ("..", ".."),
        ("../x", "../x"),
        (".x", ".x"),
        ("x/./y", "x/./y"),
    ] {
        assert_eq!(rt; plain_word(word), plain, "{word}");
    }
}

// An answer that leaves the given bytes in each word's file; a path alone means that the file is gone.
fn answer_of(alloc: Global, changes: &str) -> Result<Answer, Fail> {
    let mut list = Vec::new(alloc);
    for change in changes.split_whitespace() {
        let (path, now) = match change.split_once('=') {
            Some((path, bytes)) => (path, Some(Content::copy_of(alloc, bytes.as_bytes())?)),
            None => (change, None),
        };
        let path = RepoPath::read(alloc, path)?;
        list.push(Change { path, now })?;
    }
    Ok(Answer {
        status: 0,
        output: Bytes::copy_of(alloc, b"")?,
        changes: Changes::from_rising(list).ok().ok_or("not rising")?,
    })
}

#[test]
fn strays_where_it_changes_what_it_has_not_seen(rt: HostRuntime) -> Result<(), Fail> {
    let alloc = rt.alloc();
    let seen = tree_of(alloc, "a.txt c.txt")?;
    for (changes, stray) in [
        ("", false),
        ("a.txt=new", false),
        ("a.txt=a.txt c.txt", false),
        ("b.txt=new", true),
        ("b.txt=b.txt", true),
        ("b.txt", true),
        ("a.txt=new b.txt=new", true),
        ("a.txt=new c.txt=new d.txt=new", true),
    ] {
        let answer = answer_of(alloc, changes)?;
        assert_eq!(rt; is_stray(&answer, &seen), stray, "{changes}");
    }
    Ok(())
}

// Checks how a child with this word that sees the whole tree ends, and how many calls and faults are counted
// then.
fn check_call<C: Children>(
    rt: &impl Abort,
    alloc: Global,
    children: &mut C,
    word: &str,
    tree: &Tree,
    wanted: (&Outcome, u64, u64),
) -> Result<(), Fail> {
    let words = words_of(alloc, word)?;
    assert!(rt; children.calls() < u64::MAX);
    let outcome = children.run(words.as_slice(), tree, tree)?;
    let counts = (children.calls(), children.faults());
    assert_eq!(rt; (&outcome, counts.0, counts.1), wanted, "{word}");
    Ok(())
}

// Children that answer only `c` on this tree, and have reported `calls` outcomes.
fn children_of(alloc: Global, tree: &Tree, calls: u64) -> Result<TableChildren, Fail> {
    let mut rows = Vec::new(alloc);
    rows.push(TableRow {
        words: words_of(alloc, "c")?,
        seen: tree.copy()?,
        answer: answer_of(alloc, "a.txt=new")?,
    })?;
    Ok(TableChildren::with_calls(Items::from(rows), calls))
}

// Checks that of three calls only the one with this number fails, and with what.
fn check_kth(
    rt: &impl Abort,
    alloc: Global,
    tree: &Tree,
    done: &Outcome,
    k: u64,
    fault: Fault,
) -> Result<(), Fail> {
    let mut children = FuseChildren::new(children_of(alloc, tree, 7)?, k, fault);
    assert_eq!(rt; (children.calls(), children.faults()), (7, 0));
    let failed = Outcome::Failed(fault);
    for call in 1..4 {
        let outcome = if call == k { &failed } else { done };
        let faults = u64::from(k != 0 && k <= call);
        check_call(
            rt,
            alloc,
            &mut children,
            "c",
            tree,
            (outcome, 7 + call, faults),
        )?;
    }
    Ok(())
}

#[test]
fn fails_its_kth_call_alone(rt: HostRuntime) -> Result<(), Fail> {
    let tree = tree_of(rt.alloc(), "a.txt")?;
    let done = Outcome::Done(answer_of(rt.alloc(), "a.txt=new")?);
    for fault in [
        Fault::NotStarted,
        Fault::WaitFailed,
        Fault::Signal,
        Fault::OutputTooLong,
        Fault::ScratchFailed,
    ] {
        for k in 0..5 {
            check_kth(&rt, rt.alloc(), &tree, &done, k, fault)?;
        }
    }
    Ok(())
}

#[test]
fn keeps_the_failed_call_from_the_inner_children(rt: HostRuntime) -> Result<(), Fail> {
    let tree = tree_of(rt.alloc(), "a.txt")?;
    let done = Outcome::Done(answer_of(rt.alloc(), "a.txt=new")?);
    let inner = FuseChildren::new(children_of(rt.alloc(), &tree, 0)?, 2, Fault::WaitFailed);
    let mut children = FuseChildren::new(inner, 1, Fault::Signal);
    for (word, wanted) in [
        ("c", (&Outcome::Failed(Fault::Signal), 1, 1)),
        ("c", (&done, 2, 1)),
        ("c", (&Outcome::Failed(Fault::WaitFailed), 3, 2)),
        ("d", (&Outcome::Failed(Fault::NotStarted), 4, 3)),
    ] {
        check_call(&rt, rt.alloc(), &mut children, word, &tree, wanted)?;
    }
    Ok(())
}
