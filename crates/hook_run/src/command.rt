//! The command of a hook.

ghost use Rattle.std.specs.Prelude.{◌≡◌, ◌++◌, ◌∷◌, IfOk, Some, None};
ghost use Rattle.std.specs.List.{list_any};
ghost use Rattle.std.specs.Option.{option_copied};
ghost use Rattle.std.specs.Str.{bytes_eq};
ghost use Rattle.hook_base.specs.Paths.{is_slash};
ghost use Rattle.hook_base.specs.Trees.{entry_of};
ghost use Rattle.hook_run.specs.Commands.{command_of, command_with, starter_of};
ghost use Rattle.child_port.specs.Seen.{plain_word};
ghost use Rattle.file_tags.specs.Shebangs.{shebang_of};

use child_port::plain_word;
use file_tags::shebang;
use hook_base::{File, FileEntry, Items, OutOfMemory, Text, Tree};
use std::alloc::Global;

/// The command of a hook on the tree, without names, from the words of its entry and arguments
/// (`pre_commit.lang_base.hook_cmd`). `is_script` says that its language is `script`. The cases are those of
/// docs/REFERENCE.md, "The command of a hook".
pub fn command_of(
    alloc: Global,
    is_script: bool,
    words: &[Text],
    tree: &Tree,
) -> Result<Items<Text>, OutOfMemory>
    ensures { IfOk result (λ command. command ≡ command_of is_script words.now tree.now) }
{
    let [first, rest @ ..] = words else {
        return Ok(Items::new(alloc));
    };
    let first = first.as_str();
    let program = plain_word(first);
    match entry_at(tree, program) {
        Some(entry) if is_script || has_slash(first) => script_held(alloc, entry, program, rest),
        Some(_) => as_it_is(alloc, first, rest),
        None if is_script => script_lacked(alloc, program, rest),
        None => as_it_is(alloc, first, rest),
    }
}

// What the tree holds at a path. It holds nothing at a text that is no path.
fn entry_at<'a>(tree: &'a Tree, path: &str) -> Option<&'a FileEntry>
    ensures { option_copied result ≡ entry_of path.now tree.now }
{
    'rows: for index in 0..tree.len() {
        let row = tree.entry(index);
        if is_at(row, path) {
            return Some(&row.entry);
        }
    }
    None
}

fn is_at(row: &File, path: &str) -> bool
    ensures { result ≡ bytes_eq path.now row.now.path }
{
    path == row.path.as_str()
}

fn has_slash(word: &str) -> bool
    ensures { result ≡ list_any is_slash word.now }
{
    word.as_bytes().iter().any(|byte| *byte == b'/')
}

// The command of a script that the tree holds: what starts it, its path, and the other words.
fn script_held(
    alloc: Global,
    entry: &FileEntry,
    program: &str,
    rest: &[Text],
) -> Result<Items<Text>, OutOfMemory>
    ensures { IfOk result (λ command. command ≡ starter_of (shebang_of entry.now.bytes) ++ program.now ∷ rest.now) }
{
    let mut command = starter_of(alloc, entry)?.into_vec();
    command.push(Text::copy_of(alloc, program)?)?;
    with_texts(command, rest)
}

// What starts a script: the words of its first line after `#!`, or `sh` if it has none.
fn starter_of(alloc: Global, entry: &FileEntry) -> Result<Items<Text>, OutOfMemory>
    ensures { IfOk result (λ starter. starter ≡ starter_of (shebang_of entry.now.bytes)) }
{
    let words = shebang(alloc, entry.bytes.as_slice())?;
    if !words.is_empty() {
        return Ok(words);
    }
    let mut words = Vec::new(alloc);
    words.push(Text::copy_of(alloc, "sh")?)?;
    Ok(Items::from(words))
}

// The command of a script that the tree lacks: its path from the top of the tree, and the other words.
fn script_lacked(alloc: Global, program: &str, rest: &[Text]) -> Result<Items<Text>, OutOfMemory>
    ensures { IfOk result (λ command. command ≡ (46 ∷ 47 ∷ program.now) ∷ rest.now) }
{
    let mut path = String::from_str(alloc, "./")?;
    path.push_str(program)?;
    let mut command = Vec::new(alloc);
    command.push(Text::from(path))?;
    with_texts(command, rest)
}

// The words as they are.
fn as_it_is(alloc: Global, first: &str, rest: &[Text]) -> Result<Items<Text>, OutOfMemory>
    ensures { IfOk result (λ command. command ≡ first.now ∷ rest.now) }
{
    let mut command = Vec::new(alloc);
    command.push(Text::copy_of(alloc, first)?)?;
    with_texts(command, rest)
}

// The texts that are there, followed by more.
fn with_texts(mut texts: Vec<Text>, more: &[Text]) -> Result<Items<Text>, OutOfMemory>
    ensures { IfOk result (λ all. all ≡ texts.items ++ more.now) }
{
    'texts: for text in more {
        texts.push(text.clone()?)?;
    }
    Ok(Items::from(texts))
}
