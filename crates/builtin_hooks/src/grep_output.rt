//! What is printed for files, file by file.

ghost use Rattle.std.specs.Prelude.{◌≡◌, ◌++◌, ℕ, IfOk, List, OnOk, not};
ghost use Rattle.builtin_hooks.specs.GrepAnswer.{file_text, found_text, grep_output, is_empty_output, unfound_text};

use crate::file_lines::{first_found_line, push_found_lines};
use crate::matched_file::push_first_match;
use crate::searcher::Searcher;
use crate::written::push;
use hook_base::{OutOfMemory, RepoPath, Tree};
use std::alloc::Global;

/// What is printed for these files of the tree.
pub fn grep_output(
    alloc: Global,
    searcher: &mut Searcher<'_>,
    files: &[RepoPath],
    tree: &Tree,
) -> Result<Vec<u8>, OutOfMemory>
    ensures { IfOk result (λ output. output.items ≡ grep_output searcher.old files.now tree.now) }
{
    let mut output = Vec::new(alloc);
    'files: for path in files {
        if let Some(entry) = tree.get(path) {
            push_file(alloc, &mut output, searcher, path, entry.bytes.as_slice())?;
        }
    }
    Ok(output)
}

fn push_file(
    alloc: Global,
    output: &mut Vec<u8>,
    searcher: &mut Searcher<'_>,
    path: &RepoPath,
    bytes: &[u8],
) -> Result<(), OutOfMemory>
    ensures text { OnOk result (output.new.items ≡ output.old.items ++ file_text searcher.old path.now bytes.now) }
    ensures same { searcher.new ≡ searcher.old }
{
    if searcher.is_negated() {
        push_unfound(output, searcher, path, bytes)
    } else {
        push_found(alloc, output, searcher, path, bytes)
    }
}

// Prints the path of a file of which nothing would be printed.
fn push_unfound(
    output: &mut Vec<u8>,
    searcher: &mut Searcher<'_>,
    path: &RepoPath,
    bytes: &[u8],
) -> Result<(), OutOfMemory>
    ensures text { OnOk result (output.new.items
        ≡ output.old.items ++ unfound_text path.now (found_text searcher.old path.now bytes.now)) }
    ensures same { searcher.new ≡ searcher.old }
{
    if !is_found_in(searcher, bytes) {
        push(output, path.as_str().as_bytes())?;
        push(output, b"\n")?;
    }
    Ok(())
}

fn is_found_in(searcher: &mut Searcher<'_>, bytes: &[u8]) -> bool
    ensures found { (path : List ℕ) → is_empty_output (found_text searcher.old path bytes.now) ≡ not result }
    ensures same { searcher.new ≡ searcher.old }
{
    if searcher.is_multiline() {
        searcher.finds(bytes)
    } else {
        first_found_line(searcher, 1, bytes).is_some()
    }
}

fn push_found(
    alloc: Global,
    output: &mut Vec<u8>,
    searcher: &mut Searcher<'_>,
    path: &RepoPath,
    bytes: &[u8],
) -> Result<(), OutOfMemory>
    ensures text { OnOk result (output.new.items ≡ output.old.items ++ found_text searcher.old path.now bytes.now) }
    ensures same { searcher.new ≡ searcher.old }
{
    if searcher.is_multiline() {
        push_first_match(alloc, output, searcher, path, bytes)
    } else {
        push_found_lines(alloc, output, searcher, path, bytes)
    }
}
