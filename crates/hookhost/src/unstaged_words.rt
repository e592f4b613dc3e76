//! The staged files that the words of `rm` name.
//!
//! The contracts cite `specs/UnstagedWords.antt`.

ghost use Rattle.std.specs.Prelude.{◌≡◌, ◌&&◌, [], ◌∷◌, drop, map, string_bytes, take, IfOk, if◌then◌else◌};
ghost use Rattle.std.specs.Option.{option_copied};
ghost use Rattle.hook_base.specs.Trees.{IsRising};
ghost use Rattle.named_files.specs.NamedPaths.{with_paths};
ghost use Rattle.named_files.specs.Words.{beginning_below, is_working_folder, path_begins_with};
ghost use Rattle.hookhost.specs.UnstagedWords.{AreBefore, AreFrom, has_none, has_own_command, is_before_at, is_staged_word, is_word_alone, path_below_at, paths_or_word, removal_by, removal_of_first, removal_together, removed_path, staged_beginning, unstaged_by_word, unstaged_paths};

use commit_flow::{Command, StagingEdit, StagingEdits};
use hook_base::{OutOfMemory, PathFault, RepoPath, Text};
use named_files::{NamedPaths, beginning_below, begins_with, is_working_folder};
use repo_store::Store;
use sqlite::Alter;
use std::alloc::Global;
use std::cmp::Ordering;

/// The command that unstages what the words name, or `None` if there are no words. A single word of a line
/// that is no folder of staged files is removed by a command of its own.
pub(crate) fn removal_of<S: Alter>(
    alloc: Global,
    store: &Store<S>,
    words: &[Text],
    is_listed: bool,
) -> Result<Option<Command>, OutOfMemory>
    ensures { IfOk result (λ command. command ≡ removal_by store.now.kept.repo.staged words.now is_listed) }
{
    let paths = unstaged_paths(alloc, store, words)?;
    if has_own_command(words, is_listed, paths.as_slice()) {
        removal_of_first(words)
    } else {
        removal_together(alloc, paths)
    }
}

// Whether a single word of a line unstages the file under it, or is refused.
fn has_own_command(words: &[Text], is_listed: bool, paths: &[String]) -> bool
    ensures { result ≡ has_own_command words.now is_listed (map string_bytes paths.now) }
{
    match words {
        [word] => !is_listed && is_word_alone(word.as_str(), paths),
        _ => false,
    }
}

fn removal_of_first(words: &[Text]) -> Result<Option<Command>, OutOfMemory>
    ensures { IfOk result (λ command. command ≡ removal_of_first words.now) }
{
    match words.first() {
        Some(word) => Ok(Some(Command::Remove {
            path: word.clone()?,
        })),
        None => Ok(None),
    }
}

// Whether there is one path, and it is the word.
fn is_word_alone(word: &str, paths: &[String]) -> bool
    ensures { result ≡ is_word_alone word.now (map string_bytes paths.now) }
{
    match paths {
        [path] => path.as_str() == word,
        _ => false,
    }
}

// The command that removes the paths together.
fn removal_together(alloc: Global, paths: Vec<String>) -> Result<Option<Command>, OutOfMemory>
    ensures { IfOk result (λ command. command ≡ removal_together (map string_bytes paths.items)) }
{
    let edits = removals(alloc, paths)?;
    match StagingEdits::of(edits) {
        Some(edits) => Ok(Some(Command::Stage { edits })),
        None => Ok(None),
    }
}

fn removals(alloc: Global, paths: Vec<String>) -> Result<Vec<StagingEdit>, OutOfMemory>
    ensures { IfOk result (λ edits. edits.items ≡ map removed_path (map string_bytes paths.items)) }
{
    let mut edits = Vec::new(alloc);
    'paths: for path in paths {
        edits.push(StagingEdit::Remove {
            path: Text::from(path),
        })?;
    }
    Ok(edits)
}

// What the words unstage, in their order and each path once.
fn unstaged_paths<S: Alter>(
    alloc: Global,
    store: &Store<S>,
    words: &[Text],
) -> Result<Vec<String>, OutOfMemory>
    ensures { IfOk result (λ paths. map string_bytes paths.items
        ≡ unstaged_paths store.now.kept.repo.staged words.now) }
{
    let mut named = NamedPaths::new(alloc);
    'words: for word in words {
        named = with_word(alloc, store, word.as_str(), named)?;
    }
    Ok(named.into_vec())
}

// The paths, and what a word unstages.
fn with_word<S: Alter>(
    alloc: Global,
    store: &Store<S>,
    word: &str,
    named: NamedPaths,
) -> Result<NamedPaths, OutOfMemory>
    ensures { IfOk result (λ more. more ≡ with_paths named (unstaged_by_word store.now.kept.repo.staged word.now)) }
{
    if is_staged(alloc, store, word)? {
        with_itself(word, named)
    } else {
        with_folder(alloc, store, word, named)
    }
}

// The paths, and those of the staged files below the folder that the word names, or the word if there are none.
fn with_folder<S: Alter>(
    alloc: Global,
    store: &Store<S>,
    word: &str,
    named: NamedPaths,
) -> Result<NamedPaths, OutOfMemory>
    ensures { IfOk result (λ more. more ≡ with_paths named (paths_or_word
        (staged_beginning store.now.kept.repo.staged (beginning_below word.now)) word.now)) }
{
    let beginning = beginning_below(alloc, word)?;
    let head = beginning.as_str();
    let first = first_from(store, head)?;
    match path_below_at(store, first, head) {
        Some(_path) => with_below(store, first, head, named),
        None => with_itself(word, named),
    }
}

fn with_itself(word: &str, named: NamedPaths) -> Result<NamedPaths, OutOfMemory>
    ensures { IfOk result (λ more. more ≡ with_paths named (word.now ∷ [])) }
{
    Ok(named.with(word)?)
}

/// Whether a word names the working folder while no file is staged. Otherwise the store would be asked for a
/// file of that name, which is no path.
pub(crate) fn is_folder_of_none<S: Alter>(word: &Text, store: &Store<S>) -> bool
    ensures { result ≡ (is_working_folder word.now && has_none store.now.kept.repo.staged) }
{
    is_working_folder(word.as_str()) && store.staged_file(0).is_none()
}

fn is_staged<S: Alter>(alloc: Global, store: &Store<S>, word: &str) -> Result<bool, OutOfMemory>
    ensures { IfOk result (λ is. is ≡ is_staged_word store.now.kept.repo.staged word.now) }
{
    match RepoPath::read(alloc, word) {
        Ok(path) => Ok(store.is_staged(&path)),
        Err(PathFault::OutOfMemory) => Err(OutOfMemory),
        Err(_) => Ok(false),
    }
}

// The paths, and those of the staged files from an index on that begin so. The paths of all files from there
// on aren't less than the beginning.
fn with_below<S: Alter>(
    store: &Store<S>,
    first: usize,
    beginning: &str,
    named: NamedPaths,
) -> Result<NamedPaths, OutOfMemory>
    requires { AreFrom beginning.now (drop first store.now.kept.repo.staged) }
    ensures { IfOk result (λ more. more
        ≡ with_paths named (staged_beginning (drop first store.now.kept.repo.staged) beginning.now)) }
{
    let mut named = named;
    'files: for index in first..usize::MAX {
        match path_below_at(store, index, beginning) {
            Some(path) => named = named.with(path)?,
            None => return Ok(named),
        }
    }
    // No memory holds so many files.
    Err(OutOfMemory)
}

// The index of the first staged file whose path isn't less than the text. The paths are in rising order.
fn first_from<S: Alter>(store: &Store<S>, text: &str) -> Result<usize, OutOfMemory>
    ensures before { IfOk result (λ first. AreBefore text.now (take first store.now.kept.repo.staged)) }
    ensures others { IfOk result (λ first. AreFrom text.now (drop first store.now.kept.repo.staged)) }
{
    let (mut low, mut high) = (0, usize::MAX);
    'halves: while low < high {
        let middle = low + (high - low) / 2;
        if is_before_at(store, middle, text) {
            low = middle + 1;
        } else {
            high = middle;
        }
    }
    if high == usize::MAX {
        // No memory holds so many files.
        return Err(OutOfMemory);
    }
    Ok(low)
}

// Whether there is a staged file at an index whose path is less than the text.
fn is_before_at<S: Alter>(store: &Store<S>, index: usize, text: &str) -> bool
    ensures test { result ≡ is_before_at store.now.kept.repo.staged index text.now }
    ensures rising { IsRising store.now.kept.repo.staged }
{
    match store.staged_file(index) {
        Some(file) => file.path.as_str().cmp(text) == Ordering::Less,
        None => false,
    }
}

// The path of the staged file at an index, if it begins so.
fn path_below_at<'s, S: Alter>(
    store: &'s Store<S>,
    index: usize,
    beginning: &str,
) -> Option<&'s str>
    ensures path { option_copied result ≡ path_below_at store.entry.now.kept.repo.staged index beginning.now }
    ensures rising { IsRising store.entry.now.kept.repo.staged }
{
    match store.staged_file(index) {
        Some(file) => path_if_below(file.path, beginning),
        None => None,
    }
}

fn path_if_below<'p>(path: &'p RepoPath, beginning: &str) -> Option<&'p str>
    ensures { option_copied result
        ≡ (if path_begins_with beginning.now path.entry.now then Some path.entry.now else None) }
{
    if begins_with(path.as_str(), beginning) {
        Some(path.as_str())
    } else {
        None
    }
}
