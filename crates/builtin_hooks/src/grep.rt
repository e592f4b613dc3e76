//! A pattern with its flags, and what it answers for files.

ghost use Rattle.std.specs.Prelude.{◌≡◌, ◌≢◌, ◌↔◌, IfErr, IfOk, IsSome, false, true, map};
ghost use Rattle.builtin_hooks.specs.GrepAnswer.{grep_answer, status_of_output};
ghost use Rattle.builtin_hooks.specs.GrepFaults.{IsGrepRefusal};
ghost use Rattle.builtin_hooks.specs.Search.{are_known, pattern_of_search, search_of};
ghost use Rattle.builtin_hooks.specs.Searchers.{SearchesFor, search_with};
ghost use Rattle.regex.specs.Bytes.{regex_pattern, regex_source};

use crate::GrepFault;
use crate::flags::{Flags, are_known};
use crate::grep_output::grep_output;
use crate::searcher::Searcher;
use child_port::Answer;
use hook_base::{Bytes, Changes, OutOfMemory, RepoPath, Tree};
use regex::RegexBuilder;
use regex::bytes::Regex;
use std::alloc::Global;
use std::marker::Model;

/// The compiled pattern of a hook of the language `pygrep`, with what its arguments say. Contracts see its
/// text and its flags.
#[derive(Debug, Drop)]
pub struct Grep {
    regex: Regex,
    flags: Flags,
}

impl Model for Grep {
    ghost use Rattle.regex.specs.Bytes.{regex_pattern, regex_source};
    ghost use Rattle.builtin_hooks.specs.Search.{Search};
    ghost use Rattle.builtin_hooks.specs.Searchers.{SearchesFor, search_with};

    ghost Value = { Search };

    ghost view = { λ grep. search_with (regex_source grep.regex) grep.flags };

    ghost invariant = { λ grep. SearchesFor (search_with (regex_source grep.regex) grep.flags) (regex_pattern grep.regex) };
}

impl Grep {
    /// Compiles the pattern of an entry under its arguments (pre-commit.com, "pygrep"):
    ///
    /// - `-i` and `--ignore-case`: letters are found in either case (Python's `re.IGNORECASE`);
    /// - `--multiline`: a file is searched as a whole. `^` and `$` are found at the ends of lines too
    ///   (`re.MULTILINE`), and `.` is a line feed too (`re.DOTALL`);
    /// - `--negate`: the files without a match are asked for.
    ///
    /// They may come in any order, and repeated. Another argument is `BadArg`, whatever the entry is. An
    /// entry that `regex` doesn't take is `NotAPattern`.
    #[tactic(auto, using(crate::proofs::ArgLemmas::known_said, crate::proofs::SearchLemmas::searched_reads))]
    pub fn build(alloc: Global, entry: &str, args: &[&str]) -> Result<Grep, GrepFault>
        ensures built { IfOk result (λ grep. grep ≡ search_of entry.now (map (λ arg. arg.now) args.now)) }
        ensures read { IfOk result (λ grep. IsSome (pattern_of_search grep)) }
        ensures known { IfOk result (λ _. are_known (map (λ arg. arg.now) args.now) ≡ true) }
        ensures bad_arg { IfErr result (λ fault. (fault ≡ GrepFault.BadArg)
            ↔ (are_known (map (λ arg. arg.now) args.now) ≡ false)) }
        ensures refused { IfErr result (λ fault. fault ≢ GrepFault.BadArg
            → IsGrepRefusal (search_of entry.now (map (λ arg. arg.now) args.now)) fault) }
    {
        if !are_known(args) {
            return Err(GrepFault::BadArg);
        }
        let flags = Flags::of(args);
        let regex = built(alloc, entry, flags)?;
        Ok(Grep { regex, flags })
    }

    /// What a hook of this pattern answers for files of the tree, in the order in which they are named. A
    /// file that the tree lacks counts for nothing.
    ///
    /// What the output has depends on the arguments, and each piece ends with a line feed:
    ///
    /// - by default, for each line in which the pattern is found, `PATH:NUMBER:` and the line without the
    ///   carriage returns at its end. A line is searched without its line feed, and numbers begin at 1;
    /// - with `--multiline`, for each file in which the pattern is found, `PATH:NUMBER:`, the whole line in
    ///   which the first match begins, and the match from its first line feed on;
    /// - with `--negate`, the path of each file of which nothing would be printed without it.
    ///
    /// The status is 1 if there is any output, otherwise 0, and nothing changes. `OutOfMemory` if memory is
    /// refused.
    pub fn answer(
        &self,
        alloc: Global,
        files: &[RepoPath],
        tree: &Tree,
    ) -> Result<Answer, OutOfMemory>
        ensures { IfOk result (λ answer. answer ≡ grep_answer self.now files.now tree.now) }
    {
        let mut searcher = self.searcher(alloc)?;
        let output = grep_output(alloc, &mut searcher, files, tree)?;
        Ok(Answer {
            status: status_of(output.as_slice()),
            output: Bytes::from(output),
            changes: Changes::new(alloc),
        })
    }

    fn searcher(&self, alloc: Global) -> Result<Searcher<'_>, OutOfMemory>
        ensures { IfOk result (λ searcher. searcher ≡ self.now) }
    {
        let matcher = self.regex.matcher(alloc)?;
        Ok(Searcher::new(matcher, self.regex.as_str(), self.flags))
    }
}

// The pattern of the entry under the flags.
#[tactic(auto, using(crate::proofs::SearchLemmas::built_searches))]
fn built(alloc: Global, entry: &str, flags: Flags) -> Result<Regex, GrepFault>
    ensures source { IfOk result (λ regex. regex_source regex ≡ entry.now) }
    ensures searches { IfOk result (λ regex. SearchesFor (search_with (regex_source regex) flags) (regex_pattern regex)) }
    ensures known { IfErr result (λ fault. fault ≢ GrepFault.BadArg) }
    ensures refused { IfErr result (IsGrepRefusal (search_with entry.now flags)) }
{
    Ok(
        RegexBuilder::new(entry)
            .case_insensitive(flags.ignore_case)
            .multi_line(flags.multiline)
            .dot_matches_new_line(flags.multiline)
            .build_bytes(alloc)?,
    )
}

// A hook fails if anything is printed.
fn status_of(output: &[u8]) -> u8
    ensures { result ≡ status_of_output output.now }
{
    if output.is_empty() { 0 } else { 1 }
}
