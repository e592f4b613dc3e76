//! The texts that follow the lists of commands and values in the help: examples, exit statuses, and each
//! refusal with what to do.
//!
//! `docs/REFERENCE.md` holds the same tables, and `tests/reference.py` compares the two.

/// At the end of the program's help.
pub(crate) const PROGRAM_HELP: &str = "\
Without words, the configuration is read from standard input, and its hooks run on
no files. hookhost try --help explains what that refuses.

A repository lies in .hookhost of the current folder: init makes it, and all
commands but try, check and explain work on it. In a repository of Git the script
hookhost-git runs the hooks of each commit: hookhost-git --help says how.

Examples:
  hookhost try .pre-commit-config.yaml README.md src/main.c
  hookhost init
  hookhost add README.md
  hookhost status

Exit status:
   0  every hook passed or was skipped, or the command did what it says
   1  a hook failed, or explain found a fault
   2  the words are wrong, or ask for help
   3  something was refused: standard error says what

hookhost COMMAND --help explains what that command refuses.";

/// At the end of the help of `try`.
pub(crate) const TRY_HELP: &str = "\
Hooks of the stage pre-commit are run in their order, on the files that each
selects. The commands of system and script hooks run in .hookhost/scratch of the
current folder, or in folders next to it, each over copies of all named files. No
other file is written, and at the end these folders are removed. The report goes to
standard output.

Several commands run at the same time: as many as there are processors, or at most N
with --jobs=N. If one of them changes files, those after it are run again, so the
report is the same as with --jobs=1. Those of a hook with require_serial: true run
alone.

Example:
  hookhost try .pre-commit-config.yaml README.md src/main.c

Exit status:
   0  every hook passed or was skipped
   1  a hook failed
   2  the words are wrong, or ask for help
   3  something was refused: standard error says what

'hookhost: cannot use WORD' says that CONFIG or a PATH can't be read, or that a PATH
isn't allowed or its file has more than 16 MiB. A PATH is relative, without empty
parts and . or .., and not below .git. Everything else is reported as
'hookhost: refused: NUMBER NAME':
   1 Read         standard input, read if there are no words, gave an error
                  try again
   2 Config       the text is no configuration, or has more than 1 MiB
                  mend it: hookhost explain CONFIG says what is wrong
   3 Write        standard output took no more
                  see what reads it; a part of the report may have gone out
   4 OutOfMemory  memory was refused
                  free some memory, and run it again
   5 Spent        no more children can be counted
                  run it again: each run counts from 0";

/// At the end of the help of `check`.
pub(crate) const CHECK_HELP: &str = "\
Nothing is run. The hooks of all repositories and stages are counted. Each key that
hookhost doesn't know is printed, a line each.

Example:
  hookhost check

Exit status:
   0  the configuration was taken
   2  the words are wrong, or ask for help
   3  something was refused: standard error says what

'hookhost: cannot use .pre-commit-config.yaml' says that the file can't be read,
'hookhost: refused: 3 Write' that standard output took no more, and
'hookhost: refused: 4 OutOfMemory' that memory was refused before the file was read.
Everything else is reported as 'hookhost: refused: NUMBER NAME':
   1 Yaml         the text isn't in the profile of YAML that is read
                  write it in that of docs/REFERENCE.md
   2 Shape        a value is of another kind than its key asks for
                  see the kinds of the keys in docs/REFERENCE.md
   3 MissingKey   a required key isn't there
                  add repos, repo, hooks, id, name, language or entry
   4 BadStage     a text in stages or default_stages names no stage
                  name one of pre-commit's stages
   5 BadLanguage  a language is none of system, script, fail, pygrep
                  choose one of these
   6 RemoteRepo   a repo isn't local
                  write its hooks under repo: local
   7 BadPattern   regex doesn't take a pattern, or the entry of a pygrep hook
                  do without lookaround and back references, or make it shorter
   8 BadEntry     the entry of a system or script hook can't be cut into words
                  close its quotes, and end it with no backslash
   9 BadArgs      a pygrep hook has an argument that isn't known
                  give it -i, --ignore-case, --multiline or --negate
  10 Unsupported  a log_file or additional_dependencies isn't empty
                  empty it: no output is kept, and nothing is installed
  11 TooMany      there are more than 500 hooks
                  leave some out
  12 OutOfMemory  memory was refused
                  free some memory, and run it again";

/// At the end of the help of `explain`.
pub(crate) const EXPLAIN_HELP: &str = "\
Nothing is run, and no repository is needed. If the configuration is refused, each
fault is printed: its line, hook, key and value, what is wanted, and the word that
may have been meant. Below that is the line itself, with a mark under the place. If
the configuration is taken, these are printed: the hooks of each stage and what each
runs, their files and stages, the ignored keys, the hooks that never run here, those
that run at all four stages of a commit, and warnings.

It can't see that a command looks at the clock, the network, git, the environment or
a file that none of its words names: hookhost run --fresh shows that.

Examples:
  hookhost explain
  hookhost explain templates/hooks.yaml
  git show HEAD:.pre-commit-config.yaml | hookhost explain -

Exit status:
   0  the configuration was taken
   1  it was refused: standard output says why
   2  the words are wrong, or ask for help
   3  something was refused: standard error says what

'hookhost: cannot use FILE' says that the file can't be read,
'hookhost: refused: 3 Write' that standard output took no more, and
'hookhost: refused: 4 OutOfMemory' that memory was refused.";
