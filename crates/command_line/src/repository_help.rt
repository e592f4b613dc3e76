//! The same texts as in `help.rt`, of the commands on a repository.
//!
//! `docs/REFERENCE.md` holds the same refusals, and `tests/reference.py` compares the two.

// The help of a command that opens the store: what it does with an example, its exit statuses 0 and 1 if they
// are its own, and what it alone refuses.
macro_rules! opening_help {
    ($does:literal, $refuses:literal) => {
        opening_help!($does, "   0  the command did what it says", $refuses)
    };
    ($does:literal, $statuses:literal, $refuses:literal) => {
        concat!(
            $does,
            "

Exit status:
",
            $statuses,
            "
   2  the words are wrong, or ask for help
   3  something was refused: standard error says what

'hookhost: cannot use .hookhost/store.db' says that no store is here, or that it
can't be opened: hookhost init makes one. 'hookhost: cannot use .hookhost/lock' says
that another hookhost works here: wait for it. 'hookhost: standard output was not
taken' says that not all output was written: what was done stays. A store of an
earlier version is converted when it is opened; then no earlier hookhost opens it.
What opening the store refuses is reported as 'hookhost: refused: NUMBER NAME':
   1 NotAStore    the file is no store of a version that this program knows
                  move it away, and make a store by hookhost init
   2 Damaged      the store breaks a rule that every store keeps
                  take it from a backup: nothing here mends it
   3 Sql          the database refused
                  see that the disk can be read and has room
   4 OutOfMemory  memory was refused
                  free some memory, and run it again

What the command itself refuses is reported in the same way:
   1 OutOfMemory  memory was refused
                  free some memory, and run it again
   2 Store N      the store refused, for the cause N of those above
                  do what is said there",
            $refuses
        )
    };
}

/// At the end of the help of `init`.
pub(crate) const INIT_HELP: &str = "\
The store is made as .hookhost/store.db, with nothing staged and no commit. Nothing
else in the folder is touched.

Example:
  hookhost init

Exit status:
   0  the command did what it says
   2  the words are wrong, or ask for help
   3  something was refused: standard error says what

'hookhost: cannot use .hookhost/store.db' says that something is there already: go
on with that store, or move it away. Or it says that the file can't be made: see
whose folder .hookhost is. 'hookhost: cannot use .hookhost/lock' says that another
hookhost works here: wait for it. Everything else is reported as
'hookhost: refused: NUMBER NAME':
   3 Sql          the database refused
                  see that the disk can be read and has room
   4 OutOfMemory  memory was refused
                  free some memory, and run it again";

/// At the end of the help of `add`.
pub(crate) const ADD_HELP: &str = opening_help!(
    "\
The bytes of each file are staged as they are now, of all files or of none. A file
that is staged already keeps its mode, and a new one isn't executable, unless
--chmod=+x is given. A folder means the files below it, in the order of their paths.
No link is followed, and .git and the .hookhost of the current folder are left out.
Files that .gitignore names are staged too: no .gitignore is read.

With --paths-from the paths are read from a file, or with - from standard input,
each ended by a NUL byte, as git ls-files -z writes them.

Examples:
  hookhost add README.md
  hookhost add --chmod=+x tools/build.sh
  hookhost add .pre-commit-config.yaml src
  git ls-files -z | hookhost add --paths-from=-",
    "
   3 BadPath N    PATH isn't allowed; docs/REFERENCE.md has the number N
                  name a path inside the folder, and none below .git
   5 TooLarge     the file has more than 16 MiB
                  make it smaller
   6 TooMany      more than 100,000 files would be staged, or 8 MiB of paths
                  take files out, by hookhost rm
  13 Collision    other contents are kept under the same digest
                  this store can't keep these contents
  15 Clash        a staged path is a folder of PATH, or lies in it
                  take the other path out first, by hookhost rm

If there are several files, a line 'hookhost: at PATH' follows, with the first file
that is refused. 'hookhost: cannot use PATH' says that the file or folder is missing
or can't be read: name one that can."
);

/// At the end of the help of `rm`.
pub(crate) const REMOVE_HELP: &str = opening_help!(
    "\
The paths are unstaged, all or none. The files in the folder stay, and so do the
commits. A path that isn't staged, but is a folder of staged files, means all of
these.

With --paths-from the paths are read from a file, or with - from standard input,
each ended by a NUL byte, as git ls-files -z writes them.

Examples:
  hookhost rm README.md
  hookhost rm src docs/old.md",
    "
   3 BadPath N    PATH isn't allowed; docs/REFERENCE.md has the number N
                  name a path inside the folder, and none below .git
   4 NotStaged    nothing is staged at PATH
                  stage it first, by hookhost add

If there are several paths, a line 'hookhost: at PATH' follows, with the first path
that is refused. 'hookhost: cannot use FILE' says that the file of paths is missing
or can't be read: name one that can."
);

/// At the end of the help of `status`.
pub(crate) const STATUS_HELP: &str = opening_help!(
    "\
Each line is A PATH for a file that was added, M PATH for one whose bytes or mode
differ, or D PATH for one that was unstaged, in the order of the paths. Before the
first commit every staged file is an added one. The files in the folder aren't read.

Example:
  hookhost status",
    ""
);

/// At the end of the help of `run`.
pub(crate) const RUN_HELP: &str = opening_help!(
    "\
The hooks of the staged .pre-commit-config.yaml run in its order. Each gets the
staged files that it selects of those that differ from the last commit, or with
--all-files of all. The variable SKIP of the environment names hooks to skip, by ids
or aliases with commas between them. What the hooks change isn't staged: these are
the fixes, which hookhost fixes lists and hookhost accept applies.

The commands of hooks run in .hookhost/scratch, over copies of the staged files. The
result of a command is cached in the repository: as long as it is, no run and no
commit starts the command again on the same files. With --fresh each is started, and
a line unsteady: ID names each hook whose result differs from the cached one.
hookhost memory --help says when that is of use, and how long a result is kept.

With --cautious a hook counts as seeing every file of the tree, so a change of any
file starts its command again. This leaves out hooks that say by x_reads which files
their command reads, and commands of known tools. Most of these get at most 100
names each, so that their results are cached in parts. No failure is then taken from
the cache. With --verbose the output of every hook is printed, and after the report
'answered from the cache: N', how many commands weren't started.

Several commands run at the same time: as many as there are processors, or at most N
with --jobs=N. If one of them changes files, those after it are run again, so the
report is the same as with --jobs=1. Those of a hook with require_serial: true run
alone, and so do all with --verbose.

Examples:
  hookhost run
  hookhost run --cautious --verbose
  SKIP=slow,names hookhost run --all-files
  hookhost run names --hook-stage=manual",
    "   0  every hook passed or was skipped
   1  a hook failed",
    "
   7 NoConfig     no .pre-commit-config.yaml is staged
                  stage one, by hookhost add
   8 BadConfig N  the staged configuration can't be read, for the cause N
                  mend and stage it: hookhost explain says what is wrong
   9 NoSuchHook   no hook of the stage has the id or alias ID
                  name one of the staged configuration
  13 Collision    other contents are kept under the same digest
                  this store can't keep these contents
  14 Spent        no more children can be counted
                  run it again: each run counts from 0"
);

/// At the end of the help of `run-files`.
pub(crate) const RUN_FILES_HELP: &str = opening_help!(
    "\
Like hookhost run, whose help says more, but on the named files alone. Each has to
be staged, but needn't differ from the last commit. With --only=ID just the hooks of
this id or alias run.

With --paths-from the paths are read from a file, or with - from standard input,
each ended by a NUL byte, as git diff --name-only -z writes them.

Examples:
  hookhost run-files README.md src/main.c
  git diff --name-only -z | hookhost run-files --paths-from=-",
    "   0  every hook passed or was skipped
   1  a hook failed",
    "
   3 BadPath N    PATH isn't allowed; docs/REFERENCE.md has the number N
                  name a path inside the folder, and none below .git
   4 NotStaged    nothing is staged at PATH
                  stage it first, by hookhost add
   7 NoConfig     no .pre-commit-config.yaml is staged
                  stage one, by hookhost add
   8 BadConfig N  the staged configuration can't be read, for the cause N
                  mend and stage it: hookhost explain says what is wrong
   9 NoSuchHook   no hook of the stage has the id or alias ID
                  name one of the staged configuration
  13 Collision    other contents are kept under the same digest
                  this store can't keep these contents
  14 Spent        no more children can be counted
                  run it again: each run counts from 0

'hookhost: cannot use FILE' says that the file of paths is missing or can't be read:
name one that can."
);

/// At the end of the help of `hook`.
pub(crate) const HOOK_HELP: &str = opening_help!(
    "\
For a program that makes the commits itself, such as Git. The hooks of STAGE in the
staged configuration run on the staged files, and no commit is made. The variable
SKIP, --fresh and --cautious are as in hookhost run, whose help says more. For
pre-commit --jobs=N is too: commands of the other stages run one at a time.

Those of pre-commit run as by hookhost run. Those of post-commit get no names of
files, so one without always_run is skipped. What hooks of these two stages change
are the fixes, which hookhost fixes lists.

Those of prepare-commit-msg and commit-msg get the message in FILE as it is, under
the name .git/COMMIT_EDITMSG. If they pass and have changed it, FILE is replaced by
a file with the new message, an empty one if a hook removed it. If one fails, FILE
stays as it is. A hook that changes other files fails, and that is dropped. The
fixes stay, and no line unsteady: ID is printed.

Examples:
  hookhost hook pre-commit
  hookhost hook commit-msg .git/COMMIT_EDITMSG",
    "   0  every hook passed or was skipped
   1  a hook failed",
    "
   5 TooLarge     the message has more than 16 MiB
                  make it shorter
   7 NoConfig     no .pre-commit-config.yaml is staged
                  stage one, by hookhost add
   8 BadConfig N  the staged configuration can't be read, for the cause N
                  mend and stage it: hookhost explain says what is wrong
  13 Collision    other contents are kept under the same digest
                  this store can't keep these contents
  14 Spent        no more children can be counted
                  run it again: each run counts from 0

'hookhost: cannot use FILE' says that FILE is no file that can be read and replaced:
name the one with the message. After hooks that changed the message it says that
FILE still has the old one."
);

/// At the end of the help of `fixes`.
pub(crate) const FIXES_HELP: &str = opening_help!(
    "\
Each line is M PATH for a staged file that would get other bytes, or D PATH for one
that would be unstaged, in the order of the paths. Without fixes nothing is printed.
They are dropped once a file is staged or unstaged, or a commit is made.

Example:
  hookhost fixes",
    ""
);

/// At the end of the help of `accept`.
pub(crate) const ACCEPT_HELP: &str = opening_help!(
    "\
Each staged file that hookhost fixes lists gets its other bytes and keeps its mode,
or is unstaged. Then the fixes are dropped. The line accepted: N says how many there
were. The files in the folder aren't touched.

Example:
  hookhost accept",
    "
  11 NoFixes      there are no fixes to accept
                  hookhost fixes lists what could be accepted"
);

/// At the end of the help of `commit`.
pub(crate) const COMMIT_HELP: &str = opening_help!(
    "\
The hooks of pre-commit run as by hookhost run, then those of prepare-commit-msg and
of commit-msg on the message, which they may change. If one fails, nothing is
committed, and what the hooks changed of staged files are the fixes. Otherwise the
staged files are committed with the message that is left. Then the hooks of
post-commit run, whose outcome changes nothing. The reports are printed in this
order, and then commit N, with the number of the commit.

With --no-verify the hooks of pre-commit and commit-msg are left out. Hooks that the
variable SKIP names are skipped, and with --jobs=N at most N commands run at the
same time, as by hookhost run. Blanks at the ends of the message's lines are
removed, and so are empty lines at its start and its end; of several empty lines one
is left. If the hooks of post-commit are stopped, standard error says why, and the
commit stays. If standard output takes no more, standard error says so, and after a
commit also 'hookhost: commit N was made'.

Example:
  hookhost commit -m 'Say hello'",
    "   0  the commit was made
   1  a hook failed, and no commit was made",
    "
   5 TooLarge     the message has more than 16 MiB
                  make it shorter
   6 TooMany      there are 100,000 commits
                  this store can't take one more
   7 NoConfig     no .pre-commit-config.yaml is staged
                  stage one, by hookhost add
   8 BadConfig N  the staged configuration can't be read, for the cause N
                  mend and stage it: hookhost explain says what is wrong
  10 NothingStaged the staged files are those of the last commit
                  stage a change, by hookhost add
  12 EmptyMessage the message is empty after its hooks and without its blanks
                  give one that has words
  13 Collision    other contents are kept under the same digest
                  this store can't keep these contents
  14 Spent        no more children can be counted
                  run it again: each run counts from 0"
);

/// At the end of the help of `cat`.
pub(crate) const CAT_HELP: &str = opening_help!(
    "\
Nothing is added to the bytes. They are those that were staged: the file in the
folder may have changed since. With --fixed they are those that a hook gave to the
file, which accept would stage, and with --commit those of a commit.

Examples:
  hookhost cat README.md
  hookhost cat --fixed README.md > README.md    copy a fix into the folder
  hookhost cat --commit=1 README.md",
    "
   3 BadPath N    PATH isn't allowed; docs/REFERENCE.md has the number N
                  name a path inside the folder, and none below .git
   4 NotStaged    nothing is staged at PATH
                  stage it first, by hookhost add

'hookhost: no fixed bytes of PATH' says that no fix gives bytes to it: see hookhost
fixes. 'hookhost: no commit N' says that no commit has that number, and
'hookhost: no PATH in commit N' that the commit has no such file: hookhost show N
lists its files."
);

/// At the end of the help of `log`.
pub(crate) const LOG_HELP: &str = opening_help!(
    "\
Each line is a commit's number and the first line of its message.

Example:
  hookhost log",
    ""
);

/// At the end of the help of `show`.
pub(crate) const SHOW_HELP: &str = opening_help!(
    "\
The message is followed by an empty line and the paths of the commit's files, one a
line. The number N is one that hookhost log prints.

Example:
  hookhost show 1",
    "

'hookhost: no commit N' says that no commit has that number: hookhost log lists
them."
);

/// At the end of the help of `memory`, which refuses nothing without a limit once the store is open.
pub(crate) const MEMORY_HELP: &str = opening_help!(
    "\
The line remembered: N says how many results are cached.

The result of a hook's command is cached in the repository, for its words and the
files that it has seen. If both are the same, a later run or commit takes the result
from there. What else the command looked at isn't known; docs/REFERENCE.md has a
table of it. Once that has changed, as with another version of a tool, use
hookhost run --fresh. It starts every command again, prints unsteady: ID for each
hook whose results differ, and caches the new results in place of the old ones.

At most 10,000 results are kept, or as many as --limit has set, from 1 to 100000. If
one more comes, the one that no run and no commit has used for longest is dropped.
With --limit=N those beyond N are dropped at once, and the line remembered: N says
how many are left. Without it the command itself refuses nothing.

Examples:
  hookhost memory
  hookhost memory --limit=1000",
    ""
);

/// At the end of the help of `forget`.
pub(crate) const FORGET_HELP: &str = opening_help!(
    "\
All cached results are dropped, and each command is started again once a run or a
commit needs it. The line forgotten: N says how many results there were. The limit
that hookhost memory --limit has set stays. hookhost memory --help says what is
cached.

The commits, the staged files and the fixes stay as they were. So do the contents
that the results name: .hookhost/store.db gets no smaller. To start the commands of
one run again, and to see whose results differ, use hookhost run --fresh instead.

Example:
  hookhost forget",
    ""
);
