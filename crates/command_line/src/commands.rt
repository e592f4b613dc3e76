//! The commands as `clap` takes them, each with its values and its help.
//!
//! The contracts cite `specs/CommandLine.antt`.

ghost use Rattle.std.specs.Prelude.{◌≡◌, ◌∷◌, IfOk, [], codes, false};
ghost use Rattle.clap.specs.Words.{app_of, new_app, new_rule, rule_of};
ghost use Rattle.clap.specs.declared.builder.Command.TheViews.{out-Command as fields_of};
ghost use Rattle.command_line.specs.CommandLine.{accept_app, add_app, cat_app, check_app, chmod_rule, color_rule, commit_app, commit_rule, explain_app, fixes_app, flag_rule, forget_app, hook_app, hook_with_options_app, hookhost_app, hookhost_base, init_app, jobs_rule, limit_rule, log_app, memory_app, message_rule, only_rule, optional_words_rule, paths_from_rule, remove_app, run_app, run_files_app, run_files_with_options_app, run_with_options_app, show_app, stage_rule, status_app, try_app, with_choice, with_commands, word_rule, words_rule};

use crate::help::{CHECK_HELP, EXPLAIN_HELP, PROGRAM_HELP, TRY_HELP};
use crate::help_length::HelpLength;
use crate::repository_help::{
    ACCEPT_HELP, ADD_HELP, CAT_HELP, COMMIT_HELP, FIXES_HELP, FORGET_HELP, HOOK_HELP, INIT_HELP,
    LOG_HELP, MEMORY_HELP, REMOVE_HELP, RUN_FILES_HELP, RUN_HELP, SHOW_HELP, STATUS_HELP,
};
use crate::version::VERSION;
use clap::{Arg, ArgAction, Command};
use std::alloc::{AllocError, Global};

const RUN_USAGE: &str =
    "hookhost run [--all-files] [--hook-stage=<STAGE>] [--fresh] [--cautious] [--verbose] [--color=<WHEN>] [--jobs=<N>] [ID]";

const RUN_FILES_USAGE: &str =
    "hookhost run-files [--only=<ID>] [--hook-stage=<STAGE>] [--fresh] [--cautious] [--verbose] [--color=<WHEN>] [--jobs=<N>] (<PATH>... | --paths-from=<FILE>)";

const CAUTIOUS_HELP: &str =
    "Counts every file as seen by a hook that doesn't say which, and takes no failure from the cache";

/// The program without its name, with all its commands.
pub(crate) fn hookhost<'a>(alloc: Global, help: HelpLength) -> Result<Command<'a>, AllocError>
    ensures { IfOk result (λ command. app_of command ≡ hookhost_app) }
{
    let program = with_configurations(alloc, help, program(alloc, help))?;
    let program = with_staging(alloc, help, program)?;
    let program = with_staged_files(alloc, help, program)?;
    let program = with_runs(alloc, help, program)?;
    let program = with_fixes(alloc, help, program)?;
    let program = with_commits(alloc, help, program)?;
    with_answers(alloc, help, program)
}

fn program<'a>(alloc: Global, help: HelpLength) -> Command<'a>
    ensures { app_of result ≡ hookhost_base }
{
    Command::new(alloc, "hookhost")
        .about("Runs the hooks of a pre-commit configuration, and keeps a small repository")
        .version(VERSION)
        .after_help(help.of(PROGRAM_HELP))
        .no_binary_name(true)
        .disable_help_subcommand(true)
        .subcommand_required(true)
}

fn with_configurations<'a>(
    alloc: Global,
    help: HelpLength,
    program: Command<'a>,
) -> Result<Command<'a>, AllocError>
    ensures { IfOk result (λ command. app_of command
        ≡ with_commands (app_of program.entry) (init_app ∷ try_app ∷ check_app ∷ explain_app ∷ [])) }
{
    let program = program.subcommand(init_command(alloc, help))?;
    with_readings(alloc, help, program)
}

// The commands that need no repository.
fn with_readings<'a>(
    alloc: Global,
    help: HelpLength,
    program: Command<'a>,
) -> Result<Command<'a>, AllocError>
    ensures { IfOk result (λ command. app_of command
        ≡ with_commands (app_of program.entry) (try_app ∷ check_app ∷ explain_app ∷ [])) }
{
    program
        .subcommand(try_command(alloc, help)?)?
        .subcommand(check_command(alloc, help))?
        .subcommand(explain_command(alloc, help)?)
}

fn with_staging<'a>(
    alloc: Global,
    help: HelpLength,
    program: Command<'a>,
) -> Result<Command<'a>, AllocError>
    ensures { IfOk result (λ command. app_of command ≡ with_commands (app_of program.entry) (add_app ∷ remove_app ∷ [])) }
{
    program
        .subcommand(add_command(alloc, help)?)?
        .subcommand(remove_command(alloc, help)?)
}

fn with_staged_files<'a>(
    alloc: Global,
    help: HelpLength,
    program: Command<'a>,
) -> Result<Command<'a>, AllocError>
    ensures { IfOk result (λ command. app_of command ≡ with_commands (app_of program.entry) (status_app ∷ cat_app ∷ [])) }
{
    program
        .subcommand(status_command(alloc, help))?
        .subcommand(cat_command(alloc, help)?)
}

fn with_runs<'a>(
    alloc: Global,
    help: HelpLength,
    program: Command<'a>,
) -> Result<Command<'a>, AllocError>
    ensures { IfOk result (λ command. app_of command
        ≡ with_commands (app_of program.entry) (run_app ∷ run_files_app ∷ hook_app ∷ [])) }
{
    program
        .subcommand(run_command(alloc, help)?)?
        .subcommand(run_files_command(alloc, help)?)?
        .subcommand(hook_command(alloc, help)?)
}

fn with_fixes<'a>(
    alloc: Global,
    help: HelpLength,
    program: Command<'a>,
) -> Result<Command<'a>, AllocError>
    ensures { IfOk result (λ command. app_of command
        ≡ with_commands (app_of program.entry) (fixes_app ∷ accept_app ∷ [])) }
{
    program
        .subcommand(fixes_command(alloc, help))?
        .subcommand(accept_command(alloc, help))
}

fn with_commits<'a>(
    alloc: Global,
    help: HelpLength,
    program: Command<'a>,
) -> Result<Command<'a>, AllocError>
    ensures { IfOk result (λ command. app_of command
        ≡ with_commands (app_of program.entry) (commit_app ∷ log_app ∷ show_app ∷ [])) }
{
    program
        .subcommand(commit_command(alloc, help)?)?
        .subcommand(log_command(alloc, help))?
        .subcommand(show_command(alloc, help)?)
}

fn with_answers<'a>(
    alloc: Global,
    help: HelpLength,
    program: Command<'a>,
) -> Result<Command<'a>, AllocError>
    ensures { IfOk result (λ command. app_of command
        ≡ with_commands (app_of program.entry) (memory_app ∷ forget_app ∷ [])) }
{
    program
        .subcommand(memory_command(alloc, help)?)?
        .subcommand(forget_command(alloc, help))
}

fn init_command<'a>(alloc: Global, help: HelpLength) -> Command<'a>
    ensures app { app_of result ≡ init_app }
    ensures local { (fields_of result).has_globals ≡ false }
{
    command(
        alloc,
        "init",
        "Makes a new repository in the current folder",
        "hookhost init",
        help.of(INIT_HELP),
    )
}

/// `try [--color=WHEN] [--jobs=N] CONFIG PATH..`.
pub(crate) fn try_command<'a>(alloc: Global, help: HelpLength) -> Result<Command<'a>, AllocError>
    ensures app { IfOk result (λ command. app_of command ≡ try_app) }
    ensures local { IfOk result (λ command. (fields_of command).has_globals ≡ false) }
{
    command(
        alloc,
        "try",
        "Runs the hooks of a configuration on files, and prints the report",
        "hookhost try [--color=<WHEN>] [--jobs=<N>] <CONFIG> <PATH>...",
        help.of(TRY_HELP),
    )
    .arg(color(alloc))?
    .arg(jobs(alloc))?
    .arg(word(
        alloc,
        "CONFIG",
        "The configuration, as a .pre-commit-config.yaml",
    ))?
    .arg(words(alloc, "PATH", "The files to run the hooks on"))
}

fn check_command<'a>(alloc: Global, help: HelpLength) -> Command<'a>
    ensures app { app_of result ≡ check_app }
    ensures local { (fields_of result).has_globals ≡ false }
{
    command(
        alloc,
        "check",
        "Prints how many hooks .pre-commit-config.yaml has, and its ignored keys",
        "hookhost check",
        help.of(CHECK_HELP),
    )
}

fn explain_command<'a>(alloc: Global, help: HelpLength) -> Result<Command<'a>, AllocError>
    ensures app { IfOk result (λ command. app_of command ≡ explain_app) }
    ensures local { IfOk result (λ command. (fields_of command).has_globals ≡ false) }
{
    command(
        alloc,
        "explain",
        "Says why a configuration is refused, or what its hooks will do",
        "hookhost explain [FILE]",
        help.of(EXPLAIN_HELP),
    )
    .arg(optional_word(
        alloc,
        "FILE",
        "The configuration, - for standard input; without it .pre-commit-config.yaml",
    ))
}

/// `add [--chmod=MODE] [--paths-from=FILE] [PATH..]`.
pub(crate) fn add_command<'a>(alloc: Global, help: HelpLength) -> Result<Command<'a>, AllocError>
    ensures app { IfOk result (λ command. app_of command ≡ add_app) }
    ensures local { IfOk result (λ command. (fields_of command).has_globals ≡ false) }
{
    command(
        alloc,
        "add",
        "Stages files of the current folder",
        "hookhost add [--chmod=+x] (<PATH>... | --paths-from=<FILE>)",
        help.of(ADD_HELP),
    )
    .arg(chmod(alloc))?
    .arg(paths_from(alloc))?
    .arg(optional_words(
        alloc,
        "PATH",
        "The files, each of which is staged at this path, and folders of files",
    ))
}

/// `rm [--paths-from=FILE] [PATH..]`.
pub(crate) fn remove_command<'a>(alloc: Global, help: HelpLength) -> Result<Command<'a>, AllocError>
    ensures app { IfOk result (λ command. app_of command ≡ remove_app) }
    ensures local { IfOk result (λ command. (fields_of command).has_globals ≡ false) }
{
    command(
        alloc,
        "rm",
        "Takes paths out of the staged files",
        "hookhost rm (<PATH>... | --paths-from=<FILE>)",
        help.of(REMOVE_HELP),
    )
    .arg(paths_from(alloc))?
    .arg(optional_words(
        alloc,
        "PATH",
        "The paths of staged files, and folders of staged files",
    ))
}

fn status_command<'a>(alloc: Global, help: HelpLength) -> Command<'a>
    ensures app { app_of result ≡ status_app }
    ensures local { (fields_of result).has_globals ≡ false }
{
    command(
        alloc,
        "status",
        "Prints which staged files differ from those of the last commit",
        "hookhost status",
        help.of(STATUS_HELP),
    )
}

/// `run [--all-files] [--hook-stage=STAGE] [--fresh] [--cautious] [--verbose] [--color=WHEN] [--jobs=N] [ID]`.
pub(crate) fn run_command<'a>(alloc: Global, help: HelpLength) -> Result<Command<'a>, AllocError>
    ensures app { IfOk result (λ command. app_of command ≡ run_app) }
    ensures local { IfOk result (λ command. (fields_of command).has_globals ≡ false) }
{
    run_with_options(alloc, help)?.arg(optional_word(
        alloc,
        "ID",
        "The id or alias of the hooks to run; without it all of the stage",
    ))
}

// `run` with its options alone.
fn run_with_options<'a>(alloc: Global, help: HelpLength) -> Result<Command<'a>, AllocError>
    ensures app { IfOk result (λ command. app_of command ≡ run_with_options_app) }
    ensures local { IfOk result (λ command. (fields_of command).has_globals ≡ false) }
{
    let command = command(
        alloc,
        "run",
        "Runs the hooks of the staged configuration on staged files, and prints the report",
        RUN_USAGE,
        help.of(RUN_HELP),
    )
    .arg(flag(
        alloc,
        "all-files",
        "Takes all staged files, not only those that differ from the last commit",
    ))?
    .arg(stage(alloc))?
    .arg(fresh(alloc))?;
    with_choice(alloc, command)
}

// The command with `--cautious`, `--verbose`, `--color` and `--jobs`.
fn with_choice<'a>(alloc: Global, command: Command<'a>) -> Result<Command<'a>, AllocError>
    ensures app { IfOk result (λ made. app_of made ≡ with_choice (app_of command.entry)) }
    ensures local { IfOk result (λ made. (fields_of made).has_globals ≡ (fields_of command.entry).has_globals) }
{
    command
        .arg(flag(alloc, "cautious", CAUTIOUS_HELP))?
        .arg(flag(
            alloc,
            "verbose",
            "Prints the output of every hook, and how many results came from the cache",
        ))?
        .arg(color(alloc))?
        .arg(jobs(alloc))
}

/// `run-files [--only=ID] [--hook-stage=STAGE] [--fresh] [--cautious] [--verbose] [--color=WHEN]
/// [--jobs=N] [--paths-from=FILE] [PATH..]`.
pub(crate) fn run_files_command<'a>(
    alloc: Global,
    help: HelpLength,
) -> Result<Command<'a>, AllocError>
    ensures app { IfOk result (λ command. app_of command ≡ run_files_app) }
    ensures local { IfOk result (λ command. (fields_of command).has_globals ≡ false) }
{
    run_files_with_options(alloc, help)?
        .arg(paths_from(alloc))?
        .arg(optional_words(alloc, "PATH", "The staged files to run the hooks on"))
}

// `run-files` with its options alone.
fn run_files_with_options<'a>(alloc: Global, help: HelpLength) -> Result<Command<'a>, AllocError>
    ensures app { IfOk result (λ command. app_of command ≡ run_files_with_options_app) }
    ensures local { IfOk result (λ command. (fields_of command).has_globals ≡ false) }
{
    let command = command(
        alloc,
        "run-files",
        "Runs the hooks of the staged configuration on the named staged files",
        RUN_FILES_USAGE,
        help.of(RUN_FILES_HELP),
    )
    .arg(only(alloc))?
    .arg(stage(alloc))?
    .arg(fresh(alloc))?;
    with_choice(alloc, command)
}

/// `hook [--fresh] [--cautious] [--color=WHEN] [--jobs=N] STAGE [FILE]`.
pub(crate) fn hook_command<'a>(alloc: Global, help: HelpLength) -> Result<Command<'a>, AllocError>
    ensures app { IfOk result (λ command. app_of command ≡ hook_app) }
    ensures local { IfOk result (λ command. (fields_of command).has_globals ≡ false) }
{
    hook_with_options(alloc, help)?
        .arg(word(
            alloc,
            "STAGE",
            "The stage: pre-commit, prepare-commit-msg, commit-msg or post-commit",
        ))?
        .arg(optional_word(
            alloc,
            "FILE",
            "The file with the commit's message, for prepare-commit-msg and commit-msg",
        ))
}

// `hook` with its options alone.
fn hook_with_options<'a>(alloc: Global, help: HelpLength) -> Result<Command<'a>, AllocError>
    ensures app { IfOk result (λ command. app_of command ≡ hook_with_options_app) }
    ensures local { IfOk result (λ command. (fields_of command).has_globals ≡ false) }
{
    command(
        alloc,
        "hook",
        "Runs the hooks of one stage of a commit that another program makes",
        "hookhost hook [--fresh] [--cautious] [--color=<WHEN>] [--jobs=<N>] <STAGE> [FILE]",
        help.of(HOOK_HELP),
    )
    .arg(fresh(alloc))?
    .arg(flag(alloc, "cautious", CAUTIOUS_HELP))?
    .arg(color(alloc))?
    .arg(jobs(alloc))
}

fn fixes_command<'a>(alloc: Global, help: HelpLength) -> Command<'a>
    ensures app { app_of result ≡ fixes_app }
    ensures local { (fields_of result).has_globals ≡ false }
{
    command(
        alloc,
        "fixes",
        "Prints the fixes, which accept applies to the staged files",
        "hookhost fixes",
        help.of(FIXES_HELP),
    )
}

fn accept_command<'a>(alloc: Global, help: HelpLength) -> Command<'a>
    ensures app { app_of result ≡ accept_app }
    ensures local { (fields_of result).has_globals ≡ false }
{
    command(
        alloc,
        "accept",
        "Applies the fixes to the staged files, and prints how many there were",
        "hookhost accept",
        help.of(ACCEPT_HELP),
    )
}

/// `commit [--no-verify] [--color=WHEN] [--jobs=N] -m TEXT`.
pub(crate) fn commit_command<'a>(alloc: Global, help: HelpLength) -> Result<Command<'a>, AllocError>
    ensures app { IfOk result (λ command. app_of command ≡ commit_app) }
    ensures local { IfOk result (λ command. (fields_of command).has_globals ≡ false) }
{
    command(
        alloc,
        "commit",
        "Commits the staged files, through the hooks of a commit",
        "hookhost commit [--no-verify] [--color=<WHEN>] [--jobs=<N>] -m <TEXT>",
        help.of(COMMIT_HELP),
    )
    .arg(flag(
        alloc,
        "no-verify",
        "Leaves out the hooks of pre-commit and commit-msg",
    ))?
    .arg(color(alloc))?
    .arg(jobs(alloc))?
    .arg(message(alloc))
}

/// `cat [--fixed] [--commit=N] PATH`.
pub(crate) fn cat_command<'a>(alloc: Global, help: HelpLength) -> Result<Command<'a>, AllocError>
    ensures app { IfOk result (λ command. app_of command ≡ cat_app) }
    ensures local { IfOk result (λ command. (fields_of command).has_globals ≡ false) }
{
    command(
        alloc,
        "cat",
        "Prints the bytes of a staged file, of its fix or of a commit's file",
        "hookhost cat [--fixed | --commit=<N>] <PATH>",
        help.of(CAT_HELP),
    )
    .arg(flag(
        alloc,
        "fixed",
        "Prints the bytes that accept would stage in place of them",
    ))?
    .arg(commit_number(alloc))?
    .arg(word(alloc, "PATH", "The path of the file"))
}

fn log_command<'a>(alloc: Global, help: HelpLength) -> Command<'a>
    ensures app { app_of result ≡ log_app }
    ensures local { (fields_of result).has_globals ≡ false }
{
    command(
        alloc,
        "log",
        "Prints the commits, the newest first",
        "hookhost log",
        help.of(LOG_HELP),
    )
}

/// `show N`.
pub(crate) fn show_command<'a>(alloc: Global, help: HelpLength) -> Result<Command<'a>, AllocError>
    ensures app { IfOk result (λ command. app_of command ≡ show_app) }
    ensures local { IfOk result (λ command. (fields_of command).has_globals ≡ false) }
{
    command(
        alloc,
        "show",
        "Prints a commit's message and its paths",
        "hookhost show <N>",
        help.of(SHOW_HELP),
    )
    .arg(word(alloc, "N", "The commit's number"))
}

/// `memory [--limit=N]`.
pub(crate) fn memory_command<'a>(alloc: Global, help: HelpLength) -> Result<Command<'a>, AllocError>
    ensures app { IfOk result (λ command. app_of command ≡ memory_app) }
    ensures local { IfOk result (λ command. (fields_of command).has_globals ≡ false) }
{
    command(
        alloc,
        "memory",
        "Prints how many results of hooks' commands are cached, or limits them",
        "hookhost memory [--limit=<N>]",
        help.of(MEMORY_HELP),
    )
    .arg(limit(alloc))
}

fn forget_command<'a>(alloc: Global, help: HelpLength) -> Command<'a>
    ensures app { app_of result ≡ forget_app }
    ensures local { (fields_of result).has_globals ≡ false }
{
    command(
        alloc,
        "forget",
        "Drops all cached results, and prints how many there were",
        "hookhost forget",
        help.of(FORGET_HELP),
    )
}

// A command without values: its name, one line about it, its usage, and the end of its help.
fn command<'a>(
    alloc: Global,
    name: &'a str,
    about: &'a str,
    usage: &'a str,
    help: &'a str,
) -> Command<'a>
    ensures app { app_of result ≡ new_app name.entry.now }
    ensures local { (fields_of result).has_globals ≡ false }
{
    Command::new(alloc, name)
        .about(about)
        .override_usage(usage)
        .after_help(help)
}

// A value of one word.
fn word<'a>(alloc: Global, id: &'a str, help: &'a str) -> Arg<'a>
    ensures rule { rule_of result ≡ word_rule id.entry.now }
    ensures local { result.global ≡ false }
{
    Arg::new(alloc, id).required(true).help(help)
}

// A value of one word, which may be left out.
fn optional_word<'a>(alloc: Global, id: &'a str, help: &'a str) -> Arg<'a>
    ensures rule { rule_of result ≡ new_rule id.entry.now }
    ensures local { result.global ≡ false }
{
    Arg::new(alloc, id).help(help)
}

// A value of one word or more.
fn words<'a>(alloc: Global, id: &'a str, help: &'a str) -> Arg<'a>
    ensures rule { rule_of result ≡ words_rule id.entry.now }
    ensures local { result.global ≡ false }
{
    Arg::new(alloc, id).required(true).num_args(1..).help(help)
}

// A value of any number of words.
fn optional_words<'a>(alloc: Global, id: &'a str, help: &'a str) -> Arg<'a>
    ensures rule { rule_of result ≡ optional_words_rule id.entry.now }
    ensures local { result.global ≡ false }
{
    Arg::new(alloc, id).num_args(1..).help(help)
}

fn paths_from<'a>(alloc: Global) -> Arg<'a>
    ensures rule { rule_of result ≡ paths_from_rule }
    ensures local { result.global ≡ false }
{
    Arg::new(alloc, "paths-from")
        .long("paths-from")
        .value_name("FILE")
        .help("A file of paths, each ended by a NUL byte; - is standard input")
}

fn chmod<'a>(alloc: Global) -> Arg<'a>
    ensures rule { rule_of result ≡ chmod_rule }
    ensures local { result.global ≡ false }
{
    Arg::new(alloc, "chmod")
        .long("chmod")
        .value_name("MODE")
        .help("The mode of the files: +x makes each executable")
}

fn commit_number<'a>(alloc: Global) -> Arg<'a>
    ensures rule { rule_of result ≡ commit_rule }
    ensures local { result.global ≡ false }
{
    Arg::new(alloc, "commit")
        .long("commit")
        .value_name("N")
        .help("Prints the bytes in the commit with this number")
}

fn limit<'a>(alloc: Global) -> Arg<'a>
    ensures rule { rule_of result ≡ limit_rule }
    ensures local { result.global ≡ false }
{
    Arg::new(alloc, "limit").long("limit").value_name("N").help(
        "Keeps at most so many cached results from now on: from 1 to 100000",
    )
}

fn flag<'a>(alloc: Global, id: &'a str, help: &'a str) -> Arg<'a>
    ensures rule { rule_of result ≡ flag_rule id.entry.now }
    ensures local { result.global ≡ false }
{
    Arg::new(alloc, id)
        .long(id)
        .action(ArgAction::SetTrue)
        .help(help)
}

fn fresh<'a>(alloc: Global) -> Arg<'a>
    ensures rule { rule_of result ≡ flag_rule (codes "fresh") }
    ensures local { result.global ≡ false }
{
    flag(
        alloc,
        "fresh",
        "Starts every command, also if its result is cached",
    )
}

fn stage<'a>(alloc: Global) -> Arg<'a>
    ensures rule { rule_of result ≡ stage_rule }
    ensures local { result.global ≡ false }
{
    Arg::new(alloc, "hook-stage")
        .long("hook-stage")
        .value_name("STAGE")
        .help("The stage whose hooks are run, pre-commit or manual; without it pre-commit")
}

fn color<'a>(alloc: Global) -> Arg<'a>
    ensures rule { rule_of result ≡ color_rule }
    ensures local { result.global ≡ false }
{
    Arg::new(alloc, "color")
        .long("color")
        .value_name("WHEN")
        .help("Colors how hooks ended: always, never, or auto, at a terminal; without it auto")
}

fn jobs<'a>(alloc: Global) -> Arg<'a>
    ensures rule { rule_of result ≡ jobs_rule }
    ensures local { result.global ≡ false }
{
    Arg::new(alloc, "jobs").long("jobs").value_name("N").help(
        "Runs at most so many commands of hooks at the same time, from 1 to 256",
    )
}

fn only<'a>(alloc: Global) -> Arg<'a>
    ensures rule { rule_of result ≡ only_rule }
    ensures local { result.global ≡ false }
{
    Arg::new(alloc, "only").long("only").value_name("ID").help(
        "The id or alias of the hooks to run; without it all of the stage",
    )
}

fn message<'a>(alloc: Global) -> Arg<'a>
    ensures rule { rule_of result ≡ message_rule }
    ensures local { result.global ≡ false }
{
    Arg::new(alloc, "message")
        .short('m')
        .value_name("TEXT")
        .required(true)
        .help("The message, which hooks may change")
}
