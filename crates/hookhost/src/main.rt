//! The program `hookhost`: its words and files become one call, and the answer becomes printed lines and an
//! exit status.
#![tactic(auto)]

ghost use Rattle.std.specs.Prelude.{◌≡◌};
ghost use Rattle.hookhost.specs.Stops.{status_of_run};

mod build_stamp;
mod colored_report;
mod commands;
mod environment;
mod explain_command;
mod file_tree;
mod files;
mod folder_files;
mod folder_links;
mod git_state;
mod heard_children;
mod hint;
mod hook_call;
mod line_files;
mod message_file;
mod names;
mod obstacle_lines;
mod refusal_hints;
mod runs;
mod shown_report;
mod staged_words;
mod stop;
mod stop_hints;
mod store_call;
mod terminal;
mod tracked_store;
mod undone_fix;
mod unstaged_words;

use build_stamp::{build_line, end_of_program};
use colored_report::report_writer;
use commands::{change, look_up};
use explain_command::explain_file;
use files::{read_configuration, read_tree};
use hint::hint_step;
use hook_base::{Items, Text, Tree};
use hook_cli::{ColorChoice, CommandLine, Standalone, TryFault, check_text, line_of, try_over};
use hook_config::{Config, read_config_with_node};
use next_steps::NextStep;
use obstacle_lines::tell_trouble;
use repository_files::{init, replace_ignore_file};
use runs::{RealChildren, passing_children};
use std::io::{IsTerminal, Read, Write};
use std::process::ExitCode;
use std::rt::Files;
use std::{env, io, mem};
use stop::{CommandStop, tell};
use stop_hints::{CONFIGURATION, hint_at, hint_refused_file};

// The exit status if what was asked for is done, and no hook failed (docs/REFERENCE.md, "The command line").
const DONE: u8 = 0;

// The exit status of a run in which a hook failed.
const HOOK_FAILED: u8 = 1;

fn main(rt: HostRuntime) -> ExitCode {
    match run(&rt) {
        Ok(status) => ExitCode::from(status),
        Err(stop) => {
            let status = tell(&rt, &stop);
            hint_at(&rt, &stop);
            ExitCode::from(status)
        }
    }
}

// Does what the process's words ask for, and returns its exit status.
fn run(rt: &HostRuntime) -> Result<u8, CommandStop> {
    match line_of_process(rt) {
        Ok(Some(line)) => do_line(rt, line),
        Ok(None) => {
            if rt.reader().is_terminal() {
                hint_step(rt, NextStep::AskForHelp);
            }
            replace_ignore_file(rt);
            let tree = Tree::new(rt.alloc());
            let children = passing_children(rt, None)?;
            let passed = report(rt, &mut rt.reader(), &tree, children, ColorChoice::Auto)?;
            Ok(status_of_run(passed))
        }
        Err(CommandStop::Usage(error)) => version_or_usage(rt, error),
        Err(stop) => Err(stop),
    }
}

// Prints the version, and how the program was built, if the words ask for it. Otherwise the error stops the
// program.
fn version_or_usage(rt: &HostRuntime, error: clap::Error) -> Result<u8, CommandStop> {
    if error.kind() != clap::error::ErrorKind::DisplayVersion {
        return Err(CommandStop::Usage(error));
    }
    let mut text = format!(in rt.alloc(); "{error}")?.into_bytes();
    text.extend_from_slice(build_line(&end_of_program(rt)))?;
    print(rt, text.as_slice()).map_err(|_| CommandStop::Refused(TryFault::Write))?;
    Ok(DONE)
}

// The line that the process's words make, or `None` if there are none. The words, of which there may be many,
// aren't kept.
fn line_of_process(rt: &HostRuntime) -> Result<Option<CommandLine>, CommandStop> {
    let mut words = env::args(rt).map_err(CommandStop::of_words)?;
    let _program = words.next();
    let words: Vec<String> = words.collect(rt.alloc())?;
    if words.is_empty() {
        return Ok(None);
    }
    let mut texts = Vec::with_capacity(rt.alloc(), words.len())?;
    for word in &words {
        texts.push(word.as_str())?;
    }
    Ok(Some(line_of(rt.alloc(), texts.as_slice())?))
}

fn do_line(rt: &HostRuntime, line: CommandLine) -> Result<u8, CommandStop> {
    match line {
        CommandLine::Standalone(asked) => do_alone(rt, asked),
        CommandLine::LookUp(asked) => look_up(rt, asked),
        CommandLine::Update(update) => change(rt, update),
    }
}

// Does what needs no repository.
fn do_alone(rt: &HostRuntime, asked: Standalone) -> Result<u8, CommandStop> {
    match asked {
        Standalone::Init => {
            init(rt).map_err(CommandStop::NoNewRepository)?;
            Ok(DONE)
        }
        Standalone::Try {
            config,
            paths,
            color,
            jobs,
        } => try_files(rt, config, paths, color, jobs),
        Standalone::Check => {
            check(rt).map_err(CommandStop::of_check)?;
            Ok(DONE)
        }
        Standalone::Explain { file } => explain(rt, file),
    }
}

// The exit status of a run of hooks.
fn status_of_run(passed: bool) -> u8
    ensures { result ≡ status_of_run passed }
{
    if passed { DONE } else { HOOK_FAILED }
}

// `check`: reads the working folder's configuration, and prints how many hooks it has and which keys are
// ignored.
fn check<R: Files + Print + AllocGlobal>(rt: &R) -> Result<(), CommandStop> {
    let bytes = read_configuration(rt, Text::copy_of(rt.alloc(), CONFIGURATION)?)?;
    let read = read_config_with_node(rt.alloc(), bytes.as_slice())?;
    let checked = print_check(rt, &read.config);
    // The process ends next, and its memory with it, so the nodes needn't be freed one by one.
    mem::forget(read);
    checked
}

fn print_check<R: Print + AllocGlobal>(rt: &R, config: &Config) -> Result<(), CommandStop> {
    let text = check_text(rt.alloc(), config)?;
    print(rt, text.as_slice()).map_err(|_| CommandStop::Refused(TryFault::Write))
}

// `explain [FILE]`: says what is wrong with a configuration, or what its hooks will do.
fn explain(rt: &HostRuntime, file: Option<Text>) -> Result<u8, CommandStop> {
    let word = match file {
        Some(word) => word,
        None => Text::copy_of(rt.alloc(), CONFIGURATION)?,
    };
    let explanation = explain_file(rt, word)?;
    print(rt, explanation.text.as_slice()).map_err(|_| CommandStop::Refused(TryFault::Write))?;
    Ok(status_of_run(explanation.is_taken()))
}

fn print<R: Print>(rt: &R, text: &[u8]) -> io::Result<()> {
    let mut writer = io::writer(rt);
    writer.write_all(text)?;
    writer.flush()
}

// `try CONFIG PATH..`: the first word whose file can't be used is the error, and the run comes last.
fn try_files(
    rt: &HostRuntime,
    config: Text,
    paths: Items<Text>,
    color: ColorChoice,
    jobs: Option<u32>,
) -> Result<u8, CommandStop> {
    let name = config.clone()?;
    match try_over_files(rt, config, paths, color, jobs) {
        Err(CommandStop::Refused(TryFault::Config(fault))) => {
            let status = tell(rt, &CommandStop::Refused(TryFault::Config(fault)));
            hint_refused_file(rt, name.as_str());
            Ok(status)
        }
        ended => Ok(status_of_run(ended?)),
    }
}

fn try_over_files(
    rt: &HostRuntime,
    config: Text,
    paths: Items<Text>,
    color: ColorChoice,
    jobs: Option<u32>,
) -> Result<bool, CommandStop> {
    let bytes = read_configuration(rt, config)?;
    let tree = read_tree(rt, paths)?;
    replace_ignore_file(rt);
    let children = passing_children(rt, jobs)?;
    let passed = report(rt, &mut bytes.as_slice(), &tree, children, color)?;
    // As in `check`, for the files.
    mem::forget(tree);
    Ok(passed)
}

// Runs the configuration over the tree, with these children, and prints the report. What was in their way is
// said after it.
fn report(
    rt: &HostRuntime,
    reader: &mut impl Read,
    tree: &Tree,
    children: RealChildren,
    color: ColorChoice,
) -> Result<bool, CommandStop> {
    let mut children = children;
    let mut writer = report_writer(rt, color, &mut children);
    let passed = try_over(rt.alloc(), reader, &mut writer, tree, &mut children);
    if passed.is_ok() {
        tell_trouble(rt, &children);
    }
    Ok(passed?)
}
