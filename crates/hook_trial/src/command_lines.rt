//! What a command line asks for.

use hook_base::{Mode, Text};
use hook_cli::{
    ColorChoice, CommandLine, CommitHook, FileChoice, FileVersion, HookChoice, LookUp, PathSource,
    RunChoice, StageChoice, Standalone, Update, line_of,
};
use std::alloc::Global;
use trial_rows::{AnswerBytes, Stop, texts_of};

/// `line_of WORD..`: the command with its words, a line each, or the kind of `clap`'s error and its text. For
/// a run or a hook the stage and the files come first, and then how it is made. A color other than `auto` is at the end
/// of the first line.
pub(crate) fn asked(alloc: Global, arguments: &[Vec<u8>]) -> Result<AnswerBytes, Stop> {
    let words = texts_of(alloc, arguments)?;
    match line_of(alloc, words.as_slice()) {
        Ok(line) => Ok(told(AnswerBytes::new(alloc), &line)),
        Err(error) => Ok(refused(AnswerBytes::new(alloc), &error)),
    }
}

fn refused(answer: AnswerBytes, error: &clap::Error) -> AnswerBytes {
    let answer = answer.text("refused ").debug(error.kind());
    answer.text("\n").shown(error)
}

fn told(answer: AnswerBytes, line: &CommandLine) -> AnswerBytes {
    match line {
        CommandLine::Standalone(asked) => told_alone(answer, asked),
        CommandLine::LookUp(asked) => told_look_up(answer, asked),
        CommandLine::Update(update) => told_update(answer, update),
    }
}

fn told_alone(answer: AnswerBytes, asked: &Standalone) -> AnswerBytes {
    match asked {
        Standalone::Init => answer.text("init\n"),
        Standalone::Try {
            config,
            paths,
            color,
            jobs,
        } => {
            let answer = answer.texts(&["try", word_of_color(*color)]);
            let answer = with_jobs(answer, *jobs).text("\n");
            with_lines(with_line(answer, config), paths.as_slice())
        }
        Standalone::Check => answer.text("check\n"),
        Standalone::Explain { file } => with_name(answer.text("explain\n"), file),
    }
}

fn told_look_up(answer: AnswerBytes, asked: &LookUp) -> AnswerBytes {
    match asked {
        LookUp::Status => answer.text("status\n"),
        LookUp::Fixes => answer.text("fixes\n"),
        LookUp::Cat { path, version } => with_line(with_version(answer, *version), path),
        LookUp::Log => answer.text("log\n"),
        LookUp::Show { number } => answer.text("show\n").shown(*number).text("\n"),
        LookUp::Memory => answer.text("memory\n"),
    }
}

fn told_update(answer: AnswerBytes, update: &Update) -> AnswerBytes {
    match update {
        Update::Add { paths, mode } => with_paths(
            answer.texts(&["add", word_of_mode(*mode)]),
            paths,
        ),
        Update::Remove { paths } => with_paths(answer.text("remove"), paths),
        Update::Run {
            files,
            only,
            stage,
            fresh,
            options,
        } => {
            let answer = answer.texts(&["run ", word_of_stage(*stage), word_of_files(files)]);
            let answer = with_name(with_how(answer, *fresh, *options), only);
            with_files(answer, files)
        }
        Update::Hook {
            hook,
            fresh,
            options,
        } => told_hook(answer, hook, *fresh, *options),
        Update::Accept => answer.text("accept\n"),
        Update::Commit {
            message,
            no_verify,
            color,
            jobs,
        } => {
            let answer = answer.texts(&[word_of_commit(*no_verify), word_of_color(*color)]);
            with_line(with_jobs(answer, *jobs).text("\n"), message)
        }
        Update::Forget => answer.text("forget\n"),
        Update::Limit(limit) => answer.text("limit ").shown(limit.number()).text("\n"),
    }
}

// `hook STAGE`, then how it is made, and the file in the next line.
fn told_hook(
    answer: AnswerBytes,
    hook: &CommitHook,
    fresh: bool,
    options: HookChoice,
) -> AnswerBytes {
    let answer = with_how(
        answer.texts(&["hook ", word_of_hook(hook)]),
        fresh,
        run_choice_of(options),
    );
    match hook {
        CommitHook::PreCommit | CommitHook::PostCommit => answer,
        CommitHook::PrepareCommitMsg(file) | CommitHook::CommitMsg(file) => with_line(answer, file),
    }
}

fn word_of_hook(hook: &CommitHook) -> &'static str {
    match hook {
        CommitHook::PreCommit => "pre-commit",
        CommitHook::PrepareCommitMsg(_) => "prepare-commit-msg",
        CommitHook::CommitMsg(_) => "commit-msg",
        CommitHook::PostCommit => "post-commit",
    }
}

fn run_choice_of(choice: HookChoice) -> RunChoice {
    RunChoice {
        cautious: choice.cautious,
        verbose: false,
        color: choice.color,
        jobs: choice.jobs,
    }
}

fn with_version(answer: AnswerBytes, version: FileVersion) -> AnswerBytes {
    match version {
        FileVersion::Staged => answer.text("cat\n"),
        FileVersion::Fixed => answer.text("cat fixed\n"),
        FileVersion::Committed(number) => answer.text("cat commit ").shown(number).text("\n"),
    }
}

fn word_of_mode(mode: Option<Mode>) -> &'static str {
    match mode {
        None => "",
        Some(Mode::Plain) => " plain",
        Some(Mode::Executable) => " executable",
    }
}

fn with_paths(answer: AnswerBytes, paths: &PathSource) -> AnswerBytes {
    match paths {
        PathSource::Words(words) => with_lines(answer.text("\n"), words.as_slice()),
        PathSource::Listed(from) => with_line(answer.text(" listed\n"), from),
    }
}

fn word_of_commit(no_verify: bool) -> &'static str {
    if no_verify {
        "commit unverified"
    } else {
        "commit"
    }
}

// How a run is made, after its stage and its files.
fn with_how(answer: AnswerBytes, fresh: bool, options: RunChoice) -> AnswerBytes {
    let fresh = if fresh { " fresh" } else { "" };
    let cautious = if options.cautious { " cautious" } else { "" };
    let verbose = if options.verbose { " verbose" } else { "" };
    let color = word_of_color(options.color);
    let answer = answer.texts(&[fresh, cautious, verbose, color]);
    with_jobs(answer, options.jobs).text("\n")
}

fn with_jobs(answer: AnswerBytes, jobs: Option<u32>) -> AnswerBytes {
    match jobs {
        Some(number) => answer.text(" jobs ").shown(number),
        None => answer,
    }
}

fn word_of_color(color: ColorChoice) -> &'static str {
    match color {
        ColorChoice::Auto => "",
        ColorChoice::Always => " color always",
        ColorChoice::Never => " color never",
    }
}

fn word_of_stage(stage: StageChoice) -> &'static str {
    match stage {
        StageChoice::PreCommit => "pre-commit",
        StageChoice::Manual => "manual",
    }
}

fn word_of_files(files: &FileChoice) -> &'static str {
    match files {
        FileChoice::Changed => " changed",
        FileChoice::All => " all",
        FileChoice::Named(_) => " named",
        FileChoice::Listed(_) => " listed",
    }
}

fn with_files(answer: AnswerBytes, files: &FileChoice) -> AnswerBytes {
    match files {
        FileChoice::Changed | FileChoice::All => answer,
        FileChoice::Named(paths) => with_lines(answer, paths.as_slice()),
        FileChoice::Listed(from) => with_line(answer, from),
    }
}

fn with_name(answer: AnswerBytes, name: &Option<Text>) -> AnswerBytes {
    match name {
        Some(name) => with_line(answer, name),
        None => answer,
    }
}

fn with_lines(answer: AnswerBytes, words: &[Text]) -> AnswerBytes {
    let mut answer = answer;
    for word in words {
        answer = with_line(answer, word);
    }
    answer
}

fn with_line(answer: AnswerBytes, word: &Text) -> AnswerBytes {
    answer.texts(&[word.as_str(), "\n"])
}
