//! Calls on the effect of a run's options on a configuration.

use crate::commands::texts;
use hook_config::{Config, Hook, MOST_TEXT_BYTES, SharedPattern, read_config};
use run_options::{RunOptions, TOOLS, ToolKind, Verdict, can_split, command_reads, with_options};
use std::alloc::Global;
use trial_rows::{AnswerBytes, Stop, text_of};

/// `command_reads WORDS PASS_FILENAMES ALWAYS_RUN`: the text of the pattern of what the command reads besides
/// its files, or `every path`. Each word ends with a line feed, and the other two are `true` or `false`.
pub(crate) fn read_by(alloc: Global, arguments: &[Vec<u8>]) -> Result<AnswerBytes, Stop> {
    let [words, pass_filenames, always_run] = arguments else {
        return Err(Stop::BadLine);
    };
    let words = texts(alloc, words.as_slice())?;
    let pass_filenames = truth_of(pass_filenames.as_slice())?;
    let always_run = truth_of(always_run.as_slice())?;
    let reads = command_reads(words.as_slice(), pass_filenames, always_run);
    Ok(AnswerBytes::new(alloc).text(shown_pattern(reads)))
}

/// `can_split WORDS`: whether the files of the command are split in a cautious run. Each word ends with a line
/// feed.
pub(crate) fn splits(alloc: Global, arguments: &[Vec<u8>]) -> Result<AnswerBytes, Stop> {
    let [words] = arguments else {
        return Err(Stop::BadLine);
    };
    let words = texts(alloc, words.as_slice())?;
    Ok(AnswerBytes::new(alloc).shown(can_split(words.as_slice())))
}

fn truth_of(word: &[u8]) -> Result<bool, Stop> {
    match word {
        b"true" => Ok(true),
        b"false" => Ok(false),
        _ => Err(Stop::BadLine),
    }
}

fn shown_pattern(text: &str) -> &str {
    if text.is_empty() { "every path" } else { text }
}

/// `tools`: the name of each known tool, what its verdict on a file depends on, and the text of its pattern,
/// separated by bars, a line each. `BadLine` if a pattern is refused.
pub(crate) fn tools(alloc: Global) -> Result<AnswerBytes, Stop> {
    tool_lines(alloc, &TOOLS)
}

fn tool_lines(
    alloc: Global,
    tools: &[(&'static str, ToolKind, &'static str, Verdict)],
) -> Result<AnswerBytes, Stop> {
    let mut answer = AnswerBytes::new(alloc);
    for (name, _kind, reads, verdict) in tools {
        if reads.len() > MOST_TEXT_BYTES {
            return Err(Stop::BadLine);
        }
        if SharedPattern::build(alloc, reads).is_err() {
            return Err(Stop::BadLine);
        }
        answer = answer.texts(&[*name, "|", verdict_name(*verdict), "|", *reads, "\n"]);
    }
    Ok(answer)
}

fn verdict_name(verdict: Verdict) -> &'static str {
    match verdict {
        Verdict::OfEach => "each",
        Verdict::OfAll => "all",
    }
}

/// `with_options OPTIONS TEXT`: a line for each hook of the configuration that is run with these options. It
/// has the hook's id, the pattern of what the hook reads, the most names that a command gets, and whether the
/// hook is verbose, separated by bars. The options are names separated by blanks.
pub(crate) fn hooks(alloc: Global, arguments: &[Vec<u8>]) -> Result<AnswerBytes, Stop> {
    let [options, text] = arguments else {
        return Err(Stop::BadLine);
    };
    let options = options_of(text_of(options.as_slice())?)?;
    let Ok(config) = read_config(alloc, text.as_slice()) else {
        return Err(Stop::BadLine);
    };
    let config = with_options(alloc, config, options)?;
    Ok(hook_lines(alloc, &config))
}

fn options_of(names: &str) -> Result<RunOptions, Stop> {
    let mut options = RunOptions {
        cautious: false,
        verbose: false,
    };
    for name in names.split_ascii_whitespace() {
        match name {
            "cautious" => options.cautious = true,
            "verbose" => options.verbose = true,
            _ => return Err(Stop::BadLine),
        }
    }
    Ok(options)
}

fn hook_lines(alloc: Global, config: &Config) -> AnswerBytes {
    let mut answer = AnswerBytes::new(alloc);
    for hook in config.hooks.as_slice() {
        answer = with_hook(answer, hook);
    }
    answer
}

fn with_hook(answer: AnswerBytes, hook: &Hook) -> AnswerBytes {
    let reads = shown_pattern(hook.x_reads.as_pattern().as_str());
    let answer = answer.texts(&[hook.id.as_str(), "|", reads, "|"]);
    let answer = answer.shown(hook.x_at_most).text("|");
    answer.shown(hook.verbose).text("\n")
}
