//! What a text is read as, if it is a configuration.

use hook_base::Text;
use hook_config::{
    Config, ConfigFault, ConfigText, ConfigWithNode, Hook, Language, SharedPattern, read_config,
    read_config_with_node,
};
use std::alloc::Global;
use trial_rows::{AnswerBytes, Stop, only};

/// `read_config TEXT`: the number of hooks, `fail_fast` and the unknown keys; or the refusal's number, name
/// and place.
pub(crate) fn read_alone(alloc: Global, arguments: &[Vec<u8>]) -> Result<AnswerBytes, Stop> {
    Ok(outcome(alloc, &read_config(alloc, only(arguments)?)))
}

/// `read_config_with_node TEXT`: the same, but the text's node is read with its configuration.
pub(crate) fn read_with_node(alloc: Global, arguments: &[Vec<u8>]) -> Result<AnswerBytes, Stop> {
    Ok(outcome(alloc, &configuration_with_node(alloc, only(arguments)?)))
}

/// `hooks TEXT`: the line of each hook, or the refusal.
pub(crate) fn hooks_alone(alloc: Global, arguments: &[Vec<u8>]) -> Result<AnswerBytes, Stop> {
    Ok(hooks(alloc, &read_config(alloc, only(arguments)?)))
}

/// `hooks_with_node TEXT`: the same, but the text's node is read with its configuration.
pub(crate) fn hooks_with_node(alloc: Global, arguments: &[Vec<u8>]) -> Result<AnswerBytes, Stop> {
    Ok(hooks(alloc, &configuration_with_node(alloc, only(arguments)?)))
}

/// `top_patterns TEXT`: the patterns `files` and `exclude` at the top, separated by a bar, or the refusal.
pub(crate) fn top_patterns(alloc: Global, arguments: &[Vec<u8>]) -> Result<AnswerBytes, Stop> {
    match read_config(alloc, only(arguments)?) {
        Ok(config) => Ok(patterns(alloc, &config)),
        Err(fault) => Ok(refusal(alloc, fault)),
    }
}

fn patterns(alloc: Global, config: &Config) -> AnswerBytes {
    AnswerBytes::new(alloc).texts(&[text_of(&config.files), "|", text_of(&config.exclude)])
}

/// `node TEXT`: the node that is read with the configuration, as `Debug` shows it, or the refusal.
pub(crate) fn node(alloc: Global, arguments: &[Vec<u8>]) -> Result<AnswerBytes, Stop> {
    match read_config_with_node(alloc, only(arguments)?) {
        Ok(read) => Ok(AnswerBytes::new(alloc).debug(&read.node)),
        Err(fault) => Ok(refusal(alloc, fault)),
    }
}

fn configuration_with_node(alloc: Global, bytes: &[u8]) -> Result<Config, ConfigFault> {
    match read_config_with_node(alloc, bytes) {
        Ok(
            ConfigWithNode {
                config,
                node: _node,
            },
        ) => Ok(config),
        Err(fault) => Err(fault),
    }
}

fn outcome(alloc: Global, read: &Result<Config, ConfigFault>) -> AnswerBytes {
    match read {
        Ok(config) => summary(alloc, config),
        Err(fault) => refusal(alloc, *fault),
    }
}

fn hooks(alloc: Global, read: &Result<Config, ConfigFault>) -> AnswerBytes {
    match read {
        Ok(config) => hook_lines(alloc, config.hooks.as_slice()),
        Err(fault) => refusal(alloc, *fault),
    }
}

fn summary(alloc: Global, config: &Config) -> AnswerBytes {
    let answer = AnswerBytes::new(alloc).shown(config.hooks.as_slice().len());
    let answer = answer.text(" hooks, ").shown(config.fail_fast);
    with_texts(answer, " ", config.unknown.as_slice())
}

// Adds each of the texts, with a mark before it.
fn with_texts(answer: AnswerBytes, mark: &str, texts: &[Text]) -> AnswerBytes {
    let mut answer = answer;
    for text in texts {
        answer = answer.texts(&[mark, text.as_str()]);
    }
    answer
}

/// The number, name and place of a refusal.
pub(crate) fn refusal(alloc: Global, fault: ConfigFault) -> AnswerBytes {
    let answer = AnswerBytes::new(alloc).shown(fault.number());
    answer.texts(&[" ", fault.name(), " at "]).shown(fault.at)
}

fn hook_lines(alloc: Global, hooks: &[Hook]) -> AnswerBytes {
    let mut answer = AnswerBytes::new(alloc);
    for hook in hooks {
        answer = with_selection(with_names(answer, hook), hook);
        answer = with_reads(with_truths(answer, hook), hook);
        answer = with_unserved(answer, hook);
    }
    answer
}

// Adds a hook's line: its fields without its stages, in the order of the type, separated by bars.
fn with_names(answer: AnswerBytes, hook: &Hook) -> AnswerBytes {
    let answer = answer.texts(&[hook.id.as_str(), "|", hook.name.as_str(), "|"]);
    let answer = answer.texts(&[hook.alias.as_str(), "|"]);
    let answer = answer.text(word_of(&hook.language)).text("|");
    with_args(answer.text(hook.entry.as_str()), hook.args.as_slice())
}

fn word_of(language: &Language) -> &'static str {
    match language {
        Language::Fail => "Fail",
        Language::Pygrep(_) => "Pygrep",
        Language::System(_) => "System",
        Language::Script(_) => "Script",
    }
}

fn text_of(pattern: &SharedPattern) -> &str {
    pattern.as_pattern().as_str()
}

fn with_selection(answer: AnswerBytes, hook: &Hook) -> AnswerBytes {
    let answer = answer.texts(&["|", text_of(&hook.files), "|", text_of(&hook.exclude), "|"]);
    let answer = with_texts(answer, "+", hook.types.as_slice()).text("|");
    let answer = with_texts(answer, "+", hook.types_or.as_slice()).text("|");
    with_texts(answer, "+", hook.exclude_types.as_slice())
}

fn with_truths(answer: AnswerBytes, hook: &Hook) -> AnswerBytes {
    let answer = with_truth(with_truth(answer, hook.always_run), hook.verbose);
    with_truth(with_truth(answer, hook.pass_filenames), hook.fail_fast)
}

fn with_reads(answer: AnswerBytes, hook: &Hook) -> AnswerBytes {
    let answer = answer.texts(&["|", text_of(&hook.x_reads)]);
    with_truth(answer, hook.x_per_file)
        .text("|")
        .shown(hook.x_at_most)
}

fn with_truth(answer: AnswerBytes, truth: bool) -> AnswerBytes {
    answer.text("|").shown(truth)
}

fn with_unserved(answer: AnswerBytes, hook: &Hook) -> AnswerBytes {
    let answer = answer.texts(&["|", hook.log_file.as_str(), "|"]);
    with_args(answer, hook.additional_dependencies.as_slice()).text("\n")
}

// Adds each of the texts, with a plus sign before it.
fn with_args(answer: AnswerBytes, texts: &[ConfigText]) -> AnswerBytes {
    let mut answer = answer;
    for text in texts {
        answer = answer.texts(&["+", text.as_str()]);
    }
    answer
}
