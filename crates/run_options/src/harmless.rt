//! Words that let a tool read nothing but what its row says. (docs/REFERENCE.md, "Known tools".)

ghost use Rattle.std.specs.Prelude.{◌≡◌, count_by};
ghost use Rattle.std.specs.Char.{is_ascii_digit};
ghost use Rattle.std.specs.List.{list_all, list_any};
ghost use Rattle.std.specs.Str.{bytes_eq};
ghost use Rattle.run_options.specs.Harmless.{are_harmless, are_letters_of, are_of_grep, are_of_sed, end_in_operand, has_byte, is_grep_option, is_long_grep_option, is_long_option, is_name_byte, is_of_grep, is_of_sed, is_operand, is_option, is_option_name, is_option_text, is_option_value, is_script, is_sed_option, is_value_byte};

use crate::tools::ToolKind;
use hook_base::Text;

// The options of one letter that `grep` may be given (grep(1)): none of them takes a word, names a file or
// goes into folders.
const GREP_LETTERS: &[u8] = b"abcEFGhHiIlLnoPqsvwxyzZ";

// The long options that `grep` may be given (grep(1)).
const GREP_OPTIONS: [&str; 8] = [
    "--count",
    "--extended-regexp",
    "--fixed-strings",
    "--ignore-case",
    "--invert-match",
    "--line-number",
    "--quiet",
    "--word-regexp",
];

// The options of one letter that `sed` may be given together (sed(1)): none of them takes a word, or letters
// after it.
const SED_LETTERS: &[u8] = b"nrEsuz";

// The letters of the commands and flags of `sed` that read a file, write one, print its name or run a command
// (sed(1)).
const SED_COMMANDS: &[u8] = b"eFrRwW";

/// Whether a tool of that kind reads nothing else if these words follow its name.
pub(crate) fn are_harmless(kind: ToolKind, words: &[Text]) -> bool
    ensures { result ≡ are_harmless kind words.now }
{
    match kind {
        ToolKind::Options => are_options(words),
        ToolKind::Grep => are_of_grep(words),
        ToolKind::Sed => are_of_sed(words),
        ToolKind::Any => true,
    }
}

fn are_options(words: &[Text]) -> bool
    ensures { result ≡ list_all is_option words.now }
{
    words.iter().all(|word| is_option(word.as_str()))
}

// An option that names no file: a letter, maybe with a number after it, or a long option, maybe with a value.
fn is_option(word: &str) -> bool
    ensures { result ≡ is_option word.now }
{
    match word.as_bytes() {
        [b'-', text @ ..] => is_option_text(text),
        _ => false,
    }
}

fn is_option_text(text: &[u8]) -> bool
    ensures { result ≡ is_option_text text.now }
{
    match text {
        [b'-', name @ ..] => is_long_option(name),
        [letter, digits @ ..] => letter.is_ascii_alphabetic() && are_digits(digits),
        [] => false,
    }
}

fn are_digits(text: &[u8]) -> bool
    ensures { result ≡ list_all is_ascii_digit text.now }
{
    text.iter().all(|byte| byte.is_ascii_digit())
}

fn is_long_option(text: &[u8]) -> bool
    ensures { result ≡ is_long_option text.now }
{
    match text.iter().position(|byte| *byte == b'=') {
        Some(end) => is_option_name(&text[..end]) && is_option_value(&text[end + 1..]),
        None => is_option_name(text),
    }
}

fn is_option_name(text: &[u8]) -> bool
    ensures { result ≡ is_option_name text.now }
{
    match text {
        [] => false,
        _ => are_name_bytes(text),
    }
}

fn are_name_bytes(text: &[u8]) -> bool
    ensures { result ≡ list_all is_name_byte text.now }
{
    text.iter().all(|byte| is_name_byte(*byte))
}

fn is_name_byte(byte: u8) -> bool
    ensures { result ≡ is_name_byte byte }
{
    byte.is_ascii_lowercase() || byte.is_ascii_digit() || byte == b'-'
}

// Numbers and the codes of messages, with commas between them. Capital letters alone might name a file.
fn is_option_value(text: &[u8]) -> bool
    ensures { result ≡ is_option_value text.now }
{
    has_digit(text) && are_value_bytes(text)
}

fn has_digit(text: &[u8]) -> bool
    ensures { result ≡ list_any is_ascii_digit text.now }
{
    text.iter().any(|byte| byte.is_ascii_digit())
}

fn are_value_bytes(text: &[u8]) -> bool
    ensures { result ≡ list_all is_value_byte text.now }
{
    text.iter().all(|byte| is_value_byte(*byte))
}

fn is_value_byte(byte: u8) -> bool
    ensures { result ≡ is_value_byte byte }
{
    byte.is_ascii_uppercase() || byte.is_ascii_digit() || byte == b','
}

// Options, and at most one other word, which is the pattern: a second one might name a folder.
fn are_of_grep(words: &[Text]) -> bool
    ensures { result ≡ are_of_grep words.now }
{
    are_each_of_grep(words) && operand_count(words) <= 1
}

fn are_each_of_grep(words: &[Text]) -> bool
    ensures { result ≡ list_all is_of_grep words.now }
{
    words.iter().all(|word| is_of_grep(word.as_str()))
}

fn operand_count(words: &[Text]) -> usize
    ensures { result ≡ count_by is_operand words.now }
{
    words
        .iter()
        .filter(|word| is_operand(word.as_str()))
        .count()
}

fn is_of_grep(word: &str) -> bool
    ensures { result ≡ is_of_grep word.now }
{
    match word.as_bytes() {
        [b'-', letters @ ..] => is_grep_option(word, letters),
        _ => true,
    }
}

fn is_grep_option(word: &str, letters: &[u8]) -> bool
    ensures { result ≡ is_grep_option word.now letters.now }
{
    is_long_grep_option(word) || are_letters_of(GREP_LETTERS, letters)
}

fn is_long_grep_option(word: &str) -> bool
    ensures { result ≡ is_long_grep_option word.now }
{
    is_one_of(&GREP_OPTIONS, word)
}

fn is_one_of(options: &[&str], word: &str) -> bool
    ensures { result ≡ list_any (λ option. bytes_eq option.now word.now) options.now }
{
    options.iter().any(|option| *option == word)
}

fn is_operand(word: &str) -> bool
    ensures { result ≡ is_operand word.now }
{
    match word.as_bytes() {
        [b'-', ..] => false,
        _ => true,
    }
}

// Options and scripts. The last word is a script, as otherwise the first file name after it might be taken
// for one.
fn are_of_sed(words: &[Text]) -> bool
    ensures { result ≡ are_of_sed words.now }
{
    are_each_of_sed(words) && end_in_operand(words)
}

fn are_each_of_sed(words: &[Text]) -> bool
    ensures { result ≡ list_all is_of_sed words.now }
{
    words.iter().all(|word| is_of_sed(word.as_str()))
}

fn end_in_operand(words: &[Text]) -> bool
    ensures { result ≡ end_in_operand words.now }
{
    match words.last() {
        Some(word) => is_operand(word.as_str()),
        None => false,
    }
}

fn is_of_sed(word: &str) -> bool
    ensures { result ≡ is_of_sed word.now }
{
    match word.as_bytes() {
        [b'-', letters @ ..] => is_sed_option(word, letters),
        script => is_script(script),
    }
}

// Letters after `e` are a script, and those after `i` are the suffix of a backup file's name (sed(1)).
fn is_sed_option(word: &str, letters: &[u8]) -> bool
    ensures { result ≡ is_sed_option word.now letters.now }
{
    word == "-e" || word == "-i" || are_letters_of(SED_LETTERS, letters)
}

fn is_script(script: &[u8]) -> bool
    ensures { result ≡ is_script script.now }
{
    !has_one_of(SED_COMMANDS, script)
}

fn has_one_of(sought: &[u8], bytes: &[u8]) -> bool
    ensures { result ≡ list_any (has_byte sought.now) bytes.now }
{
    bytes.iter().any(|byte| has_byte(sought, *byte))
}

fn are_letters_of(known: &[u8], letters: &[u8]) -> bool
    ensures { result ≡ are_letters_of known.now letters.now }
{
    match letters {
        [] => false,
        _ => are_all_in(known, letters),
    }
}

fn are_all_in(known: &[u8], letters: &[u8]) -> bool
    ensures { result ≡ list_all (has_byte known.now) letters.now }
{
    letters.iter().all(|letter| has_byte(known, *letter))
}

fn has_byte(bytes: &[u8], sought: u8) -> bool
    ensures { result ≡ has_byte bytes.now sought }
{
    bytes.iter().any(|byte| *byte == sought)
}
