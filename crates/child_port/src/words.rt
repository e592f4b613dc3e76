//! The words of a command as paths.

ghost use Rattle.std.specs.Prelude.{◌≡◌};
ghost use Rattle.child_port.specs.Seen.{plain_word};

/// A word of a command without one leading `./`: the path of the file that it may name. A further `./` stays.
pub fn plain_word(word: &str) -> &str
    ensures { result.now ≡ plain_word word.now }
{
    match word.strip_prefix("./") {
        Some(path) => path,
        None => word,
    }
}
