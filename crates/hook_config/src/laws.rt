//! Laws of the definitions that the contracts cite. Each is a function that gives nothing: what it ensures is
//! a theorem about the definitions alone.

ghost use Rattle.std.specs.Prelude.{◌≡◌, ℕ, List, Some};
ghost use Rattle.hook_config.specs.Configuration.{configuration_of};
ghost use Rattle.hook_config.specs.ShortTexts.{HasShortTexts};
ghost use Rattle.hook_config.specs.declared.configuration.Config.{Config};

/// No text of a configuration is longer than [`MOST_TEXT_BYTES`](crate::MOST_TEXT_BYTES) bytes: no name,
/// argument, tag or pattern of a hook, no pattern at the top, and no unknown key. The words that are cut out
/// of an entry aren't covered.
pub fn a_configuration_has_short_texts()
    ensures { (bytes : List ℕ) (config : Config) → configuration_of bytes ≡ Some config → HasShortTexts config }
{}
