//! Reads the configuration from the bytes of a text.

ghost use Rattle.std.specs.Prelude.{◌≡◌, Some, IfErr, IfOk};
ghost use Rattle.yaml_lines.specs.View.{view};
ghost use Rattle.yaml_profile.specs.Text.{meaning_of};
ghost use Rattle.hook_config.specs.Configuration.{configuration_by, configuration_of, configuration_of_meaning, configuration_of_rows, configuration_with};
ghost use Rattle.hook_config.specs.Gives.{GivesConfiguration};
ghost use Rattle.hook_config.specs.Refusals.{TellsLargeConfiguration};
ghost use Rattle.hook_config.specs.Rows.{rows_of};
ghost use Rattle.hook_config.specs.ShortTexts.{HasShortTexts};

use crate::config_fault::{ConfigFault, ConfigKind};
use crate::configuration::Config;
use crate::defaults::Defaults;
use crate::fields::{pattern_or, required_list, stages_or, truth_or};
use crate::kinds::table_of;
use crate::repositories::hooks_of_repositories;
use crate::shared_pattern::SharedPattern;
use crate::stage::Stages;
use crate::unknown_keys::unknown_of_top;
use hook_base::Items;
use std::alloc::Global;
use yaml_profile::{Node, read};

/// The configuration that the bytes of a `.pre-commit-config.yaml` describe (pre-commit.com, "Adding
/// pre-commit plugins to your project").
///
/// A refusal is one of `ConfigKind`:
///
/// - `Yaml`: the bytes are no YAML of this profile. More bytes than a text may have are `Yaml` of `TooLarge`
///   at 1;
/// - `Shape`: the text, or a repository or a hook, is no table, or a known key's value is of another kind;
/// - `MissingKey`: a required key isn't there;
/// - `BadStage`, `BadLanguage`, `RemoteRepo`: a stage, a language or a repository isn't known;
/// - `BadPattern`: `regex` doesn't take a pattern, or an entry of `pygrep`. `regex` decides which patterns
///   are too big once they are built, so `BadPattern` may come for a text that describes a configuration;
/// - `BadArgs`: an argument isn't one that `pygrep` knows;
/// - `BadEntry`: an entry of `system` or `script` can't be cut into words, has none, or its first word is
///   empty;
/// - `Unsupported`: a key that is served only if its value is empty has another one;
/// - `TooMany`: there are more than `MOST_HOOKS` hooks;
/// - `OutOfMemory`: memory was refused.
///
/// Of several faults the first in this order is reported. At the top: the keys in the order of
/// [`top_keys`](crate::top_keys), and then the repositories in the order of the text. In a repository:
/// `repo`, `hooks`, and then the hooks in the order of the text. In a hook: that there are too many, and then
/// the keys in the order of [`hook_keys`](crate::hook_keys). After `args` come the arguments and then the
/// entry's pattern with `pygrep`, and the entry's words with `system` and `script`.
#[tactic(auto, unfolding(crate::specs::Configuration::configuration_of))]
pub fn read_config(alloc: Global, bytes: &[u8]) -> Result<Config, ConfigFault>
    ensures meant { GivesConfiguration (λ config. config) result (configuration_of bytes.now) }
    ensures within { IfOk result HasShortTexts }
    ensures large { IfErr result (TellsLargeConfiguration bytes.now) }
{
    match read(alloc, bytes) {
        Ok(node) => config_of_node(alloc, &node),
        Err(fault) => Err(ConfigFault::from(fault)),
    }
}

/// A configuration with the node of the text that describes it.
#[derive(Debug, Drop)]
pub struct ConfigWithNode {
    /// The configuration.
    pub config: Config,
    /// What the whole text is, including what the configuration passes over.
    pub node: Node,
}

/// The configuration that [`read_config`] gives, with the node that describes it. A refusal is the one that
/// [`read_config`] gives. The node of a large text takes long to drop, so a program that is about to end may
/// keep it until then.
#[tactic(auto, unfolding(crate::specs::Configuration::configuration_of))]
pub fn read_config_with_node(alloc: Global, bytes: &[u8]) -> Result<ConfigWithNode, ConfigFault>
    ensures config { GivesConfiguration (λ read. read.config) result (configuration_of bytes.now) }
    ensures within { IfOk result (λ read. HasShortTexts read.config) }
    ensures node { IfOk result (λ read. meaning_of bytes.now ≡ Some (view read.node)) }
    ensures large { IfErr result (TellsLargeConfiguration bytes.now) }
{
    let node = read(alloc, bytes)?;
    let config = config_of_node(alloc, &node)?;
    Ok(ConfigWithNode { config, node })
}

/// The configuration that a text's node describes.
#[tactic(auto, unfolding(crate::specs::Configuration::configuration_of_meaning))]
pub(crate) fn config_of_node(alloc: Global, node: &Node) -> Result<Config, ConfigFault>
    ensures { GivesConfiguration (λ config. config) result (configuration_of_meaning (view node.now)) }
{
    config_of_rows(alloc, table_of(node)?)
}

#[tactic(auto, unfolding(crate::specs::Configuration::configuration_of_rows))]
fn config_of_rows(alloc: Global, rows: &[(String, Node)]) -> Result<Config, ConfigFault>
    ensures { GivesConfiguration (λ config. config) result (configuration_of_rows (rows_of rows.now)) }
{
    let stages = stages_or(rows, "default_stages", Stages::all())?;
    let defaults = Defaults::new(alloc, stages)?;
    config_by(alloc, rows, &defaults)
}

// The configuration of a table's rows with these defaults.
fn config_by(
    alloc: Global,
    rows: &[(String, Node)],
    defaults: &Defaults,
) -> Result<Config, ConfigFault>
    ensures { GivesConfiguration (λ config. config) result (configuration_by defaults.now (rows_of rows.now)) }
{
    let files = pattern_or(alloc, rows, "files", defaults.files())?;
    let exclude = pattern_or(alloc, rows, "exclude", defaults.exclude())?;
    let fail_fast = truth_or(rows, "fail_fast", false)?;
    config_with(alloc, rows, defaults, files, exclude, fail_fast)
}

// The configuration of a table's rows, with these values of the keys at the top.
fn config_with(
    alloc: Global,
    rows: &[(String, Node)],
    defaults: &Defaults,
    files: SharedPattern,
    exclude: SharedPattern,
    fail_fast: bool,
) -> Result<Config, ConfigFault>
    ensures { GivesConfiguration (λ config. config) result
        (configuration_with defaults.now (rows_of rows.now) files exclude fail_fast) }
{
    let hooks = hooks_of_repositories(alloc, required_list(rows, "repos")?, defaults)?;
    let unknown = unknown_of_top(alloc, rows)?;
    Ok(Config {
        hooks: Items::from(hooks),
        fail_fast,
        files,
        exclude,
        unknown: Items::from(unknown),
    })
}
