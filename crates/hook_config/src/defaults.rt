//! What a hook has if its table doesn't say it.

ghost use Rattle.std.specs.Prelude.{◌≡◌, IfOk, IfErr};
ghost use Rattle.hook_config.specs.Patterns.{every_path, no_path};
ghost use Rattle.hook_config.specs.Gives.{IsLeftOpen};

use crate::config_fault::ConfigKind;
use crate::shared_pattern::SharedPattern;
use crate::stage::Stages;
use std::alloc::Global;
use std::marker::Model;

/// What hooks have if their tables don't say it: the default stages of their configuration, and the default
/// patterns. The patterns are built once for all hooks. Contracts see the stages.
#[derive(Drop)]
pub(crate) struct Defaults {
    stages: Stages,
    files: SharedPattern,
    exclude: SharedPattern,
}

impl Model for Defaults {
    ghost use Rattle.std.specs.Prelude.{◌≡◌};
    ghost use Rattle.hook_config.specs.Patterns.{every_path, no_path};
    ghost use Rattle.hook_config.specs.declared.stage.Stages.{Stages};

    ghost Value = { Stages };

    ghost view = { λ defaults. defaults.stages };

    ghost invariant = { λ defaults. (defaults.files ≡ every_path) × (defaults.exclude ≡ no_path) };
}

impl Defaults {
    /// The defaults with these stages.
    pub(crate) fn new(alloc: Global, stages: Stages) -> Result<Self, ConfigKind>
        ensures stages { IfOk result (λ defaults. defaults ≡ stages) }
        ensures refused { IfErr result IsLeftOpen }
    {
        Ok(Defaults {
            stages,
            files: SharedPattern::build(alloc, "")?,
            exclude: SharedPattern::build(alloc, "^$")?,
        })
    }

    /// The default stages.
    pub(crate) fn stages(&self) -> Stages
        ensures { result ≡ self.now }
    {
        self.stages
    }

    /// The default of `files`, which is found in every path.
    pub(crate) fn files(&self) -> &SharedPattern
        ensures { result.now ≡ every_path }
    {
        &self.files
    }

    /// The default of `exclude`, which is found in no path.
    pub(crate) fn exclude(&self) -> &SharedPattern
        ensures { result.now ≡ no_path }
    {
        &self.exclude
    }
}
