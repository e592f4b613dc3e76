//! Reads the configuration that is staged.

ghost use Rattle.std.specs.Prelude.{◌≡◌, IfOk, IfErr};
ghost use Rattle.commit_flow.specs.Configured.{IsConfigured, config_path};
ghost use Rattle.commit_flow.specs.Preparations.{IsConfigRefusal};

use crate::HostRefusal;
use hook_base::{OutOfMemory, RepoPath};
use hook_config::{Config, read_config};
use repo_store::Store;
use sqlite::Alter;
use std::alloc::Global;

/// The staged configuration. `NoConfig` if none is staged, `BadConfig` if it can't be read, and `OutOfMemory`
/// if memory is refused.
pub(crate) fn staged_config<S: Alter>(
    alloc: Global,
    store: &Store<S>,
) -> Result<Config, HostRefusal>
    ensures config { IfOk result (IsConfigured store.now.kept.repo) }
    ensures refused { IfErr result (IsConfigRefusal store.now.kept.repo) }
{
    let path = config_path(alloc)?;
    let Some(bytes) = store.staged_bytes(&path) else {
        return Err(HostRefusal::NoConfig);
    };
    let config = read_config(alloc, bytes)?;
    Ok(config)
}

// The path of the configuration (`pre_commit.constants.CONFIG_FILE`). It fails only for lack of memory.
fn config_path(alloc: Global) -> Result<RepoPath, OutOfMemory>
    ensures { IfOk result (λ path. path ≡ config_path) }
{
    match RepoPath::read(alloc, ".pre-commit-config.yaml") {
        Ok(path) => Ok(path),
        Err(_) => Err(OutOfMemory),
    }
}
