//! Runs of hooks over children, and what is shown of them.

use hook_base::{Items, Tree};
use hook_config::Stage;
use hook_run::{HooksRun, Reuse, RunAsk, RunOut, RunRefusal};
use std::alloc::Global;
use trial_rows::Stop;

/// An ask that runs all hooks of `pre-commit` on all files.
pub(crate) fn ask_of(alloc: Global, tree: &Tree, how: &[u8]) -> Result<RunAsk, Stop> {
    let mut candidates = Vec::new(alloc);
    for index in 0..tree.len() {
        candidates.push(tree.entry(index).path.clone()?)?;
    }
    Ok(RunAsk {
        stage: Stage::PreCommit,
        candidates: Items::from(candidates),
        only: None,
        skip: Items::new(alloc),
        reuse: reuse_of(how)?,
    })
}

fn reuse_of(how: &[u8]) -> Result<Reuse, Stop> {
    match how {
        b"plain" => Ok(Reuse::All),
        b"passed" => Ok(Reuse::Passed),
        b"fresh" => Ok(Reuse::Nothing),
        _ => Err(Stop::BadLine),
    }
}

/// Whether all hooks passed, a line for each unsteady one, and the report; or the refusal.
pub(crate) fn run_text(alloc: Global, ran: &Result<HooksRun, RunRefusal>) -> Result<Vec<u8>, Stop> {
    match ran {
        Ok(ran) => out_text(alloc, &ran.out),
        Err(refused) => {
            let text = format!(in alloc; "refused: {refused}\n")?;
            Ok(text.as_str().as_bytes().to_vec(alloc)?)
        }
    }
}

fn out_text(alloc: Global, out: &RunOut) -> Result<Vec<u8>, Stop> {
    let verdict: &[u8] = if out.passed { b"passed\n" } else { b"failed\n" };
    let mut bytes = verdict.to_vec(alloc)?;
    for id in out.unsteady.as_slice() {
        bytes.extend_from_slice(b"unsteady: ")?;
        bytes.extend_from_slice(id.as_str().as_bytes())?;
        bytes.extend_from_slice(b"\n")?;
    }
    bytes.extend_from_slice(out.report.as_slice())?;
    Ok(bytes)
}
