//! The commands that change the cached results of a repository's host, and nothing else.
//!
//! The contracts cite `specs/CommandOver.antt`.

ghost use Rattle.hook_cli.specs.CommandOver.{IsForgetOver, IsLimitOver};
ghost use Rattle.text_output.specs.Outputs.{output_of};

use crate::CommandEnding;
use crate::printing::{say_forgotten, say_remembered, tell};
use command_line::AnswerLimit;
use commit_flow::Host;
use sqlite::Alter;
use std::io::Write;

/// `forget`: removes all cached results, and prints how many there were.
pub(crate) fn forget<S: Alter, O: Write, E: Write>(
    host: &mut Host<S>,
    out: &mut O,
    err: &mut E,
) -> CommandEnding
    ensures { IsForgetOver S.Store host.old host.new (output_of (O.contents out.old) (O.contents out.new))
        (output_of (E.contents err.old) (E.contents err.new)) result }
{
    match host.forget() {
        Ok(number) => say_forgotten(out, err, number),
        Err(refusal) => tell(err, &refusal),
    }
}

/// `memory` with a limit: sets how many results are cached at most, and prints how many are left.
pub(crate) fn set_limit<S: Alter, O: Write, E: Write>(
    limit: &AnswerLimit,
    host: &mut Host<S>,
    out: &mut O,
    err: &mut E,
) -> CommandEnding
    ensures { IsLimitOver S.Store host.old host.new limit.now (output_of (O.contents out.old) (O.contents out.new))
        (output_of (E.contents err.old) (E.contents err.new)) result }
{
    match host.set_limit(limit.number()) {
        Ok(number) => say_remembered(out, err, number),
        Err(refusal) => tell(err, &refusal),
    }
}
