//! A law of the definitions that the contracts cite: a function that returns nothing, and what it ensures is a
//! theorem about the definitions alone.

ghost use Rattle.hook_cli.specs.CommandOver.{EachIsPlayed};

use child_port::Children;
use commit_flow::Host;
use sqlite::Alter;

/// What [`command_over`](crate::command_over) makes of a command is a command of a play, with the promise on stops.
/// So the laws of `commit_flow` about lists of commands, and about sessions that are stopped, are about what the
/// program does.
pub fn each_command_is_played<S: Alter, C: Children>(host: &Host<S>, children: &C)
    ensures { EachIsPlayed S.Store (C.tells children.now) }
{}
