//! A source that carries out commands, in whichever state it is.
ghost use Rattle.std.specs.Prelude.{◌≡◌, [], ◌++◌};
ghost use Rattle.abt_actor.specs.Actor.{actor_of};
ghost use Rattle.abt_actor.specs.Commands.{command_answer, command_adds};
ghost use Rattle.abt_model.specs.declared.command.SourceCommand.{SourceCommand as CommandSpec};

use abt_actor::SourceActor;
use abt_cell::Vc;
use abt_model::{Outcome, SourceCommand};

/// What a new source makes of its first command.
pub fn first_outcome(vc: Vc, command: &SourceCommand) -> Outcome
    ensures { result ≡ command_answer vc [] command.now }
{
    let mut actor = SourceActor::new(vc);
    actor.step(command)
}
