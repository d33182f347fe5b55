//! The words of an audit of one log.
ghost use Rattle.std.specs.Prelude.{◌≡◌, ◌⊎◌, IfErr, IfOk, option_map};
ghost use Rattle.abt_perform.specs.declared.plan.WordsFault.TheVariants.{Memory};
ghost use Rattle.abt_cli.specs.Commands.{IsActorIn, IsLogActor, IsLogAudit};
ghost use Rattle.abt_cli.specs.Refused.{HasNoLogActor, IsNoActorIn};

use crate::command::LogCommand;
use crate::names::{JSON, OF_SOURCE, PORT, QUIET};
use crate::readers::{files_in, short_of};
use abt_perform::WordsFault;
use abt_weave::Actor;
use clap::ArgMatches;
use std::alloc::{AllocError, Global};

// The rule of a port.
const PORT_RULE: &str = "--port names a port by its number in the net, digits alone";

// The rule of a source.
const SOURCE_RULE: &str =
    "--source names the source of a connection by its number in the net, digits alone";

// The port or the source whose log is to be judged alone, if one is named.
pub(crate) fn log_actor(alloc: Global, found: &ArgMatches<'_>) -> Result<Option<Actor>, WordsFault>
    ensures ok { IfOk result (IsLogActor found.now) }
    ensures err { IfErr result (λ fault. (fault ≡ Memory) ⊎ HasNoLogActor found.now) }
{
    actor_in(alloc, found.get_str(PORT), found.get_str(OF_SOURCE))
}

// The one that a word for a port or one for a source names.
fn actor_in(
    alloc: Global,
    port: Option<&str>,
    source: Option<&str>,
) -> Result<Option<Actor>, WordsFault>
    ensures ok { IfOk result
        (IsActorIn (option_map (λ word. word.now) port.entry) (option_map (λ word. word.now) source.entry)) }
    ensures err { IfErr result (λ fault. (fault ≡ Memory) ⊎
        IsNoActorIn (option_map (λ word. word.now) port.entry) (option_map (λ word. word.now) source.entry)) }
{
    if let Some(word) = port {
        return match short_of(alloc, word, PORT_RULE) {
            Ok(port) => Ok(Some(Actor::Port(port))),
            Err(fault) => Err(fault),
        };
    }
    let Some(word) = source else {
        return Ok(None);
    };
    match short_of(alloc, word, SOURCE_RULE) {
        Ok(source) => Ok(Some(Actor::Source(source))),
        Err(fault) => Err(fault),
    }
}

// The audit of the log of one port or one source.
pub(crate) fn log_audit(
    alloc: Global,
    found: &ArgMatches<'_>,
    actor: Actor,
) -> Result<LogCommand, AllocError>
    ensures command { IfOk result (IsLogAudit found.now) }
    ensures same { IfOk result (λ command. command.actor ≡ actor) }
{
    let files = files_in(alloc, found)?;
    Ok(LogCommand {
        files,
        actor,
        json: found.get_flag(JSON),
        quiet: found.get_flag(QUIET),
    })
}
