//! The words of a switch and a source as processes.
ghost use Rattle.std.specs.Prelude.{◌≡◌, ◌⊎◌, ◌^◌, ◌↔◌, Some, None, IfErr, IfOk, IsTrue, codes};
ghost use Rattle.abt_perform.specs.declared.plan.WordsFault.TheVariants.{Memory};
ghost use Rattle.abt_text.specs.Words.{number_below};
ghost use Rattle.abt_cli.specs.Commands.{IsAllowed, IsCommandOf};
ghost use Rattle.abt_cli.specs.Refused.{AreNoNumbers, IsNoEpochIn, IsRefused};
ghost use Rattle.abt_cli.specs.Words.{IsEpochIn, NameOneTwice, NamePorts, StandsTwice, text_in, word_in, words_in};

use crate::command::Command;
use crate::live_names::{BINARY, CLOCK, JOURNAL, NEW, STORE};
use crate::names::{CONNECTION, NET, PORT};
use crate::readers::{numbers_of, short_of, word_in, wrong_words};
use abt_perform::WordsFault;
use abt_plans::{SourcePlan, SwitchPlan};
use abt_text::u64_of;
use clap::ArgMatches;
use std::alloc::Global;

// The rule of a port.
const PORT_RULE: &str = "--port names a port by its number in the net, digits alone";

// The rule of ports together.
const ONCE_RULE: &str = "--port names each port once";

// The rule of a connection.
const CONNECTION_RULE: &str =
    "CONNECTION is the number of a connection in the net, the first 0, digits alone";

// The rule of an epoch.
const EPOCH_RULE: &str =
    "--clock has the nanoseconds of the machine's monotonic clock at which the run began, 1 to 19 digits alone";

pub(crate) fn switch_of(alloc: Global, found: &ArgMatches<'_>) -> Result<Command, WordsFault>
    ensures limits { IfOk result IsAllowed }
    ensures command { IfOk result (IsCommandOf (codes "switch") found.now) }
    ensures err { IfErr result (IsRefused (codes "switch") found.now) }
{
    let ports = ports_of(alloc, found)?;
    let file = word_in(alloc, found, NET)?;
    let journal = word_in(alloc, found, JOURNAL)?;
    Ok(Command::Switch(SwitchPlan {
        file,
        ports,
        journal,
        is_binary: found.get_flag(BINARY),
    }))
}

// The ports that are named, in their order.
fn ports_of(alloc: Global, found: &ArgMatches<'_>) -> Result<Vec<u16>, WordsFault>
    ensures ok { IfOk result (λ ports. NamePorts (words_in found.now (codes "port")) ports.items) }
    ensures err { IfErr result (λ fault. (fault ≡ Memory) ⊎
        AreNoNumbers (words_in found.now (codes "port")) ⊎ NameOneTwice (words_in found.now (codes "port"))) }
{
    let ports = numbers_of(alloc, found.get_strs(PORT).unwrap_or(&[]), PORT_RULE)?;
    if stands_twice(ports.as_slice()) {
        return Err(wrong_words(alloc, ONCE_RULE)?);
    }
    Ok(ports)
}

// Whether a number stands there twice.
fn stands_twice(numbers: &[u16]) -> bool
    ensures { IsTrue result ↔ StandsTwice numbers.now }
{
    for (place, number) in numbers.iter().enumerate() {
        if numbers[..place].contains(number) {
            return true;
        }
    }
    false
}

pub(crate) fn source_of(alloc: Global, found: &ArgMatches<'_>) -> Result<Command, WordsFault>
    ensures limits { IfOk result IsAllowed }
    ensures command { IfOk result (IsCommandOf (codes "source") found.now) }
    ensures err { IfErr result (IsRefused (codes "source") found.now) }
{
    let conn = connection_of(alloc, found)?;
    let file = word_in(alloc, found, NET)?;
    let store = word_in(alloc, found, STORE)?;
    let journal = word_in(alloc, found, JOURNAL)?;
    let is_binary = found.get_flag(BINARY);
    let epoch = epoch_of(alloc, found)?;
    Ok(Command::Source(SourcePlan {
        file,
        conn,
        store,
        journal,
        is_new: found.get_flag(NEW),
        is_binary,
        epoch,
    }))
}

// What the machine's clock counted when the run began, if moments are to be read from it.
fn epoch_of(alloc: Global, found: &ArgMatches<'_>) -> Result<Option<u64>, WordsFault>
    ensures ok { IfOk result (IsEpochIn (text_in found.now (codes "clock"))) }
    ensures err { IfErr result (λ fault. (fault ≡ Memory) ⊎
        IsNoEpochIn (text_in found.now (codes "clock"))) }
{
    let Some(word) = found.get_str(CLOCK) else {
        return Ok(None);
    };
    match u64_of(word) {
        Some(epoch) => Ok(Some(epoch)),
        None => Err(wrong_words(alloc, EPOCH_RULE)?),
    }
}

// The connection that is named.
fn connection_of(alloc: Global, found: &ArgMatches<'_>) -> Result<u16, WordsFault>
    ensures ok { IfOk result
        (λ conn. number_below (2 ^ 16) (word_in found.now (codes "CONNECTION")) ≡ Some conn) }
    ensures err { IfErr result (λ fault. (fault ≡ Memory) ⊎
        (number_below (2 ^ 16) (word_in found.now (codes "CONNECTION")) ≡ None)) }
{
    short_of(
        alloc,
        found.get_str(CONNECTION).unwrap_or(""),
        CONNECTION_RULE,
    )
}
