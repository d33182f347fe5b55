//! Scenarios from any reader, with the lines of their events.
ghost use Rattle.std.specs.Prelude.{◌≡◌, ◌≢◌, ◌⊎◌, ◌+◌, Err, IfOk, IfErr, IfSome};
ghost use Rattle.abt_text.specs.Streams.{ConsumesAtMost, text_max};
ghost use Rattle.abt_scenario.specs.Engine.{Explains};
ghost use Rattle.abt_scenario.specs.Scenarios.{Reads};
ghost use Rattle.abt_places.specs.Placed.{IsPlacedIn};

use crate::lines_of_events::event_lines;
use abt_scenario::{EngineFault, Scenario, ScenarioFault, read};
use abt_text::{TextFault, octets_of};
use std::alloc::Global;
use std::io::Read;

/// A scenario, and the line of its text in which each event stands, counted from 1. There are as many lines as events, or none.
#[derive(Debug, Drop)]
pub struct Placed {
    pub scenario: Scenario,
    pub lines: Vec<u64>,
}

/// The scenario of the text that a reader has left, with the lines of its events. At most one octet more than
/// [`TEXT_MAX`](abt_text::TEXT_MAX) is taken, which shows that the text is too long; a failure of the reader ends the reading at once.
pub fn read_placed<R: Read>(alloc: Global, reader: &mut R) -> Result<Placed, EngineFault>
    ensures ok { IfOk result (λ placed. IfSome (R.remaining reader.old) (IsPlacedIn placed)) }
    ensures err { IfErr result (λ fault. IfSome (R.remaining reader.old) (Explains fault)) }
    ensures reads { IfErr result (λ fault. fault ≢ EngineFault.Write) }
    ensures stops { ConsumesAtMost (R.remaining reader.old) (R.remaining reader.new) (text_max + 1) }
{
    let octets = match octets_of(alloc, reader) {
        Ok(octets) => octets,
        Err(TextFault::Read) => return Err(EngineFault::Read),
        Err(TextFault::TooLong) => return Err(EngineFault::TooLong),
        Err(TextFault::Memory) => return Err(EngineFault::Memory),
    };
    let Ok(text) = std::str::from_utf8(octets.as_slice()) else {
        return Err(EngineFault::NotUtf8);
    };
    match placed_in(alloc, text) {
        Ok(placed) => Ok(placed),
        Err(ScenarioFault::Memory) => Err(EngineFault::Memory),
        Err(fault) => Err(EngineFault::Scenario(fault)),
    }
}

// The scenario of a text, with the lines of its events.
fn placed_in(alloc: Global, text: &str) -> Result<Placed, ScenarioFault>
    ensures ok { IfOk result (λ placed. IsPlacedIn placed text.now) }
    ensures err { IfErr result (λ fault. (fault ≡ ScenarioFault.Memory) ⊎ Reads text.now (Err fault)) }
{
    let scenario = read(alloc, text)?;
    let lines = event_lines(alloc, text, scenario.events.as_slice())?;
    Ok(Placed { scenario, lines })
}
