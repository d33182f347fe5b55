//! Plays of scenarios, shown.
ghost use Rattle.std.specs.Prelude.{◌+◌, IfErr, IfOk, OnOk};
ghost use Rattle.abt_perform.specs.Plans.{Tells};
ghost use Rattle.abt_text.specs.Streams.{ConsumesAtMost, text_max};
ghost use Rattle.abt_play.specs.Performing.{EndsBy, IsPlayOf, IsPlayShown, IsPlayTold, IsPlayUntold, IsUnplayed, show_line};

use crate::fault::ShowFault;
use crate::playing::{Played, play};
use abt_explain::told_text;
use abt_net::Net;
use abt_perform::{Fault, tell_fault, tell_text};
use abt_plans::Chances;
use abt_scenario::read_from;
use abt_text::put;
use std::alloc::Global;
use std::io::{Read, Write};

/// A scenario's play.
#[derive(Debug, Drop)]
pub struct ScenarioPlay {
    /// The net of the scenario.
    pub net: Net,
    /// The play.
    pub played: Played,
}

/// The line of a play that would have too many events.
const EVENTS_LINE: &str = "fault: play events 1000000\n";

/// Reads a scenario, plays its scripts, and writes what happened: how many events there were, each of them with its outcome and reason, and
/// who was granted what (docs/EXPLAIN.md). Nothing is written before the whole play is made.
///
/// # Errors
/// Why there is no play, with which nothing went out; or that the writer failed behind a part of the text.
pub fn show_play<R: Read, W: Write>(
    alloc: Global,
    chances: &Chances,
    reader: &mut R,
    writer: &mut W,
) -> Result<ScenarioPlay, ShowFault>
    ensures reads { ConsumesAtMost (R.remaining reader.old) (R.remaining reader.new) (text_max + 1) }
    ensures ok { IfOk result (λ shown. IsPlayShown shown (R.remaining reader.old) (W.contents writer.old)
        (W.contents writer.new)) }
    ensures err { IfErr result (λ fault.
        EndsBy fault (R.remaining reader.old) (W.contents writer.old) (W.contents writer.new)) }
{
    match played_from(alloc, chances, reader) {
        Ok(shown) => match tell_play(alloc, &shown, writer) {
            Ok(()) => Ok(shown),
            Err(fault) => Err(fault),
        },
        Err(fault) => Err(fault),
    }
}

// The play of the scenario that a reader has left.
fn played_from<R: Read>(
    alloc: Global,
    chances: &Chances,
    reader: &mut R,
) -> Result<ScenarioPlay, ShowFault>
    ensures reads { ConsumesAtMost (R.remaining reader.old) (R.remaining reader.new) (text_max + 1) }
    ensures ok { IfOk result (λ shown. IsPlayOf shown (R.remaining reader.old)) }
    ensures err { IfErr result (λ fault. IsUnplayed fault (R.remaining reader.old)) }
{
    let scenario = read_from(alloc, reader)?;
    match play(
        alloc,
        &scenario.net,
        scenario.scripts.as_slice(),
        scenario.operator.as_slice(),
        chances,
    ) {
        Ok(played) => Ok(ScenarioPlay {
            net: scenario.net,
            played,
        }),
        Err(why) => Err(ShowFault::from(why)),
    }
}

// Writes what happened in a play.
fn tell_play<W: Write>(alloc: Global, shown: &ScenarioPlay, writer: &mut W) -> Result<(), ShowFault>
    ensures ok { OnOk result (IsPlayTold shown.now (W.contents writer.old) (W.contents writer.new)) }
    ensures err { IfErr result (λ fault.
        IsPlayUntold fault shown.now (W.contents writer.old) (W.contents writer.new)) }
{
    let Ok(text) = told_text(alloc, &shown.net, shown.played.events.as_slice()) else {
        return Err(ShowFault::Named(Fault::Memory));
    };
    match put(writer, text.as_bytes()) {
        Ok(()) => Ok(()),
        Err(_) => Err(ShowFault::Named(Fault::Write)),
    }
}

/// Tells why a play isn't shown, as far as the writer takes it.
pub fn tell_show_fault<E: Write>(fault: ShowFault, errors: &mut E)
    ensures { Tells (show_line fault) (E.contents errors.old) (E.contents errors.new) }
{
    match fault {
        ShowFault::Events => tell_text(errors, EVENTS_LINE),
        ShowFault::Named(fault) => tell_fault(fault, errors),
    }
}
