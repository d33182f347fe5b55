//! A port with a journal, and a caller with receipts.
ghost use Rattle.std.specs.Prelude.{◌≡◌, [], ◌∷◌, IfOk, length};
ghost use Rattle.abt_journal.specs.Opening.{IsOpening};
ghost use Rattle.abt_journal.specs.Replay.{reply_by};

use abt_journal::{Entry, PortInput, PortState, Seat, ServeFault};
use abt_node::{Onward, Port};
use std::alloc::Global;

/// The journal of a port that did nothing before, once a caller has had it do one thing.
pub fn journal_of_one(
    alloc: Global,
    port: Port,
    caller: u16,
    input: PortInput,
) -> Result<Vec<Entry>, ServeFault>
    requires { IsOpening port }
    ensures { IfOk result (λ entries. entries.items ≡
        record { place = 0; caller = caller; input = input; reply = reply_by port input } ∷ []) }
{
    // Names a type within an entry, without which the checker can't follow one.
    let _ = Onward::Pass;
    let mut seat = Seat::new(alloc, caller);
    let mut state = PortState::new(alloc, port);
    seat.step(0, &mut state, input)?;
    Ok(state.into_entries())
}
