//! The journals of a run, with the receipts for all their entries.
ghost use Rattle.std.specs.Prelude.{◌≡◌, ◌≤◌, [], All, IfOk, IfErr, vec_len, vec_capacity};
ghost use Rattle.abt_journal.specs.Replay.{IsHistory};
ghost use Rattle.abt_journal.specs.Foreign.{AreOfNet, AreHistories};
ghost use Rattle.abt_journal.specs.Gathered.{journals_of, AreGathered, AreReceipts};
ghost use Rattle.abt_journal.specs.Faults.{IsFirstFault};

use crate::gather_fault::GatherFault;
use crate::journals::Journals;
use crate::looks::{Room, first_fault};
use crate::{Entry, PortState, Seat};
use abt_net::Net;
use std::alloc::Global;

// The numbers of callers have 16 bits.
const CALLERS: usize = 65_536;

/// Takes the journals out of the states of all ports of a net, by the numbers of the ports, if the receipts of the
/// seats are just their entries: each is for one entry, each entry has one, and each caller's are in its order
/// (docs/RULES.md, "Journals"). Memory is looked for first. Otherwise the fault is the first that applies, and all is
/// dropped.
pub fn gather(
    alloc: Global,
    net: &Net,
    states: Vec<PortState>,
    seats: Vec<Seat>,
) -> Result<Journals, GatherFault>
    ensures value { IfOk result (λ journals. journals ≡ journals_of states.items) }
    ensures net { IfOk result (λ _. AreOfNet net.now states.items) }
    ensures histories { IfOk result (AreHistories net.now) }
    ensures gathered { IfOk result (λ journals. AreGathered journals seats.items) }
    ensures receipts { IfOk result (λ journals. AreReceipts journals seats.items) }
    ensures err { IfErr result (IsFirstFault net.now states.items seats.items) }
{
    let mut room = Room::for_run(alloc, states.len(), CALLERS)?;
    if let Some(fault) = first_fault(&mut room, net, &states, &seats) {
        return Err(fault);
    }
    Ok(entries_of(states, room.ports))
}

// The journals, in the room that is there for them.
fn entries_of(states: Vec<PortState>, mut ports: Vec<Vec<Entry>>) -> Journals
    requires empty { ports.items ≡ [] }
    requires room { vec_len states ≤ vec_capacity ports }
    ensures value { result ≡ journals_of states.items }
    ensures histories { All (λ s. IsHistory s.opening s.entries) states.items }
{
    for state in states {
        ports.push_reserved(state.into_entries());
    }
    Journals { ports }
}
