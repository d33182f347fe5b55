//! Looks at states and seats, each with the room for the journals at hand.
ghost use Rattle.std.specs.Prelude.{◌≡◌, ◌≢◌, ◌≤◌, ◌^◌, [], IfOk, IfNone, IfSome, length, vec_len, vec_capacity};
ghost use Rattle.abt_journal.specs.Foreign.{AreOfNet};
ghost use Rattle.abt_journal.specs.Gathered.{journals_of, CountsFit};
ghost use Rattle.abt_journal.specs.Missing.{AllInOrder};
ghost use Rattle.abt_journal.specs.Faults.{IsFirstFault};
ghost use Rattle.abt_journal.specs.declared.gather_fault.GatherFault.{GatherFault};

mod opening;
mod receipts;

use crate::gather_fault::GatherFault;
use crate::{Entry, PortState, Seat};
use abt_net::Net;
use opening::first_foreign;
use receipts::{counts_fit, first_missing};
use std::alloc::{AllocError, Global};

// What gathering takes memory for: how much is seen of each port's journal, which callers have a seat, and the journals.
#[derive(Drop)]
pub(crate) struct Room {
    pub(crate) seen: Vec<u64>,
    pub(crate) taken: Vec<bool>,
    pub(crate) ports: Vec<Vec<Entry>>,
}

impl Room {
    // Room for so many ports and callers.
    pub(crate) fn for_run(alloc: Global, ports: usize, callers: usize) -> Result<Room, AllocError>
        ensures seen { IfOk result (λ room. vec_len room.seen ≡ ports) }
        ensures taken { IfOk result (λ room. vec_len room.taken ≡ callers) }
        ensures ports { IfOk result (λ room. (room.ports.items ≡ []) × (ports ≤ vec_capacity room.ports)) }
    {
        let seen = vec![in alloc; 0u64; ports]?;
        let taken = vec![in alloc; false; callers]?;
        let ports = Vec::with_capacity(alloc, ports)?;
        Ok(Room { seen, taken, ports })
    }
}

// The first fault of states and seats. None is looked for before there is room, so no other one comes in place of Memory.
pub(crate) fn first_fault(
    room: &mut Room,
    net: &Net,
    states: &[PortState],
    seats: &[Seat],
) -> Option<GatherFault>
    requires seen { vec_len room.old.seen ≡ length states.now }
    requires taken { vec_len room.old.taken ≡ 2 ^ 16 }
    ensures some { IfSome result (IsFirstFault net.now states.now seats.now) }
    ensures memory { IfSome result (λ fault. fault ≢ GatherFault.Memory) }
    ensures net { IfNone result (AreOfNet net.now states.now) }
    ensures counts { IfNone result (CountsFit (journals_of states.now) seats.now) }
    ensures order { IfNone result (AllInOrder (journals_of states.now) seats.now) }
    ensures room { room.new.ports ≡ room.old.ports }
{
    if let Some(port) = first_foreign(net, states) {
        return Some(GatherFault::Foreign { port });
    }
    if !counts_fit(states, seats, &mut room.taken) {
        return Some(GatherFault::Count);
    }
    let (port, place) = first_missing(states, seats, &mut room.seen)?;
    Some(GatherFault::Missing { port, place })
}
