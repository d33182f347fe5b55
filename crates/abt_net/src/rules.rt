//! The rules of a net, each looked for by itself.

ghost use Rattle.std.specs.Prelude.{◌≡◌, ◌<◌, ◌≤◌, ◌↔◌, ◌⊎◌, IsTrue, IsSomeAnd, MatchOption, slice_get};
ghost use Rattle.abt_net.specs.Faults.{LeavesNet, HasWrongLength, VisitsTwice, IsPastLimits};
ghost use Rattle.abt_net.specs.Search.{NamesLeast, IsAnswered};
ghost use Rattle.abt_net.specs.Topology.{Topology, IsWithinRules};

use crate::channels::first_repeat;
use crate::conn::Conn;
use crate::fault::NetFault;
use crate::limits::{DELAY_MAX, PORTS_MAX};
use abt_rate::{CAPACITY_MAX, CONNECTIONS_MAX, TAU_MAX};
use std::alloc::Global;

// The first fault of these ports and connections, if there is one. Without memory the repeats of channels are found
// nevertheless, so that want of memory comes last.
pub(crate) fn first_fault(alloc: Global, capacities: &[u64], conns: &[Conn]) -> Option<NetFault>
    ensures { let net : Topology = record { capacities = capacities.now; conns = conns.now } in
        MatchOption result (IsWithinRules net) (IsAnswered net) }
{
    if let Some(place) = first_leaving(capacities.len(), conns) {
        return Some(NetFault::NoPort {
            connection: place as u64,
        });
    }
    if let Some(place) = first_of_wrong_length(conns) {
        return Some(NetFault::PathLength {
            connection: place as u64,
        });
    }
    if let Some(place) = first_visiting_twice(conns) {
        return Some(NetFault::PathRepeat {
            connection: place as u64,
        });
    }
    let (repeat, is_memory_refused) = first_repeat(alloc, conns);
    if let Some(place) = repeat {
        return Some(NetFault::VcRepeat {
            connection: place as u64,
        });
    }
    if is_past_limits(capacities, conns) {
        return Some(NetFault::Limit);
    }
    if is_memory_refused {
        return Some(NetFault::Memory);
    }
    None
}

// The lowest connection whose path names a port that the net doesn't have.
fn first_leaving(ports: usize, conns: &[Conn]) -> Option<usize>
    ensures { NamesLeast (λ c. IsSomeAnd (slice_get conns.now c) (LeavesNet ports)) result }
{
    conns.iter().position(|conn| conn.leaves_net(ports))
}

// The lowest connection whose path has no hop, or too many.
fn first_of_wrong_length(conns: &[Conn]) -> Option<usize>
    ensures { NamesLeast (λ c. IsSomeAnd (slice_get conns.now c) HasWrongLength) result }
{
    conns.iter().position(Conn::has_wrong_length)
}

// The lowest connection whose path visits a port twice.
fn first_visiting_twice(conns: &[Conn]) -> Option<usize>
    ensures { NamesLeast (λ c. IsSomeAnd (slice_get conns.now c) VisitsTwice) result }
{
    conns.iter().position(|conn| conn.visits_twice())
}

// Whether something is past its limit.
fn is_past_limits(capacities: &[u64], conns: &[Conn]) -> bool
    ensures { IsTrue result ↔ IsPastLimits (record { capacities = capacities.now; conns = conns.now }) }
{
    capacities.len() > PORTS_MAX
        || conns.len() > CONNECTIONS_MAX
        || capacities.iter().any(|units| *units > CAPACITY_MAX)
        || conns
            .iter()
            .any(|conn| conn.tau > TAU_MAX || conn.delay > DELAY_MAX)
}
