//! The outcome of a cell's arrival, what it adds, and what it makes of the port.
ghost use Rattle.std.specs.Prelude.{◌≡◌, ◌+◌, ◌≤◌, ◌&&◌, nat_lt, nat_le, List, length};
ghost use Rattle.std.specs.Option.{option_map_or};
ghost use Rattle.abt_actor.specs.Facts.{facts_in};
ghost use Rattle.abt_facts.specs.declared.fact.Fact.{Fact as FactSpec};
ghost use Rattle.abt_facts.specs.Cells.{emitted_of, fence_of};
ghost use Rattle.abt_index.specs.FactIndex.{IsLogOf};
ghost use Rattle.abt_model.specs.Past.{Past};
ghost use Rattle.abt_model.specs.declared.event.Event.TheVariants.{Arrive};
ghost use Rattle.abt_model.specs.Outcomes.{after_event};
ghost use Rattle.abt_net.specs.Topology.{Topology};
ghost use Rattle.abt_world.specs.Looked.{looks_at_cell, looks_to_take};
ghost use Rattle.abt_world.specs.Steps as steps;
ghost use Rattle.abt_world.specs.Steps.{IsConnAt, ArePorts, Happens};
ghost use Rattle.abt_world.specs.Touches.{Touches};

use crate::hops::port_at;
use crate::messages::not_enabled;
use abt_actor::Added;
use abt_facts::Fact;
use abt_index::{FactIndex, Lookups};
use abt_model::{Cause, Outcome};
use abt_net::Conn;
use abt_node::Port;

// Whether a cell is below the fence.
fn is_fenced(log: &FactIndex, cell: u64) -> bool
    ensures { (facts : List FactSpec) → IsLogOf facts log.now → result ≡ nat_lt cell (fence_of facts) }
{
    log.is_behind_last(cell) || cell < log.delivered_mark()
}

// Whether the access line delivers at a moment what was emitted at another.
fn is_in_time(conn: &Conn, emission: u64, at: u64) -> bool
    ensures { result ≡
        (nat_le (emission + conn.now.delay) at && nat_le at (emission + conn.now.delay + conn.now.tau)) }
{
    match at.checked_sub(emission) {
        Some(taken) => taken >= conn.delay && taken - conn.delay <= conn.tau,
        None => false,
    }
}

// Why a cell can't arrive, if it can't.
fn arrival_cause(
    conn: &Conn,
    log: &FactIndex,
    emitted: u64,
    cell: u64,
    at: u64,
    looks: &mut Lookups,
) -> Option<Cause>
    ensures value { (facts : List FactSpec) → IsLogOf facts log.now → emitted ≡ emitted_of facts →
        result ≡ steps.arrival_cause conn.now facts cell at }
    ensures looks { looks.new ≤ looks.old + 1 }
    ensures counted { looks.old + 1 ≤ u64.MAX → looks.new ≡ looks.old + option_map_or looks_at_cell result 1 }
{
    if cell >= emitted {
        Some(Cause::NotSent)
    } else if is_fenced(log, cell) {
        Some(Cause::Fenced)
    } else if !is_in_time(conn, log.emission(cell, looks), at) {
        Some(Cause::Delay)
    } else if at < log.last_arrival() {
        Some(Cause::ClockBack)
    } else {
        None
    }
}

// A cell comes to the first hop.
pub(crate) fn arrive(
    place: u16,
    conn: &Conn,
    log: &FactIndex,
    emitted: u64,
    ports: &mut [Port],
    cell: u64,
    at: u64,
    looks: &mut Lookups,
) -> (Outcome, Added)
    ensures outcome { (net : Topology) (past : Past) (facts : List FactSpec) → IsLogOf facts log.now →
        IsConnAt net past place conn.now facts →
        ArePorts net past ports.old → emitted ≡ emitted_of facts →
        Happens net past place (Arrive place cell at) result.0 (facts_in result.1)
        × ArePorts net (after_event net past (Arrive place cell at)) ports.new }
    ensures touches { Touches (steps.port_at conn.now.path 1) conn.now.vc ports.old ports.new }
    ensures looks { looks.new ≤ looks.old + 3 }
    ensures counted { (net : Topology) (past : Past) (facts : List FactSpec) → IsLogOf facts log.now →
        IsConnAt net past place conn.now facts →
        ArePorts net past ports.old → emitted ≡ emitted_of facts → looks.old + 3 ≤ u64.MAX →
        looks.new ≡ looks.old + looks_to_take (length conn.now.path) (Arrive place cell at) result.0 }
{
    if let Some(cause) = arrival_cause(conn, log, emitted, cell, at, looks) {
        return not_enabled(cause);
    }
    let Some(port) = port_at(conn, 1) else {
        return not_enabled(Cause::Unknown);
    };
    let port = usize::from(port);
    if port >= ports.len() {
        return not_enabled(Cause::Unknown);
    }
    let Some(rate) = ports[looks.counting(port)].held(conn.vc) else {
        return not_enabled(Cause::Unknown);
    };
    let Ok(verdict) = ports[looks.counting(port)].arrive(conn.vc, at) else {
        return not_enabled(Cause::Unknown);
    };
    let fact = Fact::Arrived {
        cell,
        at,
        rate,
        verdict,
    };
    (Outcome::Arrived(verdict), Added::One(fact))
}
