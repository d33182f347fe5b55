//! What one event does to its connection.
ghost use Rattle.std.specs.Prelude.{◌≡◌, ℕ, ◌+◌, ◌<◌, ◌≤◌, ◌++◌, List, length, Some, IfSome, IsNone};
ghost use Rattle.abt_actor.specs.Actor.{actor_of};
ghost use Rattle.abt_actor.specs.Facts.{facts_in};
ghost use Rattle.abt_facts.specs.Cells.{emitted_of};
ghost use Rattle.abt_facts.specs.declared.fact.Fact.{Fact as FactSpec};
ghost use Rattle.abt_index.specs.FactIndex.{IsLogOf};
ghost use Rattle.abt_model.specs.Past.{Past};
ghost use Rattle.abt_model.specs.Events.{AsksRate};
ghost use Rattle.abt_model.specs.Outcomes.{conn_of, after_event};
ghost use Rattle.abt_model.specs.Targets.{event_at_source, event_at_hop, hop_met_by};
ghost use Rattle.abt_net.specs.Topology.{Topology};
ghost use Rattle.abt_world.specs.Looked.{looks_to_take};
ghost use Rattle.abt_world.specs.Steps as steps;
ghost use Rattle.abt_world.specs.Steps.{IsConnAt, ArePorts, Happens};
ghost use Rattle.abt_world.specs.Touches as touches;
ghost use Rattle.abt_world.specs.Touches.{Touches};

use crate::cells::arrive;
use crate::hops::{answer, port_at, request};
use crate::messages::{not_enabled, told, turn};
use abt_actor::{Added, SourceActor};
use abt_index::{FactIndex, Lookups};
use abt_model::{Cause, Event, HopEvent, Outcome, SourceCommand, SourceEvent, Target};
use abt_net::Conn;
use abt_node::Port;

// What an event asks for is a rate, as a fact for the proofs: its body only looks at the rate.
pub(crate) fn asks_rate(event: &Event)
    ensures { AsksRate event.now }
{
    if let Event::Ask { rate, .. } = *event {
        rate.units();
    }
}

// The place of an event's connection, if it is of one of these.
pub(crate) fn place_of(event: &Event, conns: &[Conn]) -> Option<usize>
    ensures some { IfSome result (λ place. (conn_of event.now ≡ Some place) × (place < length conns.now)) }
    ensures none { IsNone result → (c : ℕ) → conn_of event.now ≡ Some c → length conns.now ≤ c }
{
    let place = usize::from(event.conn()?);
    if place < conns.len() {
        Some(place)
    } else {
        None
    }
}

// The port that an event of a connection comes to, if it comes to one.
pub(crate) fn visited(conn: &Conn, event: &Event) -> Option<u16>
    ensures { result ≡ touches.visited conn.now event.now }
{
    match event.target() {
        Target::Hop { event, .. } => port_at(conn, event.hop()),
        Target::Source { .. } | Target::End { .. } | Target::Port { .. } => None,
    }
}

// What happens at the source of a connection: its actor carries out a command, or takes an answer that the first hop sent.
fn at_source(
    place: u16,
    conn: &Conn,
    log: &FactIndex,
    actor: &mut SourceActor,
    event: &SourceEvent,
    looks: &mut Lookups,
) -> (Outcome, Added)
    ensures outcome { (net : Topology) (past : Past) (facts : List FactSpec) → IsLogOf facts log.now →
        IsConnAt net past place conn.now facts → actor.old ≡ actor_of conn.now.vc facts →
        Happens net past place (event_at_source place event.now) result.0 (facts_in result.1)
        × (actor.new ≡ actor_of conn.now.vc (facts_in result.1 ++ facts)) }
    ensures looks { looks.new ≤ looks.old + 2 }
    ensures counted { (net : Topology) (past : Past) (facts : List FactSpec) → IsLogOf facts log.now →
        IsConnAt net past place conn.now facts → actor.old ≡ actor_of conn.now.vc facts →
        looks.old + 2 ≤ u64.MAX →
        looks.new ≡
        looks.old + looks_to_take (length conn.now.path) (event_at_source place event.now) result.0 }
{
    match *event {
        SourceEvent::Start { now } => actor.carry_out(&SourceCommand::Start { now }),
        SourceEvent::Ask { rate, plan } => actor.carry_out(&SourceCommand::Ask { rate, plan }),
        SourceEvent::Again => actor.carry_out(&SourceCommand::Again),
        SourceEvent::Crash => actor.carry_out(&SourceCommand::Crash),
        SourceEvent::Emit { now } => actor.carry_out(&SourceCommand::Emit { now }),
        SourceEvent::Told { seq, granted } => told(place, conn, log, actor, seq, granted, looks),
    }
}

// What happens at a hop of a connection's path, of whose cells so many were emitted: its port takes what comes.
fn at_hop(
    place: u16,
    conn: &Conn,
    log: &FactIndex,
    emitted: u64,
    ports: &mut [Port],
    event: &HopEvent,
    looks: &mut Lookups,
) -> (Outcome, Added)
    ensures outcome { (net : Topology) (past : Past) (facts : List FactSpec) → IsLogOf facts log.now →
        IsConnAt net past place conn.now facts → ArePorts net past ports.old → emitted ≡ emitted_of facts →
        Happens net past place (event_at_hop place event.now) result.0 (facts_in result.1)
        × ArePorts net (after_event net past (event_at_hop place event.now)) ports.new }
    ensures touches { Touches (steps.port_at conn.now.path (hop_met_by event.now)) conn.now.vc ports.old
        ports.new }
    ensures looks { looks.new ≤ looks.old + 3 }
    ensures counted { (net : Topology) (past : Past) (facts : List FactSpec) → IsLogOf facts log.now →
        IsConnAt net past place conn.now facts → ArePorts net past ports.old → emitted ≡ emitted_of facts →
        looks.old + 3 ≤ u64.MAX →
        looks.new ≡ looks.old + looks_to_take (length conn.now.path) (event_at_hop place event.now) result.0 }
{
    match *event {
        HopEvent::Arrive { cell, at } => arrive(place, conn, log, emitted, ports, cell, at, looks),
        HopEvent::Request { hop, seq } => request(place, conn, log, ports, hop, seq, looks),
        HopEvent::Answer { hop, seq, granted } => answer(
            place, conn, log, ports, hop, seq, granted, looks,
        ),
    }
}

// An event of a connection happens: its actor or a port takes it, or nothing does.
pub(crate) fn dispatch(
    conn: &Conn,
    log: &FactIndex,
    actor: &mut SourceActor,
    ports: &mut [Port],
    event: &Event,
    looks: &mut Lookups,
) -> (Outcome, Added)
    ensures outcome { (net : Topology) (past : Past) (c : ℕ) (facts : List FactSpec) → IsLogOf facts log.now →
        AsksRate event.now → conn_of event.now ≡ Some c → IsConnAt net past c conn.now facts →
        ArePorts net past ports.old →
        actor.old ≡ actor_of conn.now.vc facts →
        Happens net past c event.now result.0 (facts_in result.1) ×
        ArePorts net (after_event net past event.now) ports.new
        × (actor.new ≡ actor_of conn.now.vc (facts_in result.1 ++ facts)) }
    ensures touches { Touches (touches.visited conn.now event.now) conn.now.vc ports.old ports.new }
    ensures looks { looks.new ≤ looks.old + 3 }
    ensures counted { (net : Topology) (past : Past) (c : ℕ) (facts : List FactSpec) → IsLogOf facts log.now →
        conn_of event.now ≡ Some c → IsConnAt net past c conn.now facts → ArePorts net past ports.old →
        actor.old ≡ actor_of conn.now.vc facts → looks.old + 3 ≤ u64.MAX →
        looks.new ≡ looks.old + looks_to_take (length conn.now.path) event.now result.0 }
{
    match event.target() {
        Target::Source { conn: place, event } => at_source(place, conn, log, actor, &event, looks),
        Target::Hop { conn: place, event } => at_hop(
            place,
            conn,
            log,
            actor.cells(),
            ports,
            &event,
            looks,
        ),
        Target::End { conn: place, seq } => turn(place, conn, log, seq, looks),
        Target::Port { .. } => not_enabled(Cause::Unknown),
    }
}
