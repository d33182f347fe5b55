//! What an entry at which a journal is stuck misses, found where the events before it leave a net.
ghost use Rattle.std.specs.Prelude.{◌≡◌, ◌≤◌, ◌==◌, ◌&&◌, List, Some, length};
ghost use Rattle.abt_model.specs.Run.{facts_after};
ghost use Rattle.abt_model.specs.declared.event.Event.{Event as EventSpec};
ghost use Rattle.abt_net.specs.Paths.{hop_of};
ghost use Rattle.abt_net.specs.Topology.{Topology, conn_at};
ghost use Rattle.abt_world.specs.Readings.{asked_for};
ghost use Rattle.abt_audit.specs.Missing as spec;
ghost use Rattle.abt_audit.specs.Standing.{Stands};

use crate::coming::arrival_missing;
use crate::missing::Missing;
use crate::standing::Standing;
use abt_cell::Vc;
use abt_journal::PortInput;
use abt_model::Event;
use abt_net::{Conn, Net};
use abt_rate::Rate;

// The number of the connection that has this channel.
fn number_in(net: &Net, vc: Vc) -> Option<u16>
    ensures { result ≡ spec.number_in net.now.conns vc }
{
    net.find(vc)
}

// The hop at which a path visits a port, 0 if it doesn't.
fn hop_on(conn: &Conn, port: u16) -> u16
    requires { length conn.now.path ≤ u16.MAX }
    ensures { result ≡ hop_of conn.now.path port }
{
    match conn.path.hop_of(port) {
        Some(hop) => hop as u16,
        None => 0,
    }
}

// The message that an event takes on, and where it lies.
pub(crate) fn message_missing(standing: &Standing<'_>, event: Event) -> Missing
    ensures { (net : Topology) (events : List EventSpec) →
        Stands net events standing.now.world standing.now.sightings →
        result ≡ spec.message_missing net (facts_after net events) event }
{
    Missing::Message {
        event,
        sought: standing.sightings.sought(&event),
    }
}

// Whether these are the rates that were asked for.
fn are_asked(floor: Rate, ask: Rate, asked: (Rate, Rate)) -> bool
    ensures { result ≡ (floor == asked.0 && ask == asked.1) }
{
    floor == asked.0 && ask == asked.1
}

// A message has to be asked for, under its number and with its rates; one that was misses something else.
fn asked_missing(
    standing: &Standing<'_>,
    conn: u16,
    seq: u32,
    floor: Rate,
    ask: Rate,
    other: Missing,
) -> Missing
    ensures { (net : Topology) (events : List EventSpec) →
        Stands net events standing.now.world standing.now.sightings →
        result ≡ spec.asked_missing conn seq floor ask
        (asked_for net (facts_after net events) conn seq) other }
{
    let Some((asked_floor, asked_ask)) = standing.world.asked(conn, seq) else {
        return Missing::Unasked { conn, seq };
    };
    if are_asked(floor, ask, (asked_floor, asked_ask)) {
        return other;
    }
    Missing::OtherRates {
        conn,
        seq,
        floor: asked_floor,
        ask: asked_ask,
    }
}

// A request at the first hop stands beside an entry of its source.
fn request_missing(standing: &Standing<'_>, conn: u16, hop: u16, place: u64, seq: u32) -> Missing
    ensures { (net : Topology) (events : List EventSpec) →
        Stands net events standing.now.world standing.now.sightings →
        result ≡ spec.request_missing net (facts_after net events) conn hop place seq }
{
    if hop == 1 {
        return Missing::Beside { conn, place };
    }
    message_missing(standing, Event::Request { conn, hop, seq })
}

// What comes to a port at a hop of a connection.
fn input_missing(
    standing: &Standing<'_>,
    conn: &Conn,
    number: u16,
    hop: u16,
    port: u16,
    place: u64,
    input: &PortInput,
) -> Missing
    ensures { (net : Topology) (events : List EventSpec) →
        Stands net events standing.now.world standing.now.sightings →
        result ≡ spec.input_missing net (facts_after net events) conn.now number hop port place input.now }
{
    match input {
        PortInput::Request(request) => {
            let seq = request.seq();
            let other = request_missing(standing, number, hop, place, seq);
            asked_missing(standing, number, seq, request.floor(), request.ask(), other)
        }
        PortInput::Answer(answer) => {
            let seq = answer.seq();
            let event = Event::Answer {
                conn: number,
                hop,
                seq,
                granted: answer.granted(),
            };
            let other = message_missing(standing, event);
            asked_missing(standing, number, seq, answer.floor(), answer.ask(), other)
        }
        PortInput::Arrive { .. } => arrival_missing(standing, conn, number, hop, port),
        PortInput::Capacity(_) => Missing::Nothing,
    }
}

// The path of the connection of a number visits the port.
fn visit_missing(
    net: &Net,
    standing: &Standing<'_>,
    number: u16,
    port: u16,
    place: u64,
    input: &PortInput,
) -> Missing
    ensures { (events : List EventSpec) →
        Stands net.now events standing.now.world standing.now.sightings →
        result ≡ spec.visit_missing net.now (facts_after net.now events) number port place input.now
        (conn_at net.now number) }
{
    let Some(conn) = net.conns().get(usize::from(number)) else {
        return Missing::Nothing;
    };
    let hop = hop_on(conn, port);
    if hop == 0 {
        return Missing::OffPath { conn: number, port };
    }
    input_missing(standing, conn, number, hop, port, place, input)
}

// The net has a connection of the channel.
fn channel_missing(
    net: &Net,
    standing: &Standing<'_>,
    port: u16,
    place: u64,
    input: &PortInput,
    vc: Vc,
) -> Missing
    ensures { (events : List EventSpec) →
        Stands net.now events standing.now.world standing.now.sightings →
        result ≡ spec.channel_missing net.now (facts_after net.now events) port place input.now vc }
{
    match number_in(net, vc) {
        Some(number) => visit_missing(net, standing, number, port, place, input),
        None => Missing::NoChannel { vc },
    }
}

// What the entry of a port misses that has this input.
pub(crate) fn step_missing(
    net: &Net,
    standing: &Standing<'_>,
    port: u16,
    place: u64,
    input: &PortInput,
) -> Missing
    ensures { (events : List EventSpec) →
        Stands net.now events standing.now.world standing.now.sightings →
        result ≡ spec.step_missing net.now (facts_after net.now events) port place (Some input.now) }
{
    match input {
        PortInput::Request(request) => {
            channel_missing(net, standing, port, place, input, request.vc())
        }
        PortInput::Answer(answer) => {
            channel_missing(net, standing, port, place, input, answer.vc())
        }
        PortInput::Arrive { vc, .. } => channel_missing(net, standing, port, place, input, *vc),
        PortInput::Capacity(_) => Missing::Nothing,
    }
}
