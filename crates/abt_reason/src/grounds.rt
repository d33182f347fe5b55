//! The numbers by which events are decided.
ghost use Rattle.std.specs.Prelude.{◌≡◌, List, length, option_map};
ghost use Rattle.abt_model.specs.declared.event.Event.{Event as EventSpec};
ghost use Rattle.abt_model.specs.Run.{facts_after};
ghost use Rattle.abt_net.specs.Topology.{Topology, conn_at};
ghost use Rattle.abt_world.specs.Standing.{StandsFor};
ghost use Rattle.abt_world.specs.Readings.{held_in, total_in, asked_for, moment_in, progress_in};
ghost use Rattle.abt_world.specs.Steps as steps;
ghost use Rattle.abt_reason.specs.Grounds as spec;
ghost use Rattle.abt_reason.specs.Sightings.{AreSightings};

use crate::sighting::Sought;
use crate::sightings::Sightings;
use abt_net::{Conn, Net};
use abt_world::{Event, Progress, World};

/// The numbers by which an event is decided, as the past before it gives them. Rates and capacities are units of 1/512 cell/s, moments
/// picoseconds.
#[derive(Clone, Copy, Debug, PartialEq, Eq)]
pub enum Numbers {
    /// No number.
    Nothing,
    /// The net has only so many connections.
    NoConnection {
        connections: u64,
    },
    /// The net has only so many ports.
    NoPort {
        ports: u64,
    },
    /// The path has only so many hops.
    NoHop {
        hops: u64,
    },
    /// A moment of a source, and its clock.
    Moment {
        now: u64,
        clock: u64,
    },
    /// A cell that is to arrive at a moment: how many left, the fence, when it left, the delay and the tolerance of its line, and
    /// the last arrival.
    Cell {
        cell: u64,
        at: u64,
        emitted: u64,
        fence: u64,
        moment: u64,
        delay: u64,
        tau: u64,
        last: u64,
    },
    /// A request at a hop: its number, the newest there, what it asks for, what the hop holds for its connection, what is reserved on the
    /// port, and the port's capacity.
    AtHop {
        seq: u32,
        newest: u32,
        asks: u64,
        holds: u64,
        total: u64,
        capacity: u64,
    },
    /// The newest number at a hop.
    Newest {
        newest: u32,
    },
    /// The number whose answer a source waits for, if it waits for one.
    Waits {
        awaited: Option<u32>,
    },
    /// The rate reserved on a port.
    Reserved {
        total: u64,
    },
}

/// All by which the outcome of an event can be told.
#[derive(Clone, Copy, Debug, PartialEq, Eq)]
pub struct Grounds {
    /// The numbers by which it is decided.
    pub numbers: Numbers,
    /// The message that it is to deliver, if it is to deliver one.
    pub sought: Option<Sought>,
}

/// All by which the outcome of an event can be told after what happened to a world, and where the messages lie then.
pub fn grounds_of(world: &World<'_>, sightings: &Sightings, net: &Net, event: &Event) -> Grounds
    ensures { (events : List EventSpec) → StandsFor net.now events world.now →
        AreSightings net.now (facts_after net.now events) sightings.now →
        result ≡ spec.grounds_of net.now (facts_after net.now events) event.now }
{
    Grounds {
        numbers: numbers_of(world, net, event),
        sought: sightings.sought(event),
    }
}

// The numbers by which an event is decided after what happened to a world.
fn numbers_of(world: &World<'_>, net: &Net, event: &Event) -> Numbers
    ensures { (events : List EventSpec) → StandsFor net.now events world.now →
        result ≡ spec.numbers_of net.now (facts_after net.now events) event.now }
{
    match event.conn() {
        Some(conn) => numbers_by(world, net, conn, event),
        None => numbers_alone(world, net, event),
    }
}

// An event of a connection, if the net has it.
fn numbers_by(world: &World<'_>, net: &Net, conn: u16, event: &Event) -> Numbers
    ensures { (events : List EventSpec) → StandsFor net.now events world.now →
        result ≡ spec.numbers_by net.now (facts_after net.now events) conn (conn_at net.now conn) event.now }
{
    let conns = net.conns();
    match conns.get(usize::from(conn)) {
        Some(known) => numbers_at(world, conn, known, event),
        None => Numbers::NoConnection {
            connections: conns.len() as u64,
        },
    }
}

// An event of a port alone.
fn numbers_alone(world: &World<'_>, net: &Net, event: &Event) -> Numbers
    ensures { (events : List EventSpec) → StandsFor net.now events world.now →
        result ≡ spec.numbers_alone net.now (facts_after net.now events) event.now }
{
    match *event {
        Event::Capacity { port, .. } => port_numbers(world, net, port),
        _ => Numbers::Nothing,
    }
}

// An event of a connection that the net has.
fn numbers_at(world: &World<'_>, place: u16, conn: &Conn, event: &Event) -> Numbers
    ensures { (net : Topology) (events : List EventSpec) → StandsFor net events world.now →
        result ≡ spec.numbers_at net (facts_after net events) place conn.now event.now }
{
    match *event {
        Event::Start { now, .. } | Event::Emit { now, .. } => moment_numbers(world, place, now),
        Event::Arrive { cell, at, .. } => cell_numbers(world, place, conn, cell, at),
        Event::Request { hop, seq, .. } => hop_numbers(world, place, conn, hop, seq),
        Event::Answer { hop, .. } => answer_numbers(world, place, conn, hop),
        Event::Told { .. } => waiting_numbers(world, place),
        Event::Ask { .. }
        | Event::Again { .. }
        | Event::Crash { .. }
        | Event::Turn { .. }
        | Event::Capacity { .. } => Numbers::Nothing,
    }
}

// The port at a hop, if the path has so many.
fn port_at(conn: &Conn, hop: u16) -> Option<u16>
    ensures { result ≡ steps.port_at conn.now.path hop }
{
    let place = hop.checked_sub(1)?;
    conn.path.as_slice().get(usize::from(place)).copied()
}

fn moment_numbers(world: &World<'_>, conn: u16, now: u64) -> Numbers
    ensures { (net : Topology) (events : List EventSpec) → StandsFor net events world.now →
        result ≡ spec.moment_numbers now (progress_in net (facts_after net events) conn) }
{
    match world.progress(conn) {
        Some(Progress { clock, .. }) => Numbers::Moment { now, clock },
        None => Numbers::Nothing,
    }
}

fn cell_numbers(world: &World<'_>, place: u16, conn: &Conn, cell: u64, at: u64) -> Numbers
    ensures { (net : Topology) (events : List EventSpec) → StandsFor net events world.now →
        result ≡ spec.cell_numbers conn.now cell at
        (spec.number (moment_in net (facts_after net events) place cell))
        (progress_in net (facts_after net events) place) }
{
    let moment = world.moment(place, cell).unwrap_or(0);
    match world.progress(place) {
        Some(progress) => Numbers::Cell {
            cell,
            at,
            emitted: progress.emitted,
            fence: progress.fence,
            moment,
            delay: conn.delay,
            tau: conn.tau,
            last: progress.last_arrival,
        },
        None => Numbers::Nothing,
    }
}

fn hop_numbers(world: &World<'_>, place: u16, conn: &Conn, hop: u16, seq: u32) -> Numbers
    ensures { (net : Topology) (events : List EventSpec) → StandsFor net events world.now →
        result ≡ spec.hop_numbers net (facts_after net events) place (length conn.now.path) hop seq
        (steps.port_at conn.now.path hop) }
{
    match port_at(conn, hop) {
        Some(port) => Numbers::AtHop {
            seq,
            newest: world.newest(place, hop).unwrap_or(0),
            asks: asked_units(world, place, seq),
            holds: held_units(world, place, hop),
            total: world.total(port).unwrap_or(0),
            capacity: world.capacity(port).unwrap_or(0),
        },
        None => Numbers::NoHop {
            hops: conn.path.len() as u64,
        },
    }
}

// The rate that a request asks for, 0 if it was never asked.
fn asked_units(world: &World<'_>, place: u16, seq: u32) -> u64
    ensures { (net : Topology) (events : List EventSpec) → StandsFor net events world.now →
        result ≡ spec.number (option_map
        (λ terms. terms.1) (asked_for net (facts_after net events) place seq)) }
{
    match world.asked(place, seq) {
        Some((_, ask)) => ask.units(),
        None => 0,
    }
}

// The rate that a hop holds, 0 if there is none.
fn held_units(world: &World<'_>, place: u16, hop: u16) -> u64
    ensures { (net : Topology) (events : List EventSpec) → StandsFor net events world.now →
        result ≡ spec.number (held_in net (facts_after net events) place hop) }
{
    match world.held(place, hop) {
        Some(rate) => rate.units(),
        None => 0,
    }
}

fn answer_numbers(world: &World<'_>, place: u16, conn: &Conn, hop: u16) -> Numbers
    ensures { (net : Topology) (events : List EventSpec) → StandsFor net events world.now →
        result ≡ spec.answer_numbers net (facts_after net events) place (length conn.now.path) hop
        (steps.port_at conn.now.path hop) }
{
    match port_at(conn, hop) {
        Some(_) => Numbers::Newest {
            newest: world.newest(place, hop).unwrap_or(0),
        },
        None => Numbers::NoHop {
            hops: conn.path.len() as u64,
        },
    }
}

fn waiting_numbers(world: &World<'_>, place: u16) -> Numbers
    ensures { (net : Topology) (events : List EventSpec) → StandsFor net events world.now →
        result ≡ spec.waiting_numbers (progress_in net (facts_after net events) place) }
{
    match world.progress(place) {
        Some(Progress { awaited, .. }) => Numbers::Waits { awaited },
        None => Numbers::Nothing,
    }
}

fn port_numbers(world: &World<'_>, net: &Net, port: u16) -> Numbers
    ensures { (events : List EventSpec) → StandsFor net.now events world.now →
        result ≡ spec.port_numbers net.now (total_in net.now (facts_after net.now events) port) }
{
    match world.total(port) {
        Some(total) => Numbers::Reserved { total },
        None => Numbers::NoPort {
            ports: net.capacities().len() as u64,
        },
    }
}
