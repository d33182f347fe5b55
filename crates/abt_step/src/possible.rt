//! What can happen next of what was sent.
ghost use Rattle.std.specs.Prelude.{◌≡◌, ◌++◌, List, IfOk, OnOk, Some};
ghost use Rattle.abt_model.specs.Past.{Past, facts_of};
ghost use Rattle.abt_model.specs.Run.{facts_after};
ghost use Rattle.abt_model.specs.declared.event.Event.{Event as EventSpec};
ghost use Rattle.abt_net.specs.Topology.{Topology, conn_at};
ghost use Rattle.abt_reason.specs.Sightings.{AreSightings, lying};
ghost use Rattle.abt_world.specs.Standing.{StandsFor};
ghost use Rattle.abt_step.specs.Possible as spec;

use abt_model::{Event, Sequence};
use abt_net::{Conn, Net};
use abt_reason::{Sighting, Sightings};
use abt_world::World;
use std::alloc::{AllocError, Global};

/// A cell that may arrive, and when: moments are picoseconds.
#[derive(Clone, Copy, Debug, PartialEq, Eq)]
pub struct CellWindow {
    /// The number of its connection.
    pub conn: u16,
    /// Its number.
    pub cell: u64,
    /// The first moment at which it may be at the first hop.
    pub from: u64,
    /// The last one.
    pub to: u64,
}

/// What can happen next of what was sent (docs/FORMATS.md, "Events line by line").
#[derive(Debug, Drop)]
pub struct Possible {
    /// For each request that was asked the event that takes it, or the answer to it, on from where it was sent last.
    pub messages: Sequence<Event>,
    /// The cells of each connection that may arrive.
    pub cells: Sequence<Sequence<CellWindow>>,
}

// What can happen next in a net at work, by where its messages lie and by the requests that were asked.
pub(crate) fn possible_of(
    alloc: Global,
    net: &Net,
    world: &World<'_>,
    sightings: &Sightings,
    asks: &[(u16, u32)],
) -> Result<Possible, AllocError>
    ensures { (events : List EventSpec) → StandsFor net.now events world.now →
        AreSightings net.now (facts_after net.now events) sightings.now →
        asks.now ≡ spec.asks_of (facts_after net.now events) →
        IfOk result (λ possible. possible ≡ spec.possible_after net.now (facts_after net.now events)) }
{
    Ok(Possible {
        messages: messages_of(alloc, sightings, asks)?,
        cells: cells_of(alloc, net, world)?,
    })
}

// For each request the event that takes its message on.
fn messages_of(
    alloc: Global,
    sightings: &Sightings,
    asks: &[(u16, u32)],
) -> Result<Sequence<Event>, AllocError>
    ensures { (net : Topology) (past : Past) → AreSightings net past sightings.now →
        IfOk result (λ messages. messages ≡ spec.messages_at net past asks.now) }
{
    let mut messages = Sequence::new(alloc);
    for ask in asks {
        push_next(&mut messages, lying(sightings, ask.0, ask.1))?;
    }
    Ok(messages)
}

// Where a message lies, if it was sent.
fn lying(sightings: &Sightings, conn: u16, seq: u32) -> Option<Sighting>
    ensures { (net : Topology) (past : Past) → AreSightings net past sightings.now →
        result ≡ lying net past conn seq }
{
    match sightings.sought(&Event::Turn { conn, seq }) {
        Some(sought) => sought.sighting,
        None => None,
    }
}

// Adds the event that takes a message on.
fn push_next(messages: &mut Sequence<Event>, sighting: Option<Sighting>) -> Result<(), AllocError>
    ensures { OnOk result (messages.new ≡ messages.old ++ spec.next_of sighting) }
{
    match sighting {
        Some(sighting) => messages.push(sighting.next),
        None => Ok(()),
    }
}

// The cells of each connection that may arrive.
fn cells_of(
    alloc: Global,
    net: &Net,
    world: &World<'_>,
) -> Result<Sequence<Sequence<CellWindow>>, AllocError>
    ensures { (events : List EventSpec) → StandsFor net.now events world.now →
        IfOk result (λ cells. cells ≡ spec.possible_cells net.now (facts_after net.now events)) }
{
    let conns = net.conns();
    let mut cells = Sequence::new(alloc);
    for conn in 0..conns.len() {
        cells.push(windows_of(alloc, conn as u16, &conns[conn], world)?)?;
    }
    Ok(cells)
}

// The cells of a connection that may arrive.
fn windows_of(
    alloc: Global,
    place: u16,
    conn: &Conn,
    world: &World<'_>,
) -> Result<Sequence<CellWindow>, AllocError>
    ensures { (net : Topology) (events : List EventSpec) → StandsFor net events world.now →
        conn_at net place ≡ Some conn.now → IfOk result (λ windows.
        windows ≡ spec.windows_of place conn.now (facts_of place (facts_after net events))) }
{
    let mut windows = Sequence::new(alloc);
    let Some(progress) = world.progress(place) else {
        return Ok(windows);
    };
    for cell in progress.fence..progress.emitted {
        let moment = world.moment(place, cell).unwrap_or(0);
        let window = window_of(place, conn, progress.last_arrival, cell, moment);
        push_if_open(&mut windows, window)?;
    }
    Ok(windows)
}

// When a cell that left at a moment may be at the first hop.
fn window_of(place: u16, conn: &Conn, last: u64, cell: u64, moment: u64) -> CellWindow
    ensures { result ≡ spec.window_of place conn.now last cell moment }
{
    let start = moment.saturating_add(conn.delay);
    CellWindow {
        conn: place,
        cell,
        from: start.max(last),
        to: start.saturating_add(conn.tau),
    }
}

// Adds a window in which there is a moment.
fn push_if_open(windows: &mut Sequence<CellWindow>, window: CellWindow) -> Result<(), AllocError>
    ensures { OnOk result (windows.new ≡ windows.old ++ spec.if_open window) }
{
    if window.to < window.from {
        return Ok(());
    }
    windows.push(window)
}
