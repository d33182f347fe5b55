//! Stories: lists of events, each with what it answers. The rates are those of docs/RULES.md, "Rates": codes 5120, 5258
//! and 53e8 are 400, 600 and 1,000 cells per second, 7fff is the greatest.
mod actors;
mod capacities;
mod cells;
mod granted;
mod logs;
mod memory;
mod messages;
mod restarts;
mod walks;
mod whole;

use abt_cell::{Answer, Request, Vc};
use abt_gcra::Verdict;
use abt_keep::StorePlan;
use abt_node::{Back, CapacityFault, DropCause, Onward};
use abt_rate::Rate;
use abt_shaper::ShapeFault;
use abt_world::{Cause, Conn, Event, Heard, Net, NetFault, Outcome, Path, Trace, World, run};
use std::alloc::{AllocError, Global};
use std::fmt::Debug;
use std::process::Abort;
use std::test::Fail;

/// Demands that two values are equal. What calls this knows nothing of them from it, which keeps its proof short.
fn same<T: PartialEq + Debug>(rt: &impl Abort, found: &T, expected: &T) {
    assert_eq!(rt; *found, *expected);
}

/// Demands that two lists are equal.
fn same_items<T: PartialEq + Debug>(rt: &impl Abort, found: &[T], expected: &[T]) {
    assert_eq!(rt; found, expected);
}

/// Demands that two values are equal, and tells the place if they differ.
fn same_at<T: PartialEq + Debug, P: Debug>(rt: &impl Abort, found: &T, expected: &T, place: &P) {
    assert_eq!(rt; *found, *expected, "{place:?}");
}

/// A connection of VPI 1, with its access line.
#[derive(Clone, Copy)]
struct AccessLine<'path> {
    vci: u16,
    path: &'path [u16],
    delay: u64,
    tau: u64,
}

/// The access line that most stories have.
fn line(vci: u16, path: &[u16]) -> AccessLine<'_> {
    AccessLine {
        vci,
        path,
        delay: 1000,
        tau: 200,
    }
}

fn conn(alloc: Global, line: &AccessLine<'_>) -> Result<Conn, AllocError> {
    Ok(Conn {
        vc: Vc::new(1, line.vci).unwrap(),
        path: Path::from(line.path.to_vec(alloc)?),
        delay: line.delay,
        tau: line.tau,
    })
}

fn lists(
    alloc: Global,
    capacities: &[u64],
    lines: &[AccessLine<'_>],
) -> Result<(Vec<u64>, Vec<Conn>), AllocError> {
    let mut conns = Vec::new(alloc);
    for line in lines {
        conns.push(conn(alloc, line)?)?;
    }
    Ok((capacities.to_vec(alloc)?, conns))
}

fn build(alloc: Global, capacities: &[u64], lines: &[AccessLine<'_>]) -> Result<Net, NetFault> {
    match lists(alloc, capacities, lines) {
        Ok((capacities, conns)) => Net::build(alloc, capacities, conns),
        Err(_) => Err(NetFault::Memory),
    }
}

/// A net; if memory was refused, it is built once more.
fn net(alloc: Global, capacities: &[u64], lines: &[AccessLine<'_>]) -> Result<Net, Fail> {
    match build(alloc, capacities, lines) {
        Ok(net) => Ok(net),
        Err(_) => Ok(build(alloc, capacities, lines)?),
    }
}

/// One connection over one port of 1,000 cells per second.
fn lone(alloc: Global) -> Result<Net, Fail> {
    net(alloc, &[512000], &[line(100, &[0])])
}

/// Two connections that share the second of two ports of 1,000 cells per second.
fn shared(alloc: Global) -> Result<Net, Fail> {
    let lines = [line(100, &[1]), line(101, &[0, 1])];
    net(alloc, &[512000, 512000], &lines)
}

/// A world before its first event; if memory was refused, it is made once more.
fn world<'net>(alloc: Global, net: &'net Net) -> Result<World<'net>, AllocError> {
    match World::new(alloc, net) {
        Ok(world) => Ok(world),
        Err(_) => World::new(alloc, net),
    }
}

/// What the sources, the first two hops of the second connection, and the ports of a story hold, and the capacities.
fn holdings(world: &World<'_>) -> ([Option<Rate>; 4], [Option<u64>; 4]) {
    (
        [
            world.rate(0),
            world.rate(1),
            world.held(1, 1),
            world.held(1, 2),
        ],
        [
            world.total(0),
            world.total(1),
            world.capacity(0),
            world.capacity(1),
        ],
    )
}

/// What an event answers. If memory was refused nothing has happened, and it comes once more.
fn step(rt: &impl Abort, world: &mut World<'_>, event: &Event) -> Result<Outcome, AllocError> {
    let before = holdings(world);
    match world.step(event) {
        Ok(outcome) => Ok(outcome),
        Err(_) => {
            same(rt, &holdings(world), &before);
            world.step(event)
        }
    }
}

/// An event, and what it is to answer.
type Row = (Event, Outcome);

/// Carries a world through a story.
fn tell(rt: &impl Abort, world: &mut World<'_>, story: &[Row]) -> Result<(), Fail> {
    for (event, expected) in story {
        same_at(rt, &step(rt, world, event)?, expected, event);
    }
    Ok(())
}

/// Carries a world of a net through a story, from its beginning.
fn told_of(rt: &impl Abort, alloc: Global, net: &Net, story: &[Row]) -> Result<(), Fail> {
    let mut world = world(alloc, net)?;
    tell(rt, &mut world, story)
}

/// Carries a world of the net with one port through a story, from its beginning.
fn told_alone(rt: &impl Abort, alloc: Global, story: &[Row]) -> Result<(), Fail> {
    let net = lone(alloc)?;
    told_of(rt, alloc, &net, story)
}

/// Demands the rate of a source and what each hop of its path holds, and that there is no further hop.
fn holds(rt: &impl Abort, world: &World<'_>, conn: u16, rate: u16, held: &[u16]) {
    same(rt, &world.rate(conn), &Some(Rate::from_code(rate)));
    same(rt, &world.held(conn, 0), &None);
    let mut hop = 1;
    for code in held {
        same(rt, &world.held(conn, hop), &Some(Rate::from_code(*code)));
        hop = hop.saturating_add(1);
    }
    same(rt, &world.held(conn, hop), &None);
}

/// Demands what each port holds in all, and that there is no further port.
fn totals(rt: &impl Abort, world: &World<'_>, totals: &[u64]) {
    let mut port = 0;
    for total in totals {
        same(rt, &world.total(port), &Some(*total));
        port = port.saturating_add(1);
    }
    same(rt, &world.total(port), &None);
}

fn starts(conn: u16, now: u64) -> Row {
    (Event::Start { conn, now }, Outcome::Started)
}

fn ask(conn: u16, code: u16) -> Event {
    Event::Ask {
        conn,
        rate: Rate::from_code(code),
        plan: StorePlan::Works,
    }
}

/// The first connection asks, with a plan for the write into its store.
fn ask_as_planned(code: u16, plan: StorePlan) -> Event {
    Event::Ask {
        conn: 0,
        rate: Rate::from_code(code),
        plan,
    }
}

fn request(vci: u16, seq: u32, floor: u16, ask: u16) -> Result<Request, Fail> {
    let vc = Vc::new(1, vci).unwrap();
    let (floor, ask) = (Rate::from_code(floor), Rate::from_code(ask));
    Ok(Request::new(vc, seq, floor, ask).ok_or("no such request")?)
}

fn asked(vci: u16, seq: u32, floor: u16, ask: u16) -> Result<Outcome, Fail> {
    Ok(Outcome::Asked(request(vci, seq, floor, ask)?))
}

fn deliver(conn: u16, hop: u16, seq: u32) -> Event {
    Event::Request { conn, hop, seq }
}

fn passes(conn: u16, hop: u16, seq: u32) -> Row {
    (deliver(conn, hop, seq), Outcome::Requested(Onward::Pass))
}

fn refuses(conn: u16, hop: u16, request: &Request) -> Row {
    let no = Answer::of(request, false);
    let event = deliver(conn, hop, request.seq());
    (event, Outcome::Requested(Onward::Refuse(no)))
}

fn drops(conn: u16, hop: u16, seq: u32, cause: DropCause) -> Row {
    let event = deliver(conn, hop, seq);
    (event, Outcome::Requested(Onward::Drop(cause)))
}

fn cap(port: u16, capacity: u64) -> Event {
    Event::Capacity { port, capacity }
}

fn caps(port: u16, capacity: u64) -> Row {
    (cap(port, capacity), Outcome::CapacitySet)
}

fn caps_not(port: u16, capacity: u64, fault: CapacityFault) -> Row {
    (cap(port, capacity), Outcome::CapacityRefused(fault))
}

fn turn(conn: u16, seq: u32) -> Event {
    Event::Turn { conn, seq }
}

fn turns(conn: u16, seq: u32) -> Row {
    (turn(conn, seq), Outcome::Turned)
}

fn passes_back(conn: u16, hop: u16, seq: u32, granted: bool) -> Row {
    let event = Event::Answer {
        conn,
        hop,
        seq,
        granted,
    };
    (event, Outcome::Answered(Back::Pass))
}

fn hears(conn: u16, seq: u32, granted: bool, heard: Heard) -> Row {
    let event = Event::Told { conn, seq, granted };
    (event, Outcome::Told(heard))
}

fn crashes(conn: u16) -> Row {
    (Event::Crash { conn }, Outcome::Crashed)
}

/// A cell leaves the source of the first connection.
fn emit(now: u64) -> Event {
    Event::Emit { conn: 0, now }
}

fn emits(now: u64, cell: u64, next: u64) -> Row {
    (emit(now), Outcome::Emitted { cell, next })
}

/// A cell comes to the first hop of the first connection.
fn arrive(cell: u64, at: u64) -> Event {
    Event::Arrive { conn: 0, cell, at }
}

fn conforms(cell: u64, at: u64) -> Row {
    (arrive(cell, at), Outcome::Arrived(Verdict::Conforming))
}

fn cannot(event: Event, cause: Cause) -> Row {
    (event, Outcome::NotEnabled(cause))
}
