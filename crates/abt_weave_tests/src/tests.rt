//! Journals by hand, each with what weaving them gives. Codes 5120, 5258 and 53e8 are 400, 600 and 1,000 cells per second
//! (docs/RULES.md, "Rates").
mod capacities;
mod left;
mod rows;

use abt_cell::{Answer, Request, Vc};
use abt_journal::{Entry, Journals, PortInput, PortReply};
use abt_keep::StorePlan;
use abt_model::{Event, Heard, Outcome, Sequence, SourceEntry, SourceJournal};
use abt_net::{Conn, Net, NetFault, Path};
use abt_node::{Back, CapacityFault, DropCause, Onward};
use abt_rate::Rate;
use abt_weave::{Actor, Stuck, WeaveFault, weave};
use std::alloc::{AllocError, Global};
use std::process::Abort;
use std::test::Fail;

/// A connection of VPI 1 with delay 1,000 and tau 200.
fn conn(alloc: Global, vci: u16, path: &[u16]) -> Result<Conn, AllocError> {
    Ok(Conn {
        vc: Vc::new(1, vci).unwrap(),
        path: Path::from(path.to_vec(alloc)?),
        delay: 1000,
        tau: 200,
    })
}

fn conns(alloc: Global, paths: &[&[u16]]) -> Result<Vec<Conn>, AllocError> {
    let mut conns = Vec::new(alloc);
    let mut vci = 100;
    for path in paths {
        conns.push(conn(alloc, vci, path)?)?;
        vci = u16::saturating_add(vci, 1);
    }
    Ok(conns)
}

/// Ports of 1,000 cells per second, and connections from 1/100 on along these paths.
fn built(alloc: Global, ports: usize, paths: &[&[u16]]) -> Result<Net, NetFault> {
    let Ok(capacities) = vec![in alloc; 512000u64; ports] else {
        return Err(NetFault::Memory);
    };
    match conns(alloc, paths) {
        Ok(conns) => Net::build(alloc, capacities, conns),
        Err(_) => Err(NetFault::Memory),
    }
}

/// A net; if memory was refused, it is built once more.
fn net(alloc: Global, ports: usize, paths: &[&[u16]]) -> Result<Net, Fail> {
    match built(alloc, ports, paths) {
        Ok(net) => Ok(net),
        Err(_) => Ok(built(alloc, ports, paths)?),
    }
}

/// One connection over one port of 1,000 cells per second.
fn lone(alloc: Global) -> Result<Net, Fail> {
    net(alloc, 1, &[&[0]])
}

fn rate(code: u16) -> Rate {
    Rate::from_code(code)
}

fn request(vci: u16, seq: u32, floor: u16, ask: u16) -> Result<Request, Fail> {
    let vc = Vc::new(1, vci).unwrap();
    Ok(Request::new(vc, seq, rate(floor), rate(ask)).ok_or("no such request")?)
}

/// What a source did.
fn did(event: Event, outcome: Outcome) -> SourceEntry {
    SourceEntry::Did(event, outcome)
}

fn started(conn: u16, now: u64) -> SourceEntry {
    did(Event::Start { conn, now }, Outcome::Started)
}

/// The source asks for a rate, and gets to send this request.
fn asked(conn: u16, request: Request) -> SourceEntry {
    let rate = request.ask();
    let plan = StorePlan::Works;
    did(Event::Ask { conn, rate, plan }, Outcome::Asked(request))
}

fn told(conn: u16, seq: u32, granted: bool, heard: Heard) -> SourceEntry {
    did(Event::Told { conn, seq, granted }, Outcome::Told(heard))
}

fn sent(place: u64) -> SourceEntry {
    SourceEntry::Sent { place }
}

/// An entry of a port for a request.
fn served(place: u64, caller: u16, request: Request, onward: Onward) -> Entry {
    Entry {
        place,
        caller,
        input: PortInput::Request(request),
        reply: PortReply::Requested(onward),
    }
}

/// An entry of a port for an answer to a request.
fn returned(place: u64, request: Request, granted: bool, back: Back) -> Entry {
    Entry {
        place,
        caller: 7,
        input: PortInput::Answer(Answer::of(&request, granted)),
        reply: PortReply::Answered(back),
    }
}

/// An entry of a port for a capacity that its operator gives it.
fn capped(place: u64, capacity: u64, answer: Result<(), CapacityFault>) -> Entry {
    Entry {
        place,
        caller: 5,
        input: PortInput::Capacity(capacity),
        reply: PortReply::Capped(answer),
    }
}

/// Journals, of ports and of sources.
#[derive(Drop)]
struct Run {
    journals: Journals,
    sources: Vec<SourceJournal>,
}

fn run_of(
    alloc: Global,
    ports: &[&[Entry]],
    sources: &[&[SourceEntry]],
) -> Result<Run, AllocError> {
    let mut listed = Vec::new(alloc);
    for entries in ports {
        listed.push(entries.to_vec(alloc)?)?;
    }
    let mut journals = Vec::new(alloc);
    for entries in sources {
        let entries = Sequence::from(entries.to_vec(alloc)?);
        journals.push(SourceJournal { entries })?;
    }
    Ok(Run {
        journals: Journals { ports: listed },
        sources: journals,
    })
}

/// What weaving gives; if memory was refused, the journals are woven once more.
fn woven(
    alloc: Global,
    net: &Net,
    ports: &[&[Entry]],
    sources: &[&[SourceEntry]],
) -> Result<Result<Sequence<Event>, WeaveFault>, Fail> {
    let run = match run_of(alloc, ports, sources) {
        Ok(run) => run,
        Err(_) => run_of(alloc, ports, sources)?,
    };
    let Run { journals, sources } = &run;
    if journals.ports.len() != net.capacities().len() || sources.len() != net.conns().len() {
        return Ok(Err(WeaveFault::Memory));
    }
    match weave(alloc, net, &run.journals, run.sources.as_slice()) {
        Err(WeaveFault::Memory) => Ok(weave(alloc, net, &run.journals, run.sources.as_slice())),
        answer => Ok(answer),
    }
}

/// Demands that the journals are woven into these events.
fn gives(rt: &impl Abort, woven: Result<Sequence<Event>, WeaveFault>, events: &[Event]) {
    match woven {
        Ok(found) => assert_eq!(rt; found.as_slice(), events),
        Err(fault) => assert!(rt; false, "{fault:?}"),
    }
}

/// Demands that the journals are woven into some events.
fn weaves(rt: &impl Abort, woven: Result<Sequence<Event>, WeaveFault>) {
    if let Err(fault) = woven {
        assert!(rt; false, "{fault:?}");
    }
}

/// Demands that nothing more can be placed, and that these entries are left.
fn is_stuck(rt: &impl Abort, woven: Result<Sequence<Event>, WeaveFault>, left: &[Stuck]) {
    match woven {
        Err(WeaveFault::NoOrder(stuck)) => assert_eq!(rt; stuck.as_slice(), left),
        answer => assert!(rt; false, "{answer:?}"),
    }
}

/// Demands that an entry can't have been answered as it says.
fn mismatches(rt: &impl Abort, woven: Result<Sequence<Event>, WeaveFault>, entry: Stuck) {
    match woven {
        Err(WeaveFault::Mismatch { actor, place }) => {
            assert_eq!(rt; Stuck { actor, place }, entry);
        }
        answer => assert!(rt; false, "{answer:?}"),
    }
}

fn at(actor: Actor, place: u64) -> Stuck {
    Stuck { actor, place }
}
