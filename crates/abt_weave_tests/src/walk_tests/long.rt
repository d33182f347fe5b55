//! Journals of more than 100,000 entries are woven.
use super::books::{Books, add_entry, add_own, blank, count};
use super::judge::woven;
use super::parts::own;
use abt_cell::{Answer, Request};
use abt_journal::{Entry, PortInput, PortReply};
use abt_keep::StorePlan;
use abt_model::SourceEntry;
use abt_node::Onward;
use abt_rate::Rate;
use abt_walk::nets::lone;
use abt_world::{Event, Net, Outcome, World};
use std::alloc::{AllocError, Global};
use std::process::Abort;
use std::test::Fail;

/// How often the source asks: five entries each time.
const ROUNDS: u64 = 20_000;

/// 400 cells per second.
const CODE: u16 = 0x5120;

// Lets a source do something, and writes it down.
fn do_own(world: &mut World<'_>, books: &mut Books, event: &Event) -> Result<Outcome, AllocError> {
    // Names a type within an outcome, without which the checker can't follow one.
    let _ = Onward::Pass;
    let outcome = world.step(event)?;
    if let Some(entry) = own(event, &outcome, 0) {
        add_own(&mut books.sources, 0, entry)?;
    }
    Ok(outcome)
}

// Writes a step of port 0 down.
fn add_step(
    books: &mut Books,
    place: u64,
    input: PortInput,
    reply: PortReply,
) -> Result<(), AllocError> {
    // Names the types within an entry, without which the checker can't follow one.
    let _ = matches!(input, PortInput::Arrive { .. });
    let _ = PortReply::Requested(Onward::Pass);
    let caller = 0;
    let entry = Entry {
        place,
        caller,
        input,
        reply,
    };
    add_entry(&mut books.ports, 0, entry)
}

// A request comes to port 0, and its answer comes back through it and is told.
fn serve(
    world: &mut World<'_>,
    books: &mut Books,
    place: u64,
    request: Request,
) -> Result<(), AllocError> {
    // Names a type within an outcome, without which the checker can't follow one.
    let _ = Onward::Pass;
    let (conn, hop, seq, granted) = (0, 1, request.seq(), true);
    if let Outcome::Requested(onward) = world.step(&Event::Request { conn, hop, seq })? {
        let input = PortInput::Request(request);
        add_step(books, place, input, PortReply::Requested(onward))?;
        add_own(&mut books.sources, conn, SourceEntry::Sent { place })?;
    }
    world.step(&Event::Turn { conn, seq })?;
    let answer = Event::Answer {
        conn,
        hop,
        seq,
        granted,
    };
    if let Outcome::Answered(back) = world.step(&answer)? {
        let place = place.saturating_add(1);
        let input = PortInput::Answer(Answer::of(&request, granted));
        add_step(books, place, input, PortReply::Answered(back))?;
    }
    do_own(world, books, &Event::Told { conn, seq, granted })?;
    Ok(())
}

// The journals of a source that asks again and again for a rate that its one port grants, and of that port.
fn long_books(alloc: Global, net: &Net) -> Result<Books, AllocError> {
    // Names a type within an outcome, without which the checker can't follow one.
    let _ = Onward::Pass;
    let mut world = World::new(alloc, net)?;
    let mut books = blank(alloc, net)?;
    do_own(&mut world, &mut books, &Event::Start { conn: 0, now: 0 })?;
    let ask = Event::Ask {
        conn: 0,
        rate: Rate::from_code(CODE),
        plan: StorePlan::Works,
    };
    for round in 0..ROUNDS {
        if let Outcome::Asked(request) = do_own(&mut world, &mut books, &ask)? {
            serve(&mut world, &mut books, round.saturating_mul(2), request)?;
        }
    }
    Ok(books)
}

// Demands that each entry is one event, but for those of requests, which are two, and that each yes has its Turn.
fn are_all(rt: &impl Abort, books: &Books, events: &[Event]) {
    assert_eq!(rt; count(books), 100_001);
    assert_eq!(rt; events.len(), 100_001);
}

#[test]
fn more_than_a_hundred_thousand_entries_are_woven(rt: HostRuntime) -> Result<(), Fail> {
    let net = lone(rt.alloc())?;
    let books = long_books(rt.alloc(), &net)?;
    match woven(rt.alloc(), &net, &books)? {
        Ok(events) => are_all(&rt, &books, events.as_slice()),
        Err(fault) => assert!(rt; false, "{fault:?}"),
    }
    Ok(())
}
