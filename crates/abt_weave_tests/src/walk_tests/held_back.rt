//! A run in which one link worker is held back: the request that it carries comes to its port behind all that others do.
use super::books::{count, project};
use super::judge::{are_woven, woven};
use abt_keep::StorePlan;
use abt_rate::Rate;
use abt_walk::nets::crossing;
use abt_world::Event;
use std::alloc::{AllocError, Global};
use std::process::Abort;
use std::test::Fail;

/// How often the other source asks meanwhile.
const ROUNDS: u32 = 300;

/// 400 cells per second, and one cell per second.
const HELD_BACK: u16 = 0x5120;

const MEANWHILE: u16 = 0x4000;

fn ask(conn: u16, code: u16) -> Event {
    Event::Ask {
        conn,
        rate: Rate::from_code(code),
        plan: StorePlan::Works,
    }
}

// A yes comes back over both ports, and is told.
fn push_yes(events: &mut Vec<Event>, conn: u16, seq: u32) -> Result<(), AllocError> {
    let granted = true;
    events.push(Event::Turn { conn, seq })?;
    for hop in [2, 1] {
        let answer = Event::Answer {
            conn,
            hop,
            seq,
            granted,
        };
        events.push(answer)?;
    }
    events.push(Event::Told { conn, seq, granted })?;
    Ok(())
}

// The other source asks, and is granted; the first one repeats its request, which its first port passes again.
fn push_round(events: &mut Vec<Event>, seq: u32) -> Result<(), AllocError> {
    events.push(ask(1, MEANWHILE))?;
    for hop in [1, 2] {
        events.push(Event::Request { conn: 1, hop, seq })?;
    }
    push_yes(events, 1, seq)?;
    events.push(Event::Again { conn: 0 })?;
    let (conn, hop, seq) = (0, 1, 1);
    events.push(Event::Request { conn, hop, seq })?;
    Ok(())
}

// What the first port passed for connection 0 at the beginning comes to the second port at the very end.
fn held_back(alloc: Global) -> Result<Vec<Event>, AllocError> {
    let mut events = Vec::new(alloc);
    events.push(Event::Start { conn: 0, now: 0 })?;
    events.push(Event::Start { conn: 1, now: 0 })?;
    events.push(ask(0, HELD_BACK))?;
    let (conn, seq) = (0, 1);
    events.push(Event::Request { conn, hop: 1, seq })?;
    for round in 1..=ROUNDS {
        push_round(&mut events, round)?;
    }
    events.push(Event::Request { conn, hop: 2, seq })?;
    push_yes(&mut events, conn, seq)?;
    Ok(events)
}

// A round has nine events: an ask, two requests, a Turn, two answers, a Told, a repeat and its request. A Turn is no entry, and the two
// requests at a first hop are two entries each.
fn are_all(rt: &impl Abort, entries: usize, events: usize) {
    assert_eq!(rt; entries, 5 + 300 * 10 + 4);
    assert_eq!(rt; events, 4 + 300 * 9 + 5);
}

#[test]
fn a_worker_that_is_held_back_to_the_end_is_woven(rt: HostRuntime) -> Result<(), Fail> {
    let alloc = rt.alloc();
    let net = crossing(alloc)?;
    let events = held_back(alloc)?;
    let books = project(alloc, &net, events.as_slice())?;
    match woven(alloc, &net, &books)? {
        Ok(found) => {
            are_all(&rt, count(&books), found.len());
            are_woven(&rt, alloc, &net, &books, found.as_slice())?;
        }
        Err(fault) => assert!(rt; false, "{fault:?}"),
    }
    Ok(())
}
