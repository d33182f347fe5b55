//! Parts of stories.
use abt_keep::StorePlan;
use abt_rate::Rate;
use abt_world::Event;
use std::alloc::{AllocError, Global};

pub fn start(conn: u16, now: u64) -> Event {
    Event::Start { conn, now }
}

pub fn ask(conn: u16, code: u16) -> Event {
    Event::Ask {
        conn,
        rate: Rate::from_code(code),
        plan: StorePlan::Works,
    }
}

pub fn deliver(conn: u16, hop: u16, seq: u32) -> Event {
    Event::Request { conn, hop, seq }
}

pub fn turn(conn: u16, seq: u32) -> Event {
    Event::Turn { conn, seq }
}

pub fn back(conn: u16, hop: u16, seq: u32, granted: bool) -> Event {
    Event::Answer {
        conn,
        hop,
        seq,
        granted,
    }
}

pub fn tell(conn: u16, seq: u32, granted: bool) -> Event {
    Event::Told { conn, seq, granted }
}

pub fn emit(now: u64) -> Event {
    Event::Emit { conn: 0, now }
}

pub fn arrive(cell: u64, at: u64) -> Event {
    Event::Arrive { conn: 0, cell, at }
}

/// Carries a list of events further by others.
pub fn further(mut events: Vec<Event>, more: &[Event]) -> Result<Vec<Event>, AllocError> {
    for event in more {
        events.push(*event)?;
    }
    Ok(events)
}

/// Both connections ask, the second has 400 cells per second and is refused 600.
pub fn two_share(alloc: Global) -> Result<Vec<Event>, AllocError> {
    let granted = [
        start(0, 0),
        start(1, 0),
        ask(0, 0x5258),
        deliver(0, 1, 1),
        ask(1, 0x5120),
        deliver(1, 1, 1),
        turn(1, 1),
        deliver(1, 2, 1),
        turn(1, 1),
        back(1, 2, 1, true),
        back(1, 1, 1, true),
        tell(1, 1, true),
    ];
    let refused = [
        ask(1, 0x5258),
        deliver(1, 1, 2),
        deliver(1, 2, 2),
        back(1, 1, 2, false),
        tell(1, 2, false),
    ];
    further(further(Vec::new(alloc), &granted)?, &refused)
}

/// A source that has 1,000 cells per second, and whose first cell left a second after its start.
pub fn has_emitted_one(alloc: Global) -> Result<Vec<Event>, AllocError> {
    let events = [
        start(0, 5_000_000_000_000),
        ask(0, 0x53e8),
        deliver(0, 1, 1),
        turn(0, 1),
        back(0, 1, 1, true),
        tell(0, 1, true),
        emit(5_900_000_000_000),
        emit(6_000_000_000_000),
    ];
    further(Vec::new(alloc), &events)
}
