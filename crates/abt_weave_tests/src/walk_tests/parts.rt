//! What an event is to the port that it comes to and to its source (docs/THREADS.md), by its outcome.
use abt_cell::{Answer, Request};
use abt_facts::Fact;
use abt_journal::{PortInput, PortReply};
use abt_model::SourceEntry;
use abt_walk::words::{asked, request_of};
use abt_world::{Conn, Event, Outcome};

/// What a port got, and what it replied.
#[derive(Clone, Copy, Debug)]
pub struct Visit {
    pub port: u16,
    pub input: PortInput,
    pub reply: PortReply,
}

/// The port of a hop of its path.
pub fn port_of(conn: &Conn, hop: u16) -> Option<u16> {
    let place = usize::from(hop).checked_sub(1)?;
    conn.path.as_slice().get(place).copied()
}

fn request(conn: &Conn, facts: &[Fact], seq: u32) -> Option<Request> {
    request_of(conn.vc, seq, asked(facts, seq)?)
}

/// What an event is to a port, if it happens and comes to one. The facts are those of its connection before it.
pub fn visited(conn: &Conn, facts: &[Fact], event: &Event, outcome: &Outcome) -> Option<Visit> {
    match (*event, *outcome) {
        (Event::Request { hop, seq, .. }, Outcome::Requested(onward)) => Some(Visit {
            port: port_of(conn, hop)?,
            input: PortInput::Request(request(conn, facts, seq)?),
            reply: PortReply::Requested(onward),
        }),
        (
            Event::Answer {
                hop,
                seq,
                granted,
                ..
            },
            Outcome::Answered(back),
        ) => Some(Visit {
            port: port_of(conn, hop)?,
            input: PortInput::Answer(Answer::of(&request(conn, facts, seq)?, granted)),
            reply: PortReply::Answered(back),
        }),
        (Event::Arrive { at, .. }, Outcome::Arrived(verdict)) => Some(Visit {
            port: port_of(conn, 1)?,
            input: PortInput::Arrive { vc: conn.vc, at },
            reply: PortReply::Arrived(Ok(verdict)),
        }),
        _ => None,
    }
}

/// What an event of a port alone is to that port, if it happens.
pub fn visited_alone(event: &Event, outcome: &Outcome) -> Option<Visit> {
    let Event::Capacity { port, capacity } = *event else {
        return None;
    };
    let answer = match *outcome {
        Outcome::CapacitySet => Ok(()),
        Outcome::CapacityRefused(fault) => Err(fault),
        _ => return None,
    };
    Some(Visit {
        port,
        input: PortInput::Capacity(capacity),
        reply: PortReply::Capped(answer),
    })
}

/// What an event is to its source. The place is that of the entry that the same event makes at a port, if it makes one.
pub fn own(event: &Event, outcome: &Outcome, place: u64) -> Option<SourceEntry> {
    let happens = !matches!(*outcome, Outcome::NotEnabled(_));
    match *event {
        Event::Start { .. }
        | Event::Ask { .. }
        | Event::Again { .. }
        | Event::Crash { .. }
        | Event::Emit { .. } => Some(SourceEntry::Did(*event, *outcome)),
        Event::Told { .. } if happens => Some(SourceEntry::Did(*event, *outcome)),
        Event::Request { hop: 1, .. } if happens => Some(SourceEntry::Sent { place }),
        Event::Arrive { cell, .. } if happens => Some(SourceEntry::Arrived { cell, place }),
        _ => None,
    }
}
