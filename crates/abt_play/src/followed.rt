//! The message that follows an event.
ghost use Rattle.std.specs.Prelude.{◌≡◌};
ghost use Rattle.abt_play.specs.Following as spec;

use abt_model::{Event, Outcome};
use abt_node::{Back, Onward};

/// What is sent after an event of a connection, whose path has so many hops, by its outcome (docs/RULES.md, "Path"): the event that this
/// message comes, or the turn at the end of the path.
pub fn following(hops: u16, event: &Event, outcome: &Outcome) -> Option<Event>
    ensures { result ≡ spec.following hops event.now outcome.now }
{
    match *event {
        Event::Ask { conn, .. } => request_of(conn, outcome),
        Event::Again { conn } => request_of(conn, outcome),
        Event::Request { conn, hop, seq } => behind_request(hops, conn, hop, seq, outcome),
        Event::Turn { conn, seq } => behind_turn(hops, conn, seq, outcome),
        Event::Answer {
            conn,
            hop,
            seq,
            granted,
        } => behind_answer(conn, hop, seq, granted, outcome),
        _ => None,
    }
}

// The request that a source sends, on its way to the first hop.
fn request_of(conn: u16, outcome: &Outcome) -> Option<Event>
    ensures { result ≡ spec.request_of conn outcome.now }
{
    match outcome {
        Outcome::Asked(request) => Some(Event::Request {
            conn,
            hop: 1,
            seq: request.seq(),
        }),
        Outcome::Repeated(request) => Some(Event::Request {
            conn,
            hop: 1,
            seq: request.seq(),
        }),
        _ => None,
    }
}

// What follows the reply of a hop to a request.
fn behind_request(hops: u16, conn: u16, hop: u16, seq: u32, outcome: &Outcome) -> Option<Event>
    ensures { result ≡ spec.behind_request hops conn hop seq outcome.now }
{
    match outcome {
        Outcome::Requested(Onward::Pass) => Some(onward(hops, conn, hop, seq)),
        Outcome::Requested(Onward::Refuse(_)) => Some(back(conn, hop, seq, false)),
        _ => None,
    }
}

// A request that a hop passed goes to the next hop, or is turned at the last.
fn onward(hops: u16, conn: u16, hop: u16, seq: u32) -> Event
    ensures { result ≡ spec.onward hops conn hop seq }
{
    if hop < hops {
        Event::Request {
            conn,
            hop: hop + 1,
            seq,
        }
    } else {
        Event::Turn { conn, seq }
    }
}

// An answer goes from a hop to the one before, or from the first hop to its source.
fn back(conn: u16, hop: u16, seq: u32, granted: bool) -> Event
    ensures { result ≡ spec.back conn hop seq granted }
{
    if 1 < hop {
        Event::Answer {
            conn,
            hop: hop - 1,
            seq,
            granted,
        }
    } else {
        Event::Told { conn, seq, granted }
    }
}

// The yes of a request that was turned, on its way to the last hop.
fn behind_turn(hops: u16, conn: u16, seq: u32, outcome: &Outcome) -> Option<Event>
    ensures { result ≡ spec.behind_turn hops conn seq outcome.now }
{
    match outcome {
        Outcome::Turned => Some(Event::Answer {
            conn,
            hop: hops,
            seq,
            granted: true,
        }),
        _ => None,
    }
}

// What follows the reply of a hop to an answer.
fn behind_answer(conn: u16, hop: u16, seq: u32, granted: bool, outcome: &Outcome) -> Option<Event>
    ensures { result ≡ spec.behind_answer conn hop seq granted outcome.now }
{
    match outcome {
        Outcome::Answered(Back::Pass) => Some(back(conn, hop, seq, granted)),
        _ => None,
    }
}
