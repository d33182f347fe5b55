//! Messages on their way.
ghost use Rattle.std.specs.Prelude.{◌≡◌};
ghost use Rattle.abt_chart.specs.Messages as spec;

use abt_model::{Event, Outcome};
use abt_node::{Back, Onward};

/// The kinds of messages.
#[derive(Clone, Copy, Debug, PartialEq, Eq, Hash)]
pub enum Kind {
    /// A request.
    Request,
    /// The yes to a request.
    Yes,
    /// The no to a request.
    No,
}

/// Where messages of a connection stop.
#[derive(Clone, Copy, Debug, PartialEq, Eq, Hash)]
pub enum Stop {
    /// The source.
    Source,
    /// A hop of the path, counted from 1.
    Hop(u16),
    /// The end of the path, behind its last hop, where a request is turned into a yes.
    End,
}

/// A message on its way to a stop of its connection's path.
#[derive(Clone, Copy, Debug, PartialEq, Eq, Hash)]
pub struct Message {
    /// The connection, as its place in the net, from 0.
    pub conn: u16,
    /// Its kind.
    pub kind: Kind,
    /// Where it goes.
    pub stop: Stop,
    /// The number of the request.
    pub seq: u32,
}

fn request_to(conn: u16, stop: Stop, seq: u32) -> Message
    ensures { result ≡ spec.request_to conn stop seq }
{
    Message {
        conn,
        kind: Kind::Request,
        stop,
        seq,
    }
}

fn answer_to(conn: u16, stop: Stop, seq: u32, granted: bool) -> Message
    ensures { result ≡ spec.answer_to conn stop seq granted }
{
    let kind = if granted { Kind::Yes } else { Kind::No };
    Message {
        conn,
        kind,
        stop,
        seq,
    }
}

// The stop before a hop.
fn stop_before(hop: u16) -> Stop
    ensures { result ≡ spec.stop_before hop }
{
    if 1 < hop {
        Stop::Hop(hop - 1)
    } else {
        Stop::Source
    }
}

// The stop behind a hop of a path with so many hops.
fn stop_after(hops: u16, hop: u16) -> Stop
    ensures { result ≡ spec.stop_after hops hop }
{
    if hop < hops {
        Stop::Hop(hop + 1)
    } else {
        Stop::End
    }
}

// The message that an event of a connection sent, whose path has so many hops.
pub(crate) fn sent_by(hops: u16, event: &Event, outcome: &Outcome) -> Option<Message>
    ensures { result ≡ spec.sent_by hops event.now outcome.now }
{
    match *event {
        Event::Ask { conn, .. } => sent_by_ask(conn, outcome),
        Event::Again { conn } => sent_by_again(conn, outcome),
        Event::Request { conn, hop, seq } => sent_by_request(conn, hops, hop, seq, outcome),
        Event::Turn { conn, seq } => sent_by_turn(conn, hops, seq, outcome),
        Event::Answer {
            conn,
            hop,
            seq,
            granted,
        } => sent_by_answer(conn, hop, seq, granted, outcome),
        Event::Start { .. }
        | Event::Crash { .. }
        | Event::Emit { .. }
        | Event::Arrive { .. }
        | Event::Told { .. }
        | Event::Capacity { .. } => None,
    }
}

fn sent_by_ask(conn: u16, outcome: &Outcome) -> Option<Message>
    ensures { result ≡ spec.sent_by_ask conn outcome.now }
{
    match *outcome {
        Outcome::Asked(request) => Some(request_to(conn, Stop::Hop(1), request.seq())),
        _ => None,
    }
}

fn sent_by_again(conn: u16, outcome: &Outcome) -> Option<Message>
    ensures { result ≡ spec.sent_by_again conn outcome.now }
{
    match *outcome {
        Outcome::Repeated(request) => Some(request_to(conn, Stop::Hop(1), request.seq())),
        _ => None,
    }
}

// A hop passes a request on, or sends its no back.
fn sent_by_request(conn: u16, hops: u16, hop: u16, seq: u32, outcome: &Outcome) -> Option<Message>
    ensures { result ≡ spec.sent_by_request conn hops hop seq outcome.now }
{
    match *outcome {
        Outcome::Requested(Onward::Pass) => Some(request_to(conn, stop_after(hops, hop), seq)),
        Outcome::Requested(Onward::Refuse(_)) => {
            Some(answer_to(conn, stop_before(hop), seq, false))
        }
        _ => None,
    }
}

// The end of the path sends a yes to the last hop.
fn sent_by_turn(conn: u16, hops: u16, seq: u32, outcome: &Outcome) -> Option<Message>
    ensures { result ≡ spec.sent_by_turn conn hops seq outcome.now }
{
    match *outcome {
        Outcome::Turned => Some(answer_to(conn, Stop::Hop(hops), seq, true)),
        _ => None,
    }
}

// A hop passes an answer back.
fn sent_by_answer(
    conn: u16,
    hop: u16,
    seq: u32,
    granted: bool,
    outcome: &Outcome,
) -> Option<Message>
    ensures { result ≡ spec.sent_by_answer conn hop seq granted outcome.now }
{
    match *outcome {
        Outcome::Answered(Back::Pass) => Some(answer_to(conn, stop_before(hop), seq, granted)),
        _ => None,
    }
}

// The message that an event brought to where it happened. An event that wasn't enabled brought none.
pub(crate) fn brought_by(event: &Event, outcome: &Outcome) -> Option<Message>
    ensures { result ≡ spec.brought_by event.now outcome.now }
{
    match *event {
        Event::Request { conn, hop, seq } => brought_by_request(conn, hop, seq, outcome),
        Event::Turn { conn, seq } => brought_by_turn(conn, seq, outcome),
        Event::Answer {
            conn,
            hop,
            seq,
            granted,
        } => brought_by_answer(conn, hop, seq, granted, outcome),
        Event::Told { conn, seq, granted } => brought_by_told(conn, seq, granted, outcome),
        Event::Start { .. }
        | Event::Ask { .. }
        | Event::Again { .. }
        | Event::Crash { .. }
        | Event::Emit { .. }
        | Event::Arrive { .. }
        | Event::Capacity { .. } => None,
    }
}

fn brought_by_request(conn: u16, hop: u16, seq: u32, outcome: &Outcome) -> Option<Message>
    ensures { result ≡ spec.brought_by_request conn hop seq outcome.now }
{
    match *outcome {
        Outcome::Requested(_) => Some(request_to(conn, Stop::Hop(hop), seq)),
        _ => None,
    }
}

// A request comes to the end of the path, behind its last hop.
fn brought_by_turn(conn: u16, seq: u32, outcome: &Outcome) -> Option<Message>
    ensures { result ≡ spec.brought_by_turn conn seq outcome.now }
{
    match *outcome {
        Outcome::Turned => Some(request_to(conn, Stop::End, seq)),
        _ => None,
    }
}

fn brought_by_answer(
    conn: u16,
    hop: u16,
    seq: u32,
    granted: bool,
    outcome: &Outcome,
) -> Option<Message>
    ensures { result ≡ spec.brought_by_answer conn hop seq granted outcome.now }
{
    match *outcome {
        Outcome::Answered(_) => Some(answer_to(conn, Stop::Hop(hop), seq, granted)),
        _ => None,
    }
}

fn brought_by_told(conn: u16, seq: u32, granted: bool, outcome: &Outcome) -> Option<Message>
    ensures { result ≡ spec.brought_by_told conn seq granted outcome.now }
{
    match *outcome {
        Outcome::Told(_) => Some(answer_to(conn, Stop::Source, seq, granted)),
        _ => None,
    }
}
