//! The arrows of messages.
ghost use Rattle.std.specs.Prelude.{◌≡◌, ◌≢◌, ◌≤◌, ◌<◌, ◌⊎◌, None, Some, length, IfSome, IfNone};
ghost use Rattle.abt_chart.specs.Messages as messages;
ghost use Rattle.abt_chart.specs.Tellings as tellings;
ghost use Rattle.abt_draw.specs.Placed as spec;
ghost use Rattle.abt_draw.specs.Placed.{IsArrow, IsLost, IsUnseen, Stands, IsAbsent};

use crate::actor::{Actor, actor_at, column_of};
use crate::place::{Rows, level_of};
use abt_chart::{Arrival, Departure, Kind, Message, Stop};
use abt_net::Net;

/// Where an arrow begins or ends.
#[derive(Clone, Copy, Debug, PartialEq, Eq)]
pub struct Spot {
    /// The column, from 0.
    pub column: u32,
    /// How far down (see [`level_of`]).
    pub level: u32,
}

/// The arrow of a message that came.
#[derive(Clone, Copy, Debug)]
pub struct Arrow {
    /// The message.
    pub message: Message,
    /// Where it was sent.
    pub from: Spot,
    /// Where it came.
    pub to: Spot,
    /// Whether a copy of it had come before.
    pub again: bool,
    /// Whether its source had sent a newer request before.
    pub late: bool,
}

/// The stump of a message that never came.
#[derive(Clone, Copy, Debug)]
pub struct Lost {
    /// The message.
    pub message: Message,
    /// Where it was sent.
    pub from: Spot,
    /// The column to which it was to go.
    pub toward: u32,
}

/// The arrow of the message that an event brings, if its sender and receiver have columns.
pub fn arrow_of(
    net: &Net,
    columns: &[Actor],
    rows: &Rows<'_>,
    event: usize,
    arrival: &Arrival,
) -> Option<Arrow>
    requires columns { length columns.now ≤ 1024 }
    requires rows { rows.now.count < u32.MAX }
    ensures some { IfSome result (IsArrow net.now columns.now rows.now event arrival.now) }
    ensures none { IfNone result (IsUnseen net.now columns.now arrival.now.message) }
{
    let message = arrival.message;
    let sender = standing(columns, sender_of(net, &message))?;
    let receiver = standing(columns, actor_at(net, message.conn, message.stop))?;
    Some(Arrow {
        message,
        from: Spot {
            column: sender,
            level: level_from(rows, arrival.sent),
        },
        to: Spot {
            column: receiver,
            level: level_of(rows, event),
        },
        again: arrival.again,
        late: arrival.late,
    })
}

/// The stump of the message that an event sends, if it never comes and its sender and receiver have columns.
pub fn lost_of(
    net: &Net,
    columns: &[Actor],
    rows: &Rows<'_>,
    event: usize,
    departure: &Departure,
) -> Option<Lost>
    requires columns { length columns.now ≤ 1024 }
    requires rows { rows.now.count < u32.MAX }
    ensures some { IfSome result (IsLost net.now columns.now rows.now event departure.now) }
    ensures none { IfNone result ((departure.now.came ≢ None) ⊎
        IsUnseen net.now columns.now departure.now.message) }
{
    let message = departure.message;
    if departure.came.is_some() {
        return None;
    }
    let sender = standing(columns, sender_of(net, &message))?;
    let toward = standing(columns, actor_at(net, message.conn, message.stop))?;
    Some(Lost {
        message,
        from: Spot {
            column: sender,
            level: level_of(rows, event),
        },
        toward,
    })
}

/// The column of somebody.
pub(crate) fn standing(columns: &[Actor], who: Option<Actor>) -> Option<u32>
    requires { length columns.now ≤ 1024 }
    ensures some { IfSome result (Stands columns.now who) }
    ensures none { IfNone result (IsAbsent columns.now who) }
{
    column_of(columns, who?)
}

// The level of the event that sent a message: above the first row, if it isn't known.
fn level_from(rows: &Rows<'_>, sent: Option<usize>) -> u32
    requires { rows.now.count < u32.MAX }
    ensures { result ≡ spec.level_from rows.now sent }
{
    match sent {
        Some(event) => level_of(rows, event),
        None => 0,
    }
}

/// Who sends a message.
pub(crate) fn sender_of(net: &Net, message: &Message) -> Option<Actor>
    ensures { result ≡ spec.sender_of net.now message.now }
{
    let hops = hops_of(net, message.conn);
    actor_at(
        net,
        message.conn,
        stop_from(hops, message.kind, message.stop),
    )
}

// How many hops the path of a connection has; 0 if the net has no such connection.
fn hops_of(net: &Net, conn: u16) -> u16
    ensures { result ≡ tellings.hops_of net.now (Some conn) }
{
    match net.conns().get(usize::from(conn)) {
        Some(conn) => conn.path.len() as u16,
        None => 0,
    }
}

// The stop from which a message is sent to another.
fn stop_from(hops: u16, kind: Kind, stop: Stop) -> Stop
    ensures { result ≡ spec.stop_from hops kind stop }
{
    match (kind, stop) {
        (Kind::Request, Stop::Hop(hop)) => stop_before(hop),
        (Kind::Request, Stop::End) => Stop::Hop(hops),
        (Kind::Request, Stop::Source) => Stop::Source,
        (_, Stop::Hop(hop)) => stop_after(hops, hop),
        (_, Stop::Source) => Stop::Hop(1),
        (_, Stop::End) => Stop::End,
    }
}

// The stop before a hop.
fn stop_before(hop: u16) -> Stop
    ensures { result ≡ messages.stop_before hop }
{
    if 1 < hop {
        Stop::Hop(hop - 1)
    } else {
        Stop::Source
    }
}

// The stop behind a hop of a path with so many hops.
fn stop_after(hops: u16, hop: u16) -> Stop
    ensures { result ≡ messages.stop_after hops hop }
{
    if hop < hops {
        Stop::Hop(hop + 1)
    } else {
        Stop::End
    }
}
