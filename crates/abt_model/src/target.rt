//! Where an event happens.
ghost use Rattle.std.specs.Prelude.{◌≡◌};
ghost use Rattle.abt_model.specs.declared.target.Target.TheVariants as target;
ghost use Rattle.abt_model.specs.Outcomes.{conn_of};
ghost use Rattle.abt_model.specs.Targets.{target_of, event_at, event_at_source, event_at_hop, conn_in, hop_met_by};

use crate::event::Event;
use abt_keep::StorePlan;
use abt_rate::Rate;

/// What a source does or is told, as the event of that name. Moments are picoseconds.
#[derive(Clone, Copy, Debug, PartialEq, Eq)]
pub enum SourceEvent {
    /// It starts.
    Start { now: u64 },
    /// It asks for a rate. The plan is that of the one write into its store.
    Ask { rate: Rate, plan: StorePlan },
    /// It sends its open request once more.
    Again,
    /// It loses all but its store.
    Crash,
    /// It wants to send a cell.
    Emit { now: u64 },
    /// The answer to the request of this number comes to it.
    Told { seq: u32, granted: bool },
}

/// What comes to a hop of a path, as the event of that name. A hop counts from 1, and a cell comes to the first.
#[derive(Clone, Copy, Debug, PartialEq, Eq)]
pub enum HopEvent {
    /// A cell, at this moment in picoseconds.
    Arrive { cell: u64, at: u64 },
    /// A request.
    Request { hop: u16, seq: u32 },
    /// The answer to the request of this number.
    Answer { hop: u16, seq: u32, granted: bool },
}

/// Where an event happens, and what happens there. A connection is its place in the net, from 0.
#[derive(Clone, Copy, Debug, PartialEq, Eq)]
pub enum Target {
    /// At the source of a connection.
    Source { conn: u16, event: SourceEvent },
    /// At a hop of a connection's path.
    Hop { conn: u16, event: HopEvent },
    /// At the end of a connection's path, where the request of this number is turned into a yes.
    End { conn: u16, seq: u32 },
    /// At a port alone, whose link is to have this capacity, in units. A port is its place in the net, from 0.
    Port { port: u16, capacity: u64 },
}

impl Event {
    /// Where it happens, and what happens there.
    pub fn target(&self) -> Target
        ensures value { result ≡ target_of self.now }
    {
        match *self {
            Event::Start { conn, now } => at_source(conn, SourceEvent::Start { now }),
            Event::Ask { conn, rate, plan } => at_source(conn, SourceEvent::Ask { rate, plan }),
            Event::Again { conn } => at_source(conn, SourceEvent::Again),
            Event::Crash { conn } => at_source(conn, SourceEvent::Crash),
            Event::Emit { conn, now } => at_source(conn, SourceEvent::Emit { now }),
            Event::Told { conn, seq, granted } => {
                at_source(conn, SourceEvent::Told { seq, granted })
            }
            Event::Arrive { conn, cell, at } => at_hop(conn, HopEvent::Arrive { cell, at }),
            Event::Request { conn, hop, seq } => at_hop(conn, HopEvent::Request { hop, seq }),
            Event::Answer {
                conn,
                hop,
                seq,
                granted,
            } => { at_hop(conn, HopEvent::Answer { hop, seq, granted }) }
            Event::Turn { conn, seq } => Target::End { conn, seq },
            Event::Capacity { port, capacity } => Target::Port { port, capacity },
        }
    }

    /// The connection that it is of, if it is of one, as its place in the net, from 0.
    pub fn conn(&self) -> Option<u16>
        ensures value { result ≡ conn_of self.now }
    {
        self.target().conn()
    }
}

// An event at the source of a connection.
fn at_source(conn: u16, event: SourceEvent) -> Target
    ensures value { result ≡ target.Source conn event }
{
    Target::Source { conn, event }
}

// An event at a hop of a connection's path.
fn at_hop(conn: u16, event: HopEvent) -> Target
    ensures value { result ≡ target.Hop conn event }
{
    Target::Hop { conn, event }
}

impl SourceEvent {
    // The event that it is at the source of this connection.
    fn at(&self, conn: u16) -> Event
        ensures value { result ≡ event_at_source conn self.now }
    {
        match *self {
            SourceEvent::Start { now } => Event::Start { conn, now },
            SourceEvent::Ask { rate, plan } => Event::Ask { conn, rate, plan },
            SourceEvent::Again => Event::Again { conn },
            SourceEvent::Crash => Event::Crash { conn },
            SourceEvent::Emit { now } => Event::Emit { conn, now },
            SourceEvent::Told { seq, granted } => Event::Told { conn, seq, granted },
        }
    }
}

impl HopEvent {
    // The event that it is on the path of this connection.
    fn at(&self, conn: u16) -> Event
        ensures value { result ≡ event_at_hop conn self.now }
    {
        match *self {
            HopEvent::Arrive { cell, at } => Event::Arrive { conn, cell, at },
            HopEvent::Request { hop, seq } => Event::Request { conn, hop, seq },
            HopEvent::Answer { hop, seq, granted } => Event::Answer {
                conn,
                hop,
                seq,
                granted,
            },
        }
    }

    /// The hop that it comes to, from 1.
    pub fn hop(&self) -> u16
        ensures value { result ≡ hop_met_by self.now }
    {
        match *self {
            HopEvent::Arrive { .. } => 1,
            HopEvent::Request { hop, .. } | HopEvent::Answer { hop, .. } => hop,
        }
    }
}

impl Target {
    /// The event that happens there.
    pub fn event(&self) -> Event
        ensures value { result ≡ event_at self.now }
    {
        match *self {
            Target::Source { conn, event } => event.at(conn),
            Target::Hop { conn, event } => event.at(conn),
            Target::End { conn, seq } => Event::Turn { conn, seq },
            Target::Port { port, capacity } => Event::Capacity { port, capacity },
        }
    }

    /// The connection, if it is of one, as its place in the net, from 0.
    pub fn conn(&self) -> Option<u16>
        ensures value { result ≡ conn_in self.now }
    {
        match *self {
            Target::Source { conn, .. } | Target::Hop { conn, .. } | Target::End { conn, .. } => {
                Some(conn)
            }
            Target::Port { .. } => None,
        }
    }
}
