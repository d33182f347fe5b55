//! Where the messages of a net lie.
ghost use Rattle.std.specs.Prelude.{◌≡◌, ◌+◌, [], Some, OnOk};
ghost use Rattle.abt_model.specs.Outcomes.{after_event, outcome_of};
ghost use Rattle.abt_model.specs.Past.{Past};
ghost use Rattle.abt_net.specs.Topology.{Topology};
ghost use Rattle.abt_reason.specs.Sightings as spec;
ghost use Rattle.abt_reason.specs.Sightings.{AreNext, AreSightings};

use crate::sighting::{Posted, Sent, Sighting, Sought};
use abt_model::{Event, Outcome};
use abt_net::Net;
use abt_node::{Back, Onward};
use indexmap::IndexMap;
use std::alloc::{AllocError, Global};
use std::marker::Model;

/// Where each message of a net was sent last. A message is a request, or the answer to it, and has its number.
#[derive(Debug, Drop)]
pub struct Sightings {
    // By connection and number.
    places: IndexMap<(u16, u32), Sighting>,
}

impl Model for Sightings {
    ghost use Rattle.abt_reason.specs.Sightings.{SightingsView};

    ghost Value = { SightingsView };

    ghost view = { λ s. record { entries = s.places.entries } };
}

impl Sightings {
    /// None, of a net to which nothing happened.
    pub fn new(alloc: Global) -> Sightings
        ensures { (net : Topology) → AreSightings net [] result }
    {
        Sightings {
            places: IndexMap::new(alloc),
        }
    }

    /// Takes down the message that an event sends, by its outcome.
    ///
    /// # Errors
    /// If memory is refused nothing is taken down.
    pub fn note(&mut self, net: &Net, event: &Event, outcome: &Outcome) -> Result<(), AllocError>
        ensures { (past : Past) → AreSightings net.now past self.old →
            outcome.now ≡ outcome_of net.now past event.now →
            OnOk result (AreSightings net.now (after_event net.now past event.now) self.new) }
    {
        self.take_down(posted(net, event, outcome))
    }

    // Takes down a message that was posted, if one was.
    fn take_down(&mut self, posted: Option<Posted>) -> Result<(), AllocError>
        ensures { OnOk result (AreNext posted self.old self.new) }
    {
        match posted {
            Some(Posted { conn, sent }) => {
                self.places.insert((conn, sent.seq), sent.sighting)?;
                Ok(())
            }
            None => Ok(()),
        }
    }

    /// The message that an event is to deliver, and where it lies; none if the event delivers no message.
    pub fn sought(&self, event: &Event) -> Option<Sought>
        ensures { (net : Topology) (past : Past) → AreSightings net past self.now →
            result ≡ spec.sought_of net past event.now }
    {
        match *event {
            Event::Request { conn, seq, .. }
            | Event::Turn { conn, seq }
            | Event::Answer { conn, seq, .. }
            | Event::Told { conn, seq, .. } => Some(Sought {
                seq,
                sighting: self.lying(conn, seq),
            }),
            Event::Start { .. }
            | Event::Ask { .. }
            | Event::Again { .. }
            | Event::Crash { .. }
            | Event::Emit { .. }
            | Event::Arrive { .. }
            | Event::Capacity { .. } => None,
        }
    }

    // Where the message of a number of a connection lies, if it was sent.
    fn lying(&self, conn: u16, seq: u32) -> Option<Sighting>
        ensures { (net : Topology) (past : Past) → AreSightings net past self.now →
            result ≡ spec.lying net past conn seq }
    {
        self.places.get(&(conn, seq)).copied()
    }
}

// The message that an event sends, by its outcome; none of a connection that the net doesn't have.
fn posted(net: &Net, event: &Event, outcome: &Outcome) -> Option<Posted>
    ensures { result ≡ spec.posted net.now event.now outcome.now }
{
    let conn = event.conn()?;
    let hops = hops_at(net, conn)?;
    let sent = sent_by(conn, hops, event, outcome)?;
    Some(Posted { conn, sent })
}

// How many hops the path of a connection has, if the net has so many connections.
fn hops_at(net: &Net, conn: u16) -> Option<u16>
    ensures { result ≡ spec.hops_at net.now conn }
{
    match net.conns().get(usize::from(conn)) {
        Some(conn) => Some(conn.path.len() as u16),
        None => None,
    }
}

// The message that an event of a connection sends, whose path has so many hops.
fn sent_by(conn: u16, hops: u16, event: &Event, outcome: &Outcome) -> Option<Sent>
    ensures { result ≡ spec.sent_by conn hops event.now outcome.now }
{
    match (*event, *outcome) {
        (Event::Ask { .. }, Outcome::Asked(request)) => {
            let seq = request.seq();
            Some(sent(seq, request_behind(conn, hops, 0, seq)))
        }
        (Event::Request { hop, seq, .. }, Outcome::Requested(Onward::Pass)) => {
            Some(sent(seq, request_behind(conn, hops, hop, seq)))
        }
        (Event::Request { hop, seq, .. }, Outcome::Requested(Onward::Refuse(_))) => {
            Some(sent(seq, answer_at(conn, hop.saturating_sub(1), seq, false)))
        }
        (Event::Turn { seq, .. }, Outcome::Turned) => {
            Some(sent(seq, answer_at(conn, hops, seq, true)))
        }
        (
            Event::Answer {
                hop,
                seq,
                granted,
                ..
            },
            Outcome::Answered(Back::Pass),
        ) => Some(sent(seq, answer_at(conn, hop.saturating_sub(1), seq, granted))),
        _ => None,
    }
}

fn sent(seq: u32, sighting: Sighting) -> Sent
    ensures { Some result ≡ spec.sends seq sighting }
{
    Sent { seq, sighting }
}

// A request that a hop passed; hop 0 is its source.
fn request_behind(conn: u16, hops: u16, hop: u16, seq: u32) -> Sighting
    ensures { result ≡ spec.request_at conn hops (hop + 1) seq }
{
    let at = u32::from(hop) + 1;
    let next = if hop < hops {
        Event::Request {
            conn,
            hop: hop + 1,
            seq,
        }
    } else {
        Event::Turn { conn, seq }
    };
    Sighting { at, next }
}

// An answer at a hop; hop 0 is its source.
fn answer_at(conn: u16, hop: u16, seq: u32, granted: bool) -> Sighting
    ensures { result ≡ spec.answer_at conn hop seq granted }
{
    let next = if hop == 0 {
        Event::Told { conn, seq, granted }
    } else {
        Event::Answer {
            conn,
            hop,
            seq,
            granted,
        }
    };
    Sighting {
        at: u32::from(hop),
        next,
    }
}
