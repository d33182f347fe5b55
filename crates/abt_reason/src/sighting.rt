//! Where a message lies.
use abt_model::Event;

/// Where a message lies: at a hop, counted from 1, at its source, which is hop 0, or at the end of the path, one above the last hop; and
/// the event that takes it on from there.
#[derive(Clone, Copy, Debug, PartialEq, Eq)]
pub struct Sighting {
    pub at: u32,
    pub next: Event,
}

/// The message that an event is to deliver: its number, and where it lies, if it was sent.
#[derive(Clone, Copy, Debug, PartialEq, Eq)]
pub struct Sought {
    pub seq: u32,
    pub sighting: Option<Sighting>,
}

/// A message that was sent: its number, and where it lies then.
#[derive(Clone, Copy, Debug, PartialEq, Eq)]
pub(crate) struct Sent {
    pub(crate) seq: u32,
    pub(crate) sighting: Sighting,
}

/// A message that was sent, and the connection that it is of.
#[derive(Clone, Copy, Debug, PartialEq, Eq)]
pub(crate) struct Posted {
    pub(crate) conn: u16,
    pub(crate) sent: Sent,
}
