//! What the events of a run bring, and what they send.
use crate::message::Message;

/// A message that an event brings. Events count from 0.
#[derive(Clone, Copy, Debug)]
pub struct Arrival {
    /// The message.
    pub message: Message,
    /// The event that sent it: the newest one before.
    pub sent: Option<usize>,
    /// Whether a copy of it had come before.
    pub again: bool,
    /// Whether its source had sent a newer request before.
    pub late: bool,
}

/// A message that an event sends. Events count from 0.
#[derive(Clone, Copy, Debug)]
pub struct Departure {
    /// The message.
    pub message: Message,
    /// The first event that brings it, if one does before a newer copy of it is sent.
    pub came: Option<usize>,
}
