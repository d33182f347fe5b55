//! The scenes of pictures.
use crate::Actor;
use abt_model::Event;
use abt_net::Net;

/// The scene of a picture: events over a net to which nothing happened before.
#[derive(Clone, Copy)]
pub struct Scene<'a> {
    /// The net.
    pub net: &'a Net,
    /// The events, the oldest first.
    pub events: &'a [Event],
    /// The lines of a text in which the events stand; none, if they stand in no text.
    pub lines: &'a [u64],
    /// The entries at which journals are stuck behind the events; none, if the events are all that happened.
    pub stuck: &'a [StuckMark<'a>],
}

/// An entry at which a journal is stuck.
#[derive(Clone, Copy)]
pub struct StuckMark<'a> {
    /// The source or port whose journal it is.
    pub actor: Actor,
    /// What is told of the entry.
    pub text: &'a str,
}
