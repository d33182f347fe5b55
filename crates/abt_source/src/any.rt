//! A source in whichever state.
use crate::source::Source;
use crate::state::{Asking, Down, Idle};
use abt_rate::Rate;

/// A source in one of its states.
#[must_use]
#[derive(Debug, Drop)]
pub enum AnySource {
    /// It isn't started.
    Down(Source<Down>),
    /// It was started, and waits for no answer.
    Idle(Source<Idle>),
    /// It waits for the answer to its newest request.
    Asking(Source<Asking>),
}

/// The state of a source, as a value.
#[derive(Clone, Copy, Debug, PartialEq, Eq)]
pub enum Phase {
    /// It isn't started.
    Down,
    /// It was started, and waits for no answer.
    Idle,
    /// It waits for the answer to a request for this rate.
    Asking(Rate),
}
