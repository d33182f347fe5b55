//! Inputs of ports, and their replies.
ghost use Rattle.std.specs.Prelude.{◌≡◌, ◌↔◌, IsTrue};

use abt_cell::{Answer, Request, Vc};
use abt_gcra::Verdict;
use abt_node::{ArriveFault, Back, CapacityFault, Onward, Port};

/// An input of a port.
#[derive(Clone, Copy, Debug, PartialEq, Eq)]
pub enum PortInput {
    /// A request, on its way to the last port of its path.
    Request(Request),
    /// An answer, on its way back to the source.
    Answer(Answer),
    /// A data cell of a connection, at a moment in picoseconds.
    Arrive { vc: Vc, at: u64 },
    /// The capacity that the port's link is to have from now on, in units.
    Capacity(u64),
}

/// The reply of a port to an input of each kind.
#[derive(Clone, Copy, Debug, PartialEq, Eq)]
pub enum PortReply {
    /// The reply to a request.
    Requested(Onward),
    /// The reply to an answer.
    Answered(Back),
    /// The verdict on a data cell, or why it has none.
    Arrived(Result<Verdict, ArriveFault>),
    /// Whether the link got the capacity, or why it keeps its own.
    Capped(Result<(), CapacityFault>),
}

impl PortInput {
    ghost use Rattle.abt_journal.specs.Replay.{reply_by, table_after};

    // Whether the other is the same input.
    pub(crate) fn is(&self, other: &PortInput) -> bool
        ensures { IsTrue result ↔ (self.now ≡ other.now) }
    {
        *self == *other
    }

    // Hands the input to a port.
    pub(crate) fn apply(&self, port: &mut Port) -> PortReply
        ensures value { result ≡ reply_by port.old self.now }
        ensures table { port.new ≡ table_after port.old self.now }
    {
        match self {
            PortInput::Request(request) => PortReply::Requested(port.request(request)),
            PortInput::Answer(answer) => PortReply::Answered(port.answer(answer)),
            PortInput::Arrive { vc, at } => PortReply::Arrived(port.arrive(*vc, *at)),
            PortInput::Capacity(capacity) => PortReply::Capped(port.set_capacity(*capacity)),
        }
    }
}

impl PortReply {
    // Whether the other is the same reply.
    pub(crate) fn is(&self, other: &PortReply) -> bool
        ensures { IsTrue result ↔ (self.now ≡ other.now) }
    {
        *self == *other
    }
}
