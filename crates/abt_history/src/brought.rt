//! What a source brings to its first port.
ghost use Rattle.std.specs.Prelude.{◌≡◌};
ghost use Rattle.abt_history.specs.Sites as sites;

use abt_cell::{Request, Vc};
use abt_journal::PortInput;
use abt_model::{Event, SourceEntry};

/// A request or a cell that a source brings to the first port of its path.
#[derive(Clone, Copy, Debug, PartialEq, Eq)]
pub enum Brought {
    /// A request that went out.
    Request(Request),
    /// A cell that left, with the moment at which it arrives, in picoseconds.
    Cell { cell: u64, at: u64 },
}

impl Brought {
    // The event by which it comes to the first port of the connection of this number.
    pub(crate) fn event(&self, conn: u16) -> Event
        ensures { result ≡ sites.event_brought conn self.now }
    {
        match self {
            Brought::Request(request) => Event::Request {
                conn,
                hop: 1,
                seq: request.seq(),
            },
            Brought::Cell { cell, at } => Event::Arrive {
                conn,
                cell: *cell,
                at: *at,
            },
        }
    }

    // What it is to the port.
    pub(crate) fn input(&self, vc: Vc) -> PortInput
        ensures { result ≡ sites.input_brought vc self.now }
    {
        match self {
            Brought::Request(request) => PortInput::Request(*request),
            Brought::Cell { cell: _, at } => PortInput::Arrive { vc, at: *at },
        }
    }

    // The entry that the source has of it, by the place of the port's step.
    pub(crate) fn entry(&self, place: u64) -> SourceEntry
        ensures { result ≡ sites.entry_brought place self.now }
    {
        match self {
            Brought::Request(_) => SourceEntry::Sent { place },
            Brought::Cell { cell, at: _ } => SourceEntry::Arrived { cell: *cell, place },
        }
    }

    // The moment of the last arrival then.
    pub(crate) fn arrived(&self, last: u64) -> u64
        ensures { result ≡ sites.arrived_with last self.now }
    {
        match self {
            Brought::Request(_) => last,
            Brought::Cell { cell: _, at } => *at,
        }
    }
}
