//! Entries of a journal, and receipts for them.
ghost use Rattle.std.specs.Prelude.{◌≡◌, ◌↔◌, IsTrue};

use crate::input::{PortInput, PortReply};

/// One step of a port, as its journal has it.
#[derive(Clone, Copy, Debug, PartialEq, Eq)]
pub struct Entry {
    /// How many steps of the port came before.
    pub place: u64,
    /// Who had the step done.
    pub caller: u16,
    /// The input of the port.
    pub input: PortInput,
    /// The reply of the port.
    pub reply: PortReply,
}

impl Entry {
    // What the caller is told of the step.
    pub(crate) fn answer(&self) -> (u64, PortReply)
        ensures { result ≡ (self.now.place, self.now.reply) }
    {
        (self.place, self.reply)
    }

    // Whether the other is the same entry.
    pub(crate) fn is(&self, other: &Entry) -> bool
        ensures { IsTrue result ↔ (self.now ≡ other.now) }
    {
        self.place == other.place
            && self.caller == other.caller
            && self.input.is(&other.input)
            && self.reply.is(&other.reply)
    }
}

/// The receipt of a caller for a step that it had done: the entry, and the port in whose journal it is.
#[derive(Clone, Copy, Debug, PartialEq, Eq)]
pub struct Receipt {
    /// The number of the port.
    pub port: u16,
    /// The entry.
    pub entry: Entry,
}
