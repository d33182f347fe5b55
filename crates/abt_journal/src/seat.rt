//! A caller with its receipts.
ghost use Rattle.std.specs.Prelude.{◌≡◌, ◌+◌, ◌<◌, ◌≤◌, ◌^◌, ◌∷◌, ◌++◌, ◌↔◌, ℕ, [], All, length, IfOk, OnErr, IsErrOf};
ghost use Rattle.abt_journal.specs.Replay.{reply_by, table_after};
ghost use Rattle.abt_journal.specs.Receipts.{seen_at};

use crate::entry::{Entry, Receipt};
use crate::fault::ServeFault;
use crate::input::{PortInput, PortReply};
use crate::seen_counts::SeenCounts;
use crate::state::PortState;
use std::alloc::Global;
use std::marker::Model;

/// A caller, and its receipts in the order in which it got them (docs/RULES.md, "Journals").
#[derive(Debug, Drop)]
pub struct Seat {
    caller: u16,
    receipts: Vec<Receipt>,
    // What the receipts say was seen of each port.
    seen: SeenCounts,
}

impl Model for Seat {
    ghost use Rattle.abt_journal.specs.Counts.{AreCounted};
    ghost use Rattle.abt_journal.specs.Receipts.{Seated};

    ghost Value = { Seated };

    ghost view = { λ s. record { caller = s.caller; receipts = s.receipts.items } };

    ghost invariant = { λ s. AreCounted s.receipts.items s.seen };
}

impl Seat {
    /// A caller that has no receipt yet.
    pub fn new(alloc: Global, caller: u16) -> Seat
        ensures { result ≡ record { caller = caller; receipts = [] } }
    {
        Seat {
            caller,
            receipts: Vec::new(alloc),
            seen: SeenCounts::new(alloc),
        }
    }

    /// The caller.
    pub fn caller(&self) -> u16
        ensures { result ≡ self.now.caller }
    {
        self.caller
    }

    /// The receipts, in the caller's order.
    pub fn receipts(&self) -> &[Receipt]
        ensures value { result.now ≡ self.now.receipts }
        ensures within { All (λ r. r.entry.place + 1 < 2 ^ 64) result.now }
    {
        self.receipts.as_slice()
    }

    /// How many entries of a port's journal there were when the caller last had a step done there: 0 if it never had,
    /// or else one more than the last place.
    pub fn seen(&self, port: u16) -> u64
        ensures { result ≡ seen_at port self.now.receipts }
    {
        self.seen.of(port)
    }

    /// Has one step done by the port of this number, and keeps the receipt for it. A journal that is shorter than what
    /// the caller has seen of it is refused before memory is looked for.
    pub fn step(
        &mut self,
        port: u16,
        state: &mut PortState,
        input: PortInput,
    ) -> Result<(u64, PortReply), ServeFault>
        ensures value { IfOk result (λ r. r ≡ (length state.old.entries, reply_by state.old.table input)) }
        ensures ok { IfOk result (λ r. state.new ≡ record {
          opening = state.old.opening;
          table = table_after state.old.table input;
          entries = state.old.entries ++
              record { place = r.0; caller = self.old.caller; input = input; reply = r.1 } ∷ [];
        }) }
        ensures receipt { IfOk result (λ r. self.new ≡ record {
          caller = self.old.caller;
          receipts = self.old.receipts ++ record {
            port = port;
            entry = record { place = r.0; caller = self.old.caller; input = input; reply = r.1 };
          } ∷ [];
        }) }
        ensures place { IfOk result (λ r. seen_at port self.old.receipts ≤ r.0) }
        ensures seen { IfOk result (λ r. seen_at port self.new.receipts ≡ r.0 + 1) }
        ensures wound { (seen found : ℕ) → IsErrOf result (ServeFault.Wound seen found)
            ↔ ((seen ≡ seen_at port self.old.receipts) × (found ≡ length state.old.entries) ×
            (found < seen)) }
        ensures same { OnErr result ((self.new ≡ self.old) × (state.new ≡ state.old)) }
    {
        let seen = self.seen(port);
        let found = state.entries().len() as u64;
        if found < seen {
            return Err(ServeFault::Wound { seen, found });
        }
        self.receipts.reserve(1)?;
        self.seen.make_room(port)?;
        let caller = self.caller;
        let given = &input;
        let (place, reply) = state.step(caller, *given)?;
        let entry = Entry {
            place,
            caller,
            input: *given,
            reply,
        };
        self.receipts.push_reserved(Receipt { port, entry });
        self.seen.note(port, place + 1);
        Ok(entry.answer())
    }
}
