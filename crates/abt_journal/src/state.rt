//! A port with its journal.
ghost use Rattle.std.specs.Prelude.{◌≡◌, ◌+◌, ◌<◌, ◌^◌, ◌∷◌, ◌++◌, ◌↔◌, [], Some, length, slice_get, IsTrue, IfOk, OnErr};
ghost use Rattle.std.specs.Option.{option_map};
ghost use Rattle.std.specs.FinMap as map;
ghost use Rattle.abt_node.specs.Table.{connection_at};
ghost use Rattle.abt_journal.specs.Opening.{IsOpening, tau_of};
ghost use Rattle.abt_journal.specs.Replay.{reply_by, table_after, replay, IsHistory};

use crate::entry::Entry;
use crate::input::{PortInput, PortReply};
use abt_cell::Vc;
use abt_node::Port;
use std::alloc::{AllocError, Global};
use std::marker::Model;

/// A port, and a journal of every step that it did (docs/RULES.md, "Journals").
///
/// Contracts see the table that the port had at first, the table that it has now, and the entries. The table is always
/// what the entries make of the first one; each method that reads the journal says so.
#[derive(Debug, Drop)]
pub struct PortState {
    port: Port,
    opening_capacity: u64,
    entries: Vec<Entry>,
}

impl Model for PortState {
    ghost use Rattle.std.specs.Coded.{codes};
    ghost use Rattle.abt_node.specs.Table.{table_code};
    ghost use Rattle.abt_journal.specs.Journaled.{Journaled};

    ghost Value = { Journaled };

    ghost coded = { Prim.hlevel (codes, table_code) };

    ghost use Rattle.abt_journal.specs.Opening.{reopened};
    ghost use Rattle.abt_journal.specs.Replay.{IsReplayed};

    ghost view = { λ s. record {
      opening = reopened s.opening_capacity s.port;
      table = s.port;
      entries = s.entries.items;
    } };

    ghost invariant = { λ s. IsReplayed (reopened s.opening_capacity s.port) s.port s.entries.items };
}

impl PortState {
    /// A port with an empty journal. The port has done nothing yet.
    pub fn new(alloc: Global, port: Port) -> PortState
        requires { IsOpening port }
        ensures { result ≡ record { opening = port; table = port; entries = [] } }
    {
        let opening_capacity = port.capacity();
        PortState {
            port,
            opening_capacity,
            entries: Vec::new(alloc),
        }
    }

    /// The number given to the port.
    pub fn id(&self) -> u16
        ensures value { result ≡ self.now.table.id }
        ensures opening { result ≡ self.now.opening.id }
    {
        self.port.id()
    }

    /// The capacity of the link when the journal began, in units.
    pub fn opening_capacity(&self) -> u64
        ensures { result ≡ self.now.opening.capacity }
    {
        self.opening_capacity
    }

    /// How many connections the port has, which are those that it had when the journal began.
    pub fn count(&self) -> usize
        ensures { result ≡ map.len self.now.opening.connections }
    {
        self.port.count()
    }

    /// The tolerance of a connection's policer, which is the one that it had when the journal began: `Some(None)` if
    /// the port isn't the ingress, and `None` for another's connection.
    pub fn tau(&self, vc: Vc) -> Option<Option<u64>>
        ensures value { result ≡ option_map tau_of (connection_at self.now.opening vc) }
        ensures opening { IsOpening self.now.opening }
    {
        self.port.tau(vc)
    }

    /// The journal. The port's table is its replay.
    pub fn entries(&self) -> &[Entry]
        ensures value { result.now ≡ self.now.entries }
        ensures history { IsHistory self.now.opening self.now.entries }
        ensures replay { self.now.table ≡ replay self.now.opening self.now.entries }
    {
        self.entries.as_slice()
    }

    /// Whether the journal has this entry at its place.
    #[tactic(auto, using(std::proofs::lemmas::Option::gets))]
    pub fn has(&self, entry: &Entry) -> bool
        ensures { IsTrue result ↔ (slice_get self.now.entries entry.now.place ≡ Some entry.now) }
    {
        let place = entry.place as usize;
        place < self.entries.len() && self.entries[place].is(entry)
    }

    /// Hands an input to the port and puts the step into the journal. The result is its place there, and the reply.
    pub fn step(&mut self, caller: u16, input: PortInput) -> Result<(u64, PortReply), AllocError>
        ensures value { IfOk result (λ r. r ≡ (length self.old.entries, reply_by self.old.table input)) }
        ensures within { IfOk result (λ r. r.0 + 1 < 2 ^ 64) }
        ensures ok { IfOk result (λ r. self.new ≡ record {
          opening = self.old.opening;
          table = table_after self.old.table input;
          entries = self.old.entries ++
              record { place = r.0; caller = caller; input = input; reply = r.1 } ∷ [];
        }) }
        ensures same { OnErr result (self.new ≡ self.old) }
    {
        self.entries.reserve(1)?;
        let place = self.entries.len() as u64;
        let reply = input.apply(&mut self.port);
        let entry = Entry {
            place,
            caller,
            input,
            reply,
        };
        self.entries.push_reserved(entry);
        Ok(entry.answer())
    }

    /// The journal alone.
    pub fn into_entries(self) -> Vec<Entry>
        ensures value { result.items ≡ self.entries }
        ensures history { IsHistory self.opening self.entries }
    {
        let PortState {
            port,
            opening_capacity: _,
            entries,
        } = self;
        drop(port);
        entries
    }
}
