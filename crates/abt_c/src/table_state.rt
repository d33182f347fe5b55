//! The state of a port that finds its connections itself, in a table of up to 1,024.
ghost use Rattle.std.specs.Prelude.{◌≡◌, ◌≢◌, ℕ, ◌+◌, ◌<◌, ◌≤◌, ◌↔◌, ◌⊎◌, IsTrue, Some, None, slice_set};
ghost use Rattle.abt_rate.specs.Limits.{capacity_max};
ghost use Rattle.abt_cell.specs.Message.{Reply};
ghost use Rattle.abt_node.specs.Reservation.{first_reservation, answer_of, no_to};
ghost use Rattle.abt_c.specs.Ports.{reservation_in, decision_at, port_kind};
ghost use Rattle.abt_c.specs.Tables.{HasHead, IsTable, HasRow, IsRowOf, IsFound, IsUnknown, LeavesOthers, places, chain_of, row_of};
ghost use Rattle.abt_c.specs.States.{no_policer};

use crate::port_state::{AbtConnection, AbtPort, PORT_KIND};
use crate::state::AbtPolicing;
use abt_cell::{Answer, Request, Vc};
use abt_node::{Back, DropCause, Onward};

/// The kind, eight letters (docs/C.md, "States").
pub const TABLE_KIND: u64 = 0x6162_7420_7461_626c;

/// Stands for no row.
pub const NOWHERE: u16 = 1024;

/// The state of a port with a table. Each connection has a row. Rows whose channels fall together make a chain: `last` has the last row of each
/// chain, and `before` the row before each row in its chain. Where the port is a connection's ingress, `policers` has a policer at its row.
#[repr(C)]
pub struct AbtTable {
    pub kind: u64,
    pub port: AbtPort,
    pub count: u64,
    pub last: [u16; 1024],
    pub before: [u16; 1024],
    pub rows: [AbtConnection; 1024],
    pub policers: [AbtPolicing; 1024],
}

/// The outcome of a look for a connection. Only a table that isn't in order is found to be damaged.
#[derive(Clone, Copy)]
pub enum Found {
    Row(usize),
    Unknown,
    Damaged,
}

impl AbtTable {
    /// Whether the state begins as one of a port with a table.
    pub fn has_head(&self) -> bool
        ensures { IsTrue result ↔ HasHead self.now }
    {
        self.kind == TABLE_KIND && self.port.is_port() && self.count <= 1024
    }

    /// Whether each row is a connection's.
    pub fn is_full(&self) -> bool
        ensures { IsTrue result ↔ (places ≤ self.now.count) }
    {
        self.count >= 1024
    }

    /// Makes the state a port without connections, whatever it was before.
    pub fn begin(&mut self, capacity: u64)
        requires { capacity ≤ capacity_max }
        ensures state { IsTable self.new }
        ensures count { self.new.count ≡ 0 }
        ensures port { self.new.port ≡ record { kind = port_kind; capacity = capacity; total = 0 } }
    {
        self.kind = TABLE_KIND;
        self.port = AbtPort {
            kind: PORT_KIND,
            capacity,
            total: 0,
        };
        self.count = 0;
        self.last = [NOWHERE; 1024];
    }

    /// Looks for the row of a connection, along its chain.
    pub fn find(&self, vc: Vc) -> Found
        requires { HasHead self.now }
        ensures row { IsFound self.now vc result }
        ensures only { IsTable self.now → (i : ℕ) → IsRowOf self.now vc i → result ≡ Found.Row i }
        ensures whole { IsTable self.now → result ≢ Found.Damaged }
    {
        let mut limit = self.count as usize;
        let mut at = self.last[chain_of(vc)];
        while at != NOWHERE {
            let row = usize::from(at);
            if row >= limit {
                return Found::Damaged;
            }
            if self.rows[row].is_of(vc) {
                return Found::Row(row);
            }
            limit = row;
            at = self.before[row];
        }
        Found::Unknown
    }

    /// Takes a connection in, which isn't known.
    pub fn insert(&mut self, vc: Vc)
        requires head { HasHead self.old }
        requires room { self.old.count < places }
        ensures state { IsTable self.old → IsUnknown self.old vc → IsTable self.new }
        ensures count { self.new.count ≡ self.old.count + 1 }
        ensures rows { (i : ℕ) → i < self.old.count → row_of self.new.rows i ≡ row_of self.old.rows i }
        ensures row { IsRowOf self.new vc self.old.count }
        ensures first { reservation_in (row_of self.new.rows self.old.count) ≡ first_reservation }
        ensures port { self.new.port ≡ self.old.port }
        ensures policers { self.new.policers ≡ slice_set self.old.policers self.old.count no_policer }
    {
        let place = self.count as usize;
        let chain = chain_of(vc);
        self.rows[place] = AbtConnection::first(vc);
        self.policers[place] = AbtPolicing::none();
        self.before[place] = self.last[chain];
        self.last[chain] = place as u16;
        self.count += 1;
    }

    /// Decides a request of a connection. Gives nothing if the table turns out not to be in order.
    pub fn request(&mut self, request: &Request) -> Option<Onward>
        requires { HasHead self.old }
        ensures value { IsTable self.old → (i : ℕ) → IsRowOf self.old request.now.vc i →
            (let decision = decision_at self.old.port (row_of self.old.rows i) request.now in
            (result ≡ Some decision.0) × (reservation_in (row_of self.new.rows i) ≡ decision.1)) }
        ensures unknown { IsTable self.old →
            (result ≡ Some (Onward.Drop DropCause.UnknownVc)) ↔ IsUnknown self.old request.now.vc }
        ensures whole { IsTable self.old → result ≢ None }
        ensures no { (reply : Reply) → result ≡ Some (Onward.Refuse reply) → reply ≡ no_to request.now }
        ensures state { IsTable self.old → IsTable self.new }
        ensures row { result ≢ None → result ≢ Some (Onward.Drop DropCause.UnknownVc) →
            HasRow self.old request.now.vc }
        ensures others { LeavesOthers request.now.vc self.old self.new }
        ensures same { (result ≡ None) ⊎ (result ≡ Some (Onward.Drop DropCause.UnknownVc)) →
            self.new ≡ self.old }
    {
        match self.find(request.vc()) {
            Found::Row(row) => self.request_at(row, request),
            Found::Unknown => Some(Onward::Drop(DropCause::UnknownVc)),
            Found::Damaged => None,
        }
    }

    /// Takes an answer of a connection. Gives nothing if the table turns out not to be in order.
    pub fn answer(&mut self, answer: &Answer) -> Option<Back>
        requires { HasHead self.old }
        ensures value { IsTable self.old → (i : ℕ) → IsRowOf self.old answer.now.terms.vc i →
            (let taken = answer_of (reservation_in (row_of self.old.rows i)) answer.now in
            (result ≡ Some taken.0) × (reservation_in (row_of self.new.rows i) ≡ taken.1)) }
        ensures unknown { IsTable self.old →
            (result ≡ Some (Back.Drop DropCause.UnknownVc)) ↔ IsUnknown self.old answer.now.terms.vc }
        ensures whole { IsTable self.old → result ≢ None }
        ensures state { IsTable self.old → IsTable self.new }
        ensures row { result ≢ None → result ≢ Some (Back.Drop DropCause.UnknownVc) →
            HasRow self.old answer.now.terms.vc }
        ensures others { LeavesOthers answer.now.terms.vc self.old self.new }
        ensures same { (result ≡ None) ⊎ (result ≡ Some (Back.Drop DropCause.UnknownVc)) →
            self.new ≡ self.old }
    {
        match self.find(answer.vc()) {
            Found::Row(row) => self.answer_at(row, answer),
            Found::Unknown => Some(Back::Drop(DropCause::UnknownVc)),
            Found::Damaged => None,
        }
    }

    // Decides a request at a row. Gives nothing if the row isn't one that the port counts.
    fn request_at(&mut self, row: usize, request: &Request) -> Option<Onward>
        requires head { HasHead self.old }
        requires row { IsRowOf self.old request.now.vc row }
        ensures value { IsTable self.old →
            (let decision = decision_at self.old.port (row_of self.old.rows row) request.now in
            (result ≡ Some decision.0) × (reservation_in (row_of self.new.rows row) ≡ decision.1)) }
        ensures known { result ≢ Some (Onward.Drop DropCause.UnknownVc) }
        ensures no { (reply : Reply) → result ≡ Some (Onward.Refuse reply) → reply ≡ no_to request.now }
        ensures state { IsTable self.old → IsTable self.new }
        ensures others { LeavesOthers request.now.vc self.old self.new }
        ensures same { result ≡ None → self.new ≡ self.old }
    {
        let mut connection = self.rows[row];
        if !self.port.is_counted(&connection) {
            return None;
        }
        let onward = connection.apply_request(&mut self.port, request);
        self.rows[row] = connection;
        Some(onward)
    }

    // Takes an answer at a row. Gives nothing if the row isn't one that the port counts.
    fn answer_at(&mut self, row: usize, answer: &Answer) -> Option<Back>
        requires head { HasHead self.old }
        requires row { IsRowOf self.old answer.now.terms.vc row }
        ensures value { IsTable self.old →
            (let taken = answer_of (reservation_in (row_of self.old.rows row)) answer.now in
            (result ≡ Some taken.0) × (reservation_in (row_of self.new.rows row) ≡ taken.1)) }
        ensures known { result ≢ Some (Back.Drop DropCause.UnknownVc) }
        ensures state { IsTable self.old → IsTable self.new }
        ensures others { LeavesOthers answer.now.terms.vc self.old self.new }
        ensures same { result ≡ None → self.new ≡ self.old }
    {
        let mut connection = self.rows[row];
        if !self.port.is_counted(&connection) {
            return None;
        }
        let back = connection.apply_answer(&mut self.port, answer);
        self.rows[row] = connection;
        Some(back)
    }
}

// The chain of a connection.
fn chain_of(vc: Vc) -> usize
    ensures value { result ≡ chain_of vc }
    ensures within { result < places }
{
    chain_by(vc.vpi(), vc.vci())
}

/// The chain of a VPI and a VCI. The factor is 2^32 over the golden ratio, which spreads channels in order.
#[tactic(auto, unfolding(crate::specs::Tables::chain_of))]
pub fn chain_by(vpi: u16, vci: u16) -> usize
    ensures value { result ≡ chain_of (record { vpi = vpi; vci = vci }) }
    ensures within { result < places }
{
    let channel = 65536 * u64::from(vpi) + u64::from(vci);
    (channel * 2_654_435_769 % (1 << 32) / (1 << 22)) as usize
}
