//! A port: the ledger of its link, and a row for each connection.
ghost use Rattle.std.specs.Prelude.{◌≡◌, ◌<◌, ◌≤◌, ◌↔◌, IsSome, IsNone, IsSomeAnd, IfOk, OnOk, OnErr, IsErrOf};
ghost use Rattle.abt_rate.specs.Limits.{arrive_max, capacity_max, port_connections_max, tau_max};
ghost use Rattle.std.specs.Option.{option_map, ForSome};
ghost use Rattle.std.specs.FinMap as map;
ghost use Rattle.indexmap.specs.IndexMap as index;
ghost use Rattle.abt_cell.specs.Channel.{same_channel};
ghost use Rattle.abt_node.specs.Table.{new_table, opening, connection_at, with_connection, held_at, sum_of};
ghost use Rattle.abt_node.specs.Table.{reply_to, table_after, answer_to, table_after_answer};
ghost use Rattle.abt_node.specs.Table.{capacity_set, table_after_capacity};
ghost use Rattle.abt_node.specs.Table.{arrival_at, table_after_arrival, policing_at};
ghost use Rattle.abt_node.specs.Rows.{connection_of};

use crate::fault::{AddFault, ArriveFault};
use crate::reply::{Back, DropCause, Onward};
use crate::row::Row;
use abt_cell::{Answer, Request, Vc};
use abt_gcra::Verdict;
use abt_ledger::{CapacityFault, Ledger};
use abt_rate::{CONNECTIONS_MAX, Rate};
use indexmap::IndexMap;
use std::alloc::{AllocError, Global};
use std::marker::Model;

/// The connections for which a new port has room.
const ROWS_AT_FIRST: usize = 4;

/// A port of a switch: the link behind it, and what it reserves of the link for each connection
/// (docs/RULES.md, "Node"). At the ingress of a connection it polices the connection's cells too.
///
/// Contracts see it as a table: its number, its capacity and a map of its connections. Rates are in units of
/// 1/512 cell per second, times in picoseconds.
#[derive(Debug)]
pub struct Port {
    id: u16,
    ledger: Ledger,
    rows: Vec<Row>,
    // The place of each connection's row.
    places: IndexMap<Vc, usize>,
}

impl Model for Port {
    ghost use Rattle.abt_node.specs.Table.{Table, table_code};
    ghost use Rattle.abt_node.specs.Rows.{connections_of, AreIndexed};

    ghost Value = { Table };

    ghost coded = { table_code };

    ghost view = { λ p. record {
      id = p.id;
      capacity = p.ledger.capacity;
      connections = connections_of p.rows.items;
    } };

    ghost invariant = { λ p. AreIndexed p.rows.items p.ledger.total p.places };
}

// The place of a connection's row.
fn place_of(places: &IndexMap<Vc, usize>, vc: Vc) -> Option<usize>
    ensures { result ≡ index.get same_channel places.now vc }
{
    places.get(&vc).copied()
}

impl Port {
    /// A port without connections, by the number given to it and the capacity of its link.
    pub fn new(alloc: Global, id: u16, capacity: u64) -> Result<Port, AllocError>
        requires { capacity ≤ capacity_max }
        ensures { IfOk result (λ port. port ≡ new_table id capacity) }
    {
        let places = IndexMap::with_capacity(alloc, ROWS_AT_FIRST)?;
        let rows = Vec::with_capacity(alloc, ROWS_AT_FIRST)?;
        Ok(Port {
            id,
            ledger: Ledger::new(capacity),
            rows,
            places,
        })
    }

    /// The number given to the port.
    pub fn id(&self) -> u16
        ensures { result ≡ self.now.id }
    {
        self.id
    }

    /// The capacity of the link, in units.
    pub fn capacity(&self) -> u64
        ensures { result ≡ self.now.capacity }
    {
        self.ledger.capacity()
    }

    /// Sets the link's capacity, in units, to no less than what is held. What the port keeps of its connections
    /// stays.
    pub fn set_capacity(&mut self, capacity: u64) -> Result<(), CapacityFault>
        ensures value { result ≡ capacity_set self.old capacity }
        ensures table { self.new ≡ table_after_capacity self.old capacity }
        ensures below_sum { IsErrOf result CapacityFault.BelowSum ↔ (capacity < sum_of self.old) }
        ensures above_limit { IsErrOf result CapacityFault.AboveLimit
            ↔ ((sum_of self.old ≤ capacity) × (capacity_max < capacity)) }
        ensures ok { OnOk result (self.new.capacity ≡ capacity) }
        ensures same { OnErr result (self.new ≡ self.old) }
    {
        self.ledger.set_capacity(capacity)
    }

    /// The sum of what is held for the connections, in units.
    pub fn total(&self) -> u64
        ensures value { result ≡ sum_of self.now }
        ensures within { result ≤ self.now.capacity }
    {
        self.ledger.total()
    }

    /// How many connections the port has.
    pub fn count(&self) -> usize
        ensures { result ≡ map.len self.now.connections }
    {
        self.rows.len()
    }

    /// The rate that is held for a connection, or `None` if it was never added.
    pub fn held(&self, vc: Vc) -> Option<Rate>
        ensures { result ≡ option_map held_at (connection_at self.now vc) }
    {
        self.row_of(vc).map(|row| row.grant.held())
    }

    /// The newest number that was decided for a connection, 0 before the first.
    pub fn newest(&self, vc: Vc) -> Option<u32>
        ensures { result ≡ option_map (λ c. c.reservation.newest) (connection_at self.now vc) }
    {
        self.row_of(vc).map(|row| row.grant.newest())
    }

    /// Whether the newest request of a connection is open.
    pub fn is_open(&self, vc: Vc) -> Option<bool>
        ensures { result ≡ option_map (λ c. c.reservation.is_open) (connection_at self.now vc) }
    {
        self.row_of(vc).map(|row| row.grant.is_open())
    }

    /// The tolerance of a connection's policer, or `Some(None)` if the port isn't its ingress.
    pub fn tau(&self, vc: Vc) -> Option<Option<u64>>
        ensures { result
            ≡ option_map (λ c. option_map (λ p. p.tau) c.policing) (connection_at self.now vc) }
    {
        self.row_of(vc)
            .map(|row| row.policer.map(|policer| policer.tau()))
    }

    /// Adds a connection that asked for nothing yet. With a tau the port is its ingress.
    pub fn add(&mut self, vc: Vc, tau: Option<u64>) -> Result<(), AddFault>
        requires { ForSome tau (λ t. t ≤ tau_max) }
        ensures known { IsErrOf result AddFault.Known ↔ IsSome (connection_at self.old vc) }
        ensures full { IsErrOf result AddFault.Full
            ↔ (IsNone (connection_at self.old vc) × (port_connections_max ≤ map.len self.old.connections)) }
        ensures ok { OnOk result (self.new ≡ with_connection self.old vc (opening tau)) }
        ensures same { OnErr result (self.new ≡ self.old) }
    {
        if self.row_of(vc).is_some() {
            return Err(AddFault::Known);
        }
        if self.count() >= CONNECTIONS_MAX {
            return Err(AddFault::Full);
        }
        if self.rows.reserve(1).is_err() {
            return Err(AddFault::Memory);
        }
        if self.places.insert(vc, self.rows.len()).is_err() {
            return Err(AddFault::Memory);
        }
        let row = Row::opening(&mut self.ledger, vc, tau);
        self.rows.push_reserved(row);
        Ok(())
    }

    /// Decides a request.
    pub fn request(&mut self, request: &Request) -> Onward
        ensures value { result ≡ reply_to self.old request.now }
        ensures table { self.new ≡ table_after self.old request.now }
    {
        let Some(place) = place_of(&self.places, request.vc()) else {
            return Onward::Drop(DropCause::UnknownVc);
        };
        self.rows[place]
            .grant
            .apply_request(&mut self.ledger, request)
    }

    /// Takes an answer.
    pub fn answer(&mut self, answer: &Answer) -> Back
        ensures value { result ≡ answer_to self.old answer.now }
        ensures table { self.new ≡ table_after_answer self.old answer.now }
    {
        let Some(place) = place_of(&self.places, answer.vc()) else {
            return Back::Drop(DropCause::UnknownVc);
        };
        self.rows[place]
            .grant
            .apply_answer(&mut self.ledger, answer)
    }

    /// Judges a cell of a connection that arrives at a moment, by the rate that is held then.
    pub fn arrive(&mut self, vc: Vc, at: u64) -> Result<Verdict, ArriveFault>
        ensures value { result ≡ arrival_at self.old vc at }
        ensures table { self.new ≡ table_after_arrival self.old vc at }
        ensures unknown_vc { IsErrOf result ArriveFault.UnknownVc ↔ IsNone (connection_at self.old vc) }
        ensures not_ingress { IsErrOf result ArriveFault.NotIngress
            ↔ (IsSome (connection_at self.old vc) × IsNone (policing_at self.old vc)) }
        ensures clock_back { IsErrOf result ArriveFault.ClockBack
            ↔ IsSomeAnd (policing_at self.old vc) (λ p. at < p.clock) }
        ensures time_range { IsErrOf result ArriveFault.TimeRange
            ↔ IsSomeAnd (policing_at self.old vc) (λ p. (p.clock ≤ at) × (arrive_max < at)) }
    {
        let Some(place) = place_of(&self.places, vc) else {
            return Err(ArriveFault::UnknownVc);
        };
        self.rows[place].apply_arrival(at)
    }

    fn row_of(&self, vc: Vc) -> Option<&Row>
        ensures { option_map (λ row. connection_of row.now) result ≡ connection_at self.now vc }
    {
        let place = place_of(&self.places, vc)?;
        Some(&self.rows[place])
    }
}

impl Drop for Port {
    fn drop(self) {
        let Port {
            id: _,
            mut ledger,
            mut rows,
            places: _,
        } = self;
        while let Some(row) = rows.pop() {
            let Row {
                vc: _,
                grant,
                policer: _,
            } = row;
            grant.close(&mut ledger);
        }
        rows.destroy_empty();
    }
}
