//! Worlds.
ghost use Rattle.std.specs.Prelude.{◌≡◌, ◌≤◌, ◌↔◌, ◌++◌, true, [], ◌∷◌, List, IfOk, OnOk, OnErr, IsSome, MatchResult};
ghost use Rattle.abt_net.specs.Topology.{Topology};
ghost use Rattle.abt_model.specs.Outcomes.{conn_of, outcome_of};
ghost use Rattle.abt_model.specs.Run.{facts_after, outcomes_of};
ghost use Rattle.abt_model.specs.Safe.{IsSafe};
ghost use Rattle.abt_model.specs.Traces.{IsTrace};
ghost use Rattle.abt_model.specs.declared.event.Event.{Event};
ghost use Rattle.abt_model.specs.declared.event.Event.TheVariants as event;
ghost use Rattle.abt_world.specs.Headline.{HeadlineHolds};
ghost use Rattle.abt_world.specs.Looked.{looks_of};
ghost use Rattle.abt_world.specs.Readings.{rate_in, asked_for, held_in, total_in, capacity_in, newest_in, moment_in, progress_in};
ghost use Rattle.abt_world.specs.Sound.{IsSound};
ghost use Rattle.abt_world.specs.Standing.{StandsFor};

use crate::connection_state::ConnectionState;
use crate::dispatch::{asks_rate, place_of, visited};
use crate::ends::{capacities_of, held_of, rates_of, totals_of};
use crate::fresh::{fresh_connections, opening_ports};
use crate::hops::port_at;
use crate::links::set_capacity;
use crate::progress::{Progress, progress_of};
use crate::safety::{counted_marks, marks_after};
use abt_index::Lookups;
use abt_model::{Cause, Event, Outcome, Sequence, Target, Trace};
use abt_net::Net;
use abt_node::Port;
use abt_rate::Rate;
use abt_safety::{Shaped, ViolationFlags, Violations};
use std::alloc::{AllocError, Global};
use std::marker::Model;

/// A net at work: its ports, the actors of its sources, and what happened to each connection.
#[derive(Debug, Drop)]
pub struct World<'net> {
    net: &'net Net,
    ports: Vec<Port>,
    // One for each connection.
    connections: Vec<ConnectionState>,
    // The violations, counted after each event.
    violations: Violations,
    // How many entries the last event looked up.
    looks: u64,
}

impl<'net> Model for World<'net> {
    ghost use Rattle.std.specs.Coded.{codes};
    ghost use Rattle.std.specs.FinMap as map;
    ghost use Rattle.std.specs.Prelude.{◌≡◌, length, map as list_map};
    ghost use Rattle.abt_cell.specs.Channel.{channel_cmp, channel_code};
    ghost use Rattle.abt_node.specs.Table.{connection_code};
    ghost use Rattle.abt_world.specs.Standing.{WorldView};
    ghost use Rattle.abt_net.specs.Topology.{IsWithinRules};
    ghost use Rattle.abt_world.specs.Tallied.{IsTallied};

    ghost Value = { WorldView };

    ghost coded = { Prim.hlevel (codes, map.code {R = channel_cmp} channel_code connection_code) };

    ghost view = { λ w. record {
      net = w.net.now;
      ports = w.ports.items;
      connections = list_map (λ connection. record { actor = connection.actor; index = connection.log.index }) w.connections.items;
      looks = w.looks;
    } };

    ghost invariant = { λ w. (length w.connections.items ≡ length w.net.now.conns) × IsWithinRules w.net.now
        × IsTallied w.net.now w.ports.items
        (list_map (λ connection. record { actor = connection.actor; index = connection.log.index }) w.connections.items)
        w.violations
        × (length w.ports.items ≡ length w.net.now.capacities) };
}

impl<'net> World<'net> {
    /// The net before the first event: nothing is reserved, and each source is down.
    pub fn new(alloc: Global, net: &'net Net) -> Result<World<'net>, AllocError>
        ensures value { IfOk result (StandsFor net.now []) }
        ensures looks { IfOk result (λ world. world.looks ≡ 0) }
    {
        let ports = opening_ports(alloc, net)?;
        let connections = fresh_connections(alloc, net.conns())?;
        Ok(World {
            net,
            ports,
            connections,
            violations: Violations::none(),
            looks: 0,
        })
    }

    /// Lets an event happen, and gives its outcome (docs/FORMATS.md, "Events and outcomes"). An event that isn't
    /// enabled changes nothing.
    ///
    /// # Errors
    /// If memory is refused nothing has happened.
    pub fn step(&mut self, event: &Event) -> Result<Outcome, AllocError>
        ensures outcome { (net : Topology) (events : List Event) → StandsFor net events self.old →
            MatchResult result
            (λ outcome. (outcome ≡ outcome_of net (facts_after net events) event.now) ×
            StandsFor net (events ++ event.now ∷ []) self.new)
            (λ _. StandsFor net events self.new) }
        ensures headline { (net : Topology) (events : List Event) → StandsFor net events self.old →
            OnOk result (HeadlineHolds net (facts_after net (events ++ event.now ∷ []))) }
        ensures looks { OnOk result (self.new.looks ≤ 128) }
        ensures counted { (net : Topology) (events : List Event) → StandsFor net events self.old →
            OnOk result (self.new.looks ≡ looks_of net (facts_after net events) event.now) }
        ensures same { OnErr result (self.new ≡ self.old) }
    {
        match event.target() {
            Target::Port { port, capacity } => Ok(self.at_port(port, capacity)),
            Target::Source { .. } | Target::Hop { .. } | Target::End { .. } => {
                self.at_connection(event)
            }
        }
    }

    // An event of a port alone, whose link is to have this capacity.
    fn at_port(&mut self, port: u16, capacity: u64) -> Outcome
        ensures outcome { (net : Topology) (events : List Event) → StandsFor net events self.old →
            (result ≡ outcome_of net (facts_after net events) (event.Capacity port capacity))
            × StandsFor net (events ++ event.Capacity port capacity ∷ []) self.new }
        ensures headline { (net : Topology) (events : List Event) → StandsFor net events self.old →
            HeadlineHolds net (facts_after net (events ++ event.Capacity port capacity ∷ [])) }
        ensures looks { self.new.looks ≤ 1 }
        ensures counted { (net : Topology) (events : List Event) → StandsFor net events self.old →
            self.new.looks ≡ looks_of net (facts_after net events) (event.Capacity port capacity) }
    {
        let place = usize::from(port);
        let mut looked = Lookups::new();
        if place >= self.ports.len() {
            self.looks = looked.count();
            return Outcome::NotEnabled(Cause::Unknown);
        }
        let link = &mut self.ports[looked.counting(place)];
        let was = ViolationFlags::of_port(link);
        let outcome = set_capacity(link, capacity);
        let is = ViolationFlags::of_port(link);
        self.violations = self.violations.after(&was, &is);
        self.looks = looked.count();
        outcome
    }

    // An event of a connection. If memory is refused nothing happens.
    fn at_connection(&mut self, event: &Event) -> Result<Outcome, AllocError>
        requires { IsSome (conn_of event.now) }
        ensures outcome { (net : Topology) (events : List Event) → StandsFor net events self.old →
            MatchResult result
            (λ outcome. (outcome ≡ outcome_of net (facts_after net events) event.now) ×
            StandsFor net (events ++ event.now ∷ []) self.new)
            (λ _. StandsFor net events self.new) }
        ensures headline { (net : Topology) (events : List Event) → StandsFor net events self.old →
            OnOk result (HeadlineHolds net (facts_after net (events ++ event.now ∷ []))) }
        ensures looks { OnOk result (self.new.looks ≤ 128) }
        ensures counted { (net : Topology) (events : List Event) → StandsFor net events self.old →
            OnOk result (self.new.looks ≡ looks_of net (facts_after net events) event.now) }
        ensures same { OnErr result (self.new ≡ self.old) }
    {
        asks_rate(event);
        let net = self.net;
        let Some(place) = place_of(event, net.conns()) else {
            self.looks = 0;
            return Ok(Outcome::NotEnabled(Cause::Unknown));
        };
        let mut looks = Lookups::new();
        let conn = &net.conns()[place];
        let connection = &mut self.connections[looks.counting(place)];
        let port = visited(conn, event);
        let before = counted_marks(
            &self.violations,
            conn,
            connection,
            port,
            &self.ports,
            &mut looks,
        );
        let shaped = Shaped {
            rate: connection.actor.rate(),
            is_held: !before.above,
        };
        match connection.take(conn, &mut self.ports, event, &mut looks) {
            Ok(outcome) => {
                let after = marks_after(shaped, conn, connection, port, &self.ports, &mut looks);
                self.violations = self.violations.after(&before, &after);
                self.looks = looks.count();
                Ok(outcome)
            }
            Err(refused) => Err(refused),
        }
    }

    /// How many entries of the world's own maps and lists the last event that was answered looked up, 0 before the first.
    pub fn looks(&self) -> u64
        ensures { result ≡ self.now.looks }
    {
        self.looks
    }

    /// The rate at which the source of a connection shapes.
    pub fn rate(&self, conn: u16) -> Option<Rate>
        ensures { (net : Topology) (events : List Event) → StandsFor net events self.now →
            result ≡ rate_in net (facts_after net events) conn }
    {
        let place = usize::from(conn);
        if place >= self.connections.len() {
            return None;
        }
        Some(self.connections[place].actor.rate())
    }

    /// The floor and the asked rate of a request of a connection, if its source asked it. Finding it costs the same, however many
    /// requests there were.
    pub fn asked(&self, conn: u16, seq: u32) -> Option<(Rate, Rate)>
        ensures { (net : Topology) (events : List Event) → StandsFor net events self.now →
            result ≡ asked_for net (facts_after net events) conn seq }
    {
        let place = usize::from(conn);
        if place >= self.connections.len() {
            return None;
        }
        let mut looks = Lookups::new();
        self.connections[place].log.asked(seq, &mut looks)
    }

    /// The rate that a hop of its path, counted from 1, holds for a connection.
    pub fn held(&self, conn: u16, hop: u16) -> Option<Rate>
        ensures { (net : Topology) (events : List Event) → StandsFor net events self.now →
            result ≡ held_in net (facts_after net events) conn hop }
    {
        let conns = self.net.conns();
        let place = usize::from(conn);
        if place >= conns.len() {
            return None;
        }
        let port = usize::from(port_at(&conns[place], hop)?);
        if port >= self.ports.len() {
            return None;
        }
        self.ports[port].held(conns[place].vc)
    }

    /// The newest number that a hop of its path, counted from 1, decided for a connection, 0 before the first.
    pub fn newest(&self, conn: u16, hop: u16) -> Option<u32>
        ensures { (net : Topology) (events : List Event) → StandsFor net events self.now →
            result ≡ newest_in net (facts_after net events) conn hop }
    {
        let conns = self.net.conns();
        let place = usize::from(conn);
        if place >= conns.len() {
            return None;
        }
        let port = usize::from(port_at(&conns[place], hop)?);
        if port >= self.ports.len() {
            return None;
        }
        self.ports[port].newest(conns[place].vc)
    }

    /// The moment at which a cell of a connection left, in picoseconds, 0 if it didn't.
    pub fn moment(&self, conn: u16, cell: u64) -> Option<u64>
        ensures { (net : Topology) (events : List Event) → StandsFor net events self.now →
            result ≡ moment_in net (facts_after net events) conn cell }
    {
        let place = usize::from(conn);
        if place >= self.connections.len() {
            return None;
        }
        Some(
            self.connections[place]
                .log
                .emission(cell, &mut Lookups::new()),
        )
    }

    /// How far a connection has come.
    pub fn progress(&self, conn: u16) -> Option<Progress>
        ensures { (net : Topology) (events : List Event) → StandsFor net events self.now →
            result ≡ progress_in net (facts_after net events) conn }
    {
        let place = usize::from(conn);
        if place >= self.connections.len() {
            return None;
        }
        Some(progress_of(&self.connections[place]))
    }

    /// The sum of what a port holds, in units of 1/512 cell/s.
    pub fn total(&self, port: u16) -> Option<u64>
        ensures { (net : Topology) (events : List Event) → StandsFor net events self.now →
            result ≡ total_in net (facts_after net events) port }
    {
        let place = usize::from(port);
        if place >= self.net.capacities().len() || place >= self.ports.len() {
            return None;
        }
        Some(self.ports[place].total())
    }

    /// The capacity of the link behind a port that is in force, in units of 1/512 cell/s: the last that was set, else the
    /// net's (docs/RULES.md, "Node").
    pub fn capacity(&self, port: u16) -> Option<u64>
        ensures { (net : Topology) (events : List Event) → StandsFor net events self.now →
            result ≡ capacity_in net (facts_after net events) port }
    {
        let port = self.ports.get(usize::from(port))?;
        Some(port.capacity())
    }

    /// Whether no source shapes at a rate above what a hop of its path holds for it, no port holds more than the
    /// capacity that it has then, and each cell that arrived was found conforming (docs/GUARANTEES.md, "The headline"). It is counted anew at
    /// each event.
    pub fn safe(&self) -> bool
        ensures state { (result ≡ true) ↔ IsSound self.now }
        ensures value { (net : Topology) (events : List Event) → StandsFor net events self.now →
            (result ≡ true) ↔ IsSafe net (facts_after net events) }
        ensures headline { (net : Topology) (events : List Event) → StandsFor net events self.now →
            HeadlineHolds net (facts_after net events) }
    {
        self.violations.is_safe()
    }

    /// What is left in the end, beside the outcomes of the events.
    pub fn end(&self, alloc: Global, outcomes: Sequence<Outcome>) -> Result<Trace, AllocError>
        ensures trace { (net : Topology) (events : List Event) → StandsFor net events self.now →
            outcomes ≡ outcomes_of net events → IfOk result (IsTrace net events) }
        ensures headline { (net : Topology) (events : List Event) → StandsFor net events self.now →
            (before after : List Event) → before ++ after ≡ events →
            OnOk result (HeadlineHolds net (facts_after net before)) }
    {
        Ok(Trace {
            outcomes,
            rates: rates_of(alloc, &self.connections)?,
            held: held_of(alloc, self.net.conns(), &self.ports)?,
            totals: totals_of(alloc, &self.ports)?,
            capacities: capacities_of(alloc, &self.ports)?,
            safe: self.safe(),
        })
    }
}
