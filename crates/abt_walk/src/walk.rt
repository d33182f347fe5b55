//! A net that is walked through events: one list of facts, and every answer worked out anew from it.
use crate::cells::{self, AccessLine};
use crate::hops::{self, Link};
use crate::step::{Step, not_enabled};
use crate::{sources, words};
use abt_facts::Fact;
use abt_gcra::Verdict;
use abt_model::NetFact;
use abt_node::CapacityFault;
use abt_rate::Rate;
use abt_world::{Cause, Conn, Event, Net, Outcome};
use std::alloc::{AllocError, Global};

/// A net and the facts of its connections and ports, the oldest first.
#[derive(Debug, Drop)]
pub struct Walk<'net> {
    net: &'net Net,
    facts: Vec<NetFact>,
}

/// How a net stands: rates, what is held along each path, totals and capacities, and whether all that is safe.
#[derive(Debug, Drop)]
pub struct Standing {
    pub rates: Vec<Rate>,
    pub held: Vec<Vec<Rate>>,
    pub totals: Vec<u64>,
    pub capacities: Vec<u64>,
    pub safe: bool,
}

/// The number of a place in a list, or the greatest if it has none.
pub fn number(place: usize) -> u16 {
    u16::try_from(place).unwrap_or(u16::MAX)
}

// The port of a hop of its path.
fn port_of(conn: &Conn, hop: u16) -> Option<u16> {
    let place = usize::from(hop).checked_sub(1)?;
    conn.path.as_slice().get(place).copied()
}

fn answer(conn: &Conn, facts: &[Fact], event: &Event) -> Step {
    let hops = number(conn.path.len());
    let line = AccessLine {
        delay: conn.delay,
        tau: conn.tau,
    };
    match *event {
        Event::Start { now, .. } => sources::start(facts, now),
        Event::Ask { rate, plan, .. } => sources::ask(conn.vc, facts, rate, plan),
        Event::Again { .. } => sources::again(conn.vc, facts),
        Event::Crash { .. } => sources::crash(facts),
        Event::Emit { now, .. } => sources::emit(facts, now),
        Event::Arrive { cell, at, .. } => cells::arrive(line, facts, cell, at),
        Event::Turn { seq, .. } => hops::turn(facts, hops, seq),
        Event::Told { seq, granted, .. } => sources::told(facts, hops, seq, granted),
        Event::Answer {
            hop,
            seq,
            granted,
            ..
        } if port_of(conn, hop).is_some() => hops::answer(facts, hops, hop, seq, granted),
        Event::Answer { .. } | Event::Request { .. } | Event::Capacity { .. } => {
            not_enabled(Cause::Unknown)
        }
    }
}

// Whether each cell of a connection that arrived was found conforming.
fn all_conforming(facts: &[Fact]) -> bool {
    for fact in facts {
        if let Fact::Arrived { verdict, .. } = *fact {
            if verdict != Verdict::Conforming {
                return false;
            }
        }
    }
    true
}

impl<'net> Walk<'net> {
    /// Nothing has happened.
    pub fn new(alloc: Global, net: &'net Net) -> Walk<'net> {
        Walk {
            net,
            facts: Vec::new(alloc),
        }
    }

    /// The net of the walk.
    pub fn net(&self) -> &'net Net {
        self.net
    }

    /// How many facts there are.
    pub fn count(&self) -> usize {
        self.facts.len()
    }

    /// Takes back all facts but so many.
    pub fn take_back(&mut self, count: usize) {
        self.facts.truncate(count);
    }

    /// The facts of one connection.
    pub fn facts_of(&self, alloc: Global, conn: u16) -> Result<Vec<Fact>, AllocError> {
        let mut facts = Vec::new(alloc);
        for entry in &self.facts {
            match *entry {
                NetFact::OfConn { conn: owner, fact } if owner == conn => facts.push(fact)?,
                _ => {}
            }
        }
        Ok(facts)
    }

    /// Lets an event happen, and gives what it answers.
    pub fn step(&mut self, alloc: Global, event: &Event) -> Result<Outcome, AllocError> {
        if let Event::Capacity { port, capacity } = *event {
            return self.set_capacity(alloc, port, capacity);
        }
        let conn = event.conn();
        let step = self.answer(alloc, event)?;
        for fact in step.added {
            if let (Some(conn), Some(fact)) = (conn, fact) {
                self.facts.push(NetFact::OfConn { conn, fact })?;
            }
        }
        Ok(step.outcome)
    }

    // A port is to have a capacity: no less than what is held there, and at most 2^60.
    fn set_capacity(
        &mut self,
        alloc: Global,
        port: u16,
        capacity: u64,
    ) -> Result<Outcome, AllocError> {
        // Names a type within a net's facts, without which the checker can't follow one here.
        let _ = Fact::Crashed;
        if usize::from(port) >= self.net.capacities().len() {
            return Ok(Outcome::NotEnabled(Cause::Unknown));
        }
        if self.total(alloc, port)? > capacity {
            return Ok(Outcome::CapacityRefused(CapacityFault::BelowSum));
        }
        if capacity > 1_152_921_504_606_846_976 {
            return Ok(Outcome::CapacityRefused(CapacityFault::AboveLimit));
        }
        self.facts.push(NetFact::Capped { port, capacity })?;
        Ok(Outcome::CapacitySet)
    }

    /// The capacity of a port: the last that was set, else the net's.
    pub fn capacity(&self, port: u16) -> u64 {
        let first = self.net.capacities().get(usize::from(port)).copied();
        let mut in_force = first.unwrap_or(0);
        for entry in &self.facts {
            match *entry {
                NetFact::Capped {
                    port: capped,
                    capacity,
                } if capped == port => in_force = capacity,
                _ => {}
            }
        }
        in_force
    }

    fn answer(&self, alloc: Global, event: &Event) -> Result<Step, AllocError> {
        let Some(number) = event.conn() else {
            return Ok(not_enabled(Cause::Unknown));
        };
        let Some(conn) = self.net.conns().get(usize::from(number)) else {
            return Ok(not_enabled(Cause::Unknown));
        };
        let facts = self.facts_of(alloc, number)?;
        if let Event::Request { hop, seq, .. } = *event {
            return match port_of(conn, hop) {
                Some(port) => {
                    let link = self.link(alloc, port)?;
                    Ok(hops::request(conn.vc, &facts, link, hop, seq))
                }
                None => Ok(not_enabled(Cause::Unknown)),
            };
        }
        Ok(answer(conn, &facts, event))
    }

    fn link(&self, alloc: Global, port: u16) -> Result<Link, AllocError> {
        Ok(Link {
            total: self.total(alloc, port)?,
            capacity: self.capacity(port),
        })
    }

    /// The sum of what is held on a port, over each hop of each connection that stands there.
    pub fn total(&self, alloc: Global, port: u16) -> Result<u64, AllocError> {
        let mut total: u64 = 0;
        for (place, conn) in self.net.conns().iter().enumerate() {
            let facts = self.facts_of(alloc, number(place))?;
            for (before, visited) in conn.path.as_slice().iter().enumerate() {
                if *visited == port {
                    let held = hops::held_after(&facts, number(before));
                    total = total.saturating_add(held.units());
                }
            }
        }
        Ok(total)
    }

    fn rates(&self, alloc: Global) -> Result<Vec<Rate>, AllocError> {
        let mut rates = Vec::new(alloc);
        for (place, _) in self.net.conns().iter().enumerate() {
            rates.push(words::rate(&self.facts_of(alloc, number(place))?))?;
        }
        Ok(rates)
    }

    fn held_along(&self, alloc: Global, place: usize) -> Result<Vec<Rate>, AllocError> {
        let facts = self.facts_of(alloc, number(place))?;
        let mut held = Vec::new(alloc);
        if let Some(conn) = self.net.conns().get(place) {
            for (before, _) in conn.path.as_slice().iter().enumerate() {
                held.push(hops::held_after(&facts, number(before)))?;
            }
        }
        Ok(held)
    }

    fn held(&self, alloc: Global) -> Result<Vec<Vec<Rate>>, AllocError> {
        let mut held = Vec::new(alloc);
        for (place, _) in self.net.conns().iter().enumerate() {
            held.push(self.held_along(alloc, place)?)?;
        }
        Ok(held)
    }

    fn totals(&self, alloc: Global) -> Result<Vec<u64>, AllocError> {
        let mut totals = Vec::new(alloc);
        for (place, _) in self.net.capacities().iter().enumerate() {
            totals.push(self.total(alloc, number(place))?)?;
        }
        Ok(totals)
    }

    fn capacities(&self, alloc: Global) -> Result<Vec<u64>, AllocError> {
        let mut capacities = Vec::new(alloc);
        for (place, _) in self.net.capacities().iter().enumerate() {
            capacities.push(self.capacity(number(place)))?;
        }
        Ok(capacities)
    }

    // Whether a connection's rate is held at each hop and its cells conform.
    fn is_served(&self, alloc: Global, place: usize) -> Result<bool, AllocError> {
        let facts = self.facts_of(alloc, number(place))?;
        let rate = words::rate(&facts);
        for held in self.held_along(alloc, place)? {
            if rate > held {
                return Ok(false);
            }
        }
        Ok(all_conforming(&facts))
    }

    fn safe(&self, alloc: Global) -> Result<bool, AllocError> {
        for (place, _) in self.net.conns().iter().enumerate() {
            if !self.is_served(alloc, place)? {
                return Ok(false);
            }
        }
        for (place, _) in self.net.capacities().iter().enumerate() {
            if self.total(alloc, number(place))? > self.capacity(number(place)) {
                return Ok(false);
            }
        }
        Ok(true)
    }

    /// How the net stands after the events so far.
    pub fn standing(&self, alloc: Global) -> Result<Standing, AllocError> {
        Ok(Standing {
            rates: self.rates(alloc)?,
            held: self.held(alloc)?,
            totals: self.totals(alloc)?,
            capacities: self.capacities(alloc)?,
            safe: self.safe(alloc)?,
        })
    }
}
