//! Events that are placed before journals, one after the other, and what may come next (docs/THREADS.md).
use super::books::{Books, length_of};
use super::parts::{Visit, own, visited, visited_alone};
use abt_journal::{Entry, PortInput, PortReply};
use abt_model::SourceEntry;
use abt_node::Onward;
use abt_walk::walk::{Walk, number};
use abt_weave::{Actor, Stuck};
use abt_world::{Event, Net, Outcome};
use std::alloc::{AllocError, Global};

/// Whether an event is the next entries of the actors on which it falls.
#[derive(Clone, Copy, Debug, PartialEq, Eq)]
pub enum Fit {
    /// It is, and it falls on one at least.
    Fits,
    /// It would be, but for the outcome or reply in the next entry of this actor.
    But(Actor),
    /// It isn't.
    No,
}

/// Events whose projections are the beginnings of journals.
#[derive(Debug, Drop)]
pub struct Placing<'net> {
    pub walk: Walk<'net>,
    pub events: Vec<Event>,
    /// How many entries of each port and of each source the events are.
    pub ports: Vec<u64>,
    pub sources: Vec<u64>,
}

/// What an event would be.
struct Parts {
    visit: Option<Visit>,
    own: Option<SourceEntry>,
}

fn item<T: Copy>(items: &[T], place: u64) -> Option<T> {
    items.get(usize::try_from(place).ok()?).copied()
}

fn at(counts: &[u64], number: u16) -> u64 {
    counts.get(usize::from(number)).copied().unwrap_or(0)
}

fn one_more(counts: &mut Vec<u64>, number: u16) {
    if let Some(count) = counts.get_mut(usize::from(number)) {
        *count = count.saturating_add(1);
    }
}

// Whether both are what a source did, and it did the same.
fn is_same_event(one: &SourceEntry, other: &SourceEntry) -> bool {
    match one {
        SourceEntry::Did(event, _) => match other {
            SourceEntry::Did(told, _) => *event == *told,
            _ => false,
        },
        _ => false,
    }
}

fn zeros(alloc: Global, count: usize) -> Result<Vec<u64>, AllocError> {
    vec![in alloc; 0u64; count]
}

impl<'net> Placing<'net> {
    /// Nothing is placed.
    pub fn new(alloc: Global, net: &'net Net) -> Result<Placing<'net>, AllocError> {
        Ok(Placing {
            walk: Walk::new(alloc, net),
            events: Vec::new(alloc),
            ports: zeros(alloc, net.capacities().len())?,
            sources: zeros(alloc, net.conns().len())?,
        })
    }

    // The place of the next entry of the port that is visited.
    fn place_of(&self, visit: &Option<Visit>) -> u64 {
        match visit {
            Some(visit) => at(self.ports.as_slice(), visit.port),
            None => 0,
        }
    }

    // What the event would be after those that are placed.
    fn parts(&mut self, alloc: Global, event: &Event) -> Result<Parts, AllocError> {
        // Names a type within an outcome, without which the checker can't follow one.
        let _ = Onward::Pass;
        let Some(number) = event.conn() else {
            return self.parts_alone(alloc, event);
        };
        let facts = self.walk.facts_of(alloc, number)?;
        let before = self.walk.count();
        let outcome = self.walk.step(alloc, event)?;
        self.walk.take_back(before);
        let conns = self.walk.net().conns();
        let visit = match conns.get(usize::from(number)) {
            Some(conn) => visited(conn, &facts, event, &outcome),
            None => None,
        };
        let place = self.place_of(&visit);
        let own = match conns.get(usize::from(number)) {
            Some(_) => own(event, &outcome, place),
            None => None,
        };
        Ok(Parts { visit, own })
    }

    // What an event of a port alone would be after those that are placed.
    fn parts_alone(&mut self, alloc: Global, event: &Event) -> Result<Parts, AllocError> {
        // Names a type within an outcome, without which the checker can't follow one.
        let _ = Onward::Pass;
        let before = self.walk.count();
        let outcome = self.walk.step(alloc, event)?;
        self.walk.take_back(before);
        Ok(Parts {
            visit: visited_alone(event, &outcome),
            own: None,
        })
    }

    fn next_step(&self, books: &Books, port: u16) -> Option<Entry> {
        let entries = books.ports.get(usize::from(port))?;
        item(entries.as_slice(), at(self.ports.as_slice(), port))
    }

    fn next_own(&self, books: &Books, conn: u16) -> Option<SourceEntry> {
        let entries = books.sources.get(usize::from(conn))?;
        item(entries.as_slice(), at(self.sources.as_slice(), conn))
    }

    // Whether a visit is the next entry of its port.
    fn fits_port(&self, books: &Books, visit: Option<Visit>) -> Fit {
        let Some(visit) = visit else {
            return Fit::Fits;
        };
        let place = at(self.ports.as_slice(), visit.port);
        match self.next_step(books, visit.port) {
            Some(entry) if entry.place == place && entry.input == visit.input => {
                if entry.reply == visit.reply {
                    Fit::Fits
                } else {
                    Fit::But(Actor::Port(visit.port))
                }
            }
            _ => Fit::No,
        }
    }

    // Whether what an event is to its source is the next entry there.
    fn fits_source(&self, books: &Books, conn: Option<u16>, own: Option<SourceEntry>) -> Fit {
        let (Some(conn), Some(own)) = (conn, own) else {
            return Fit::Fits;
        };
        let Some(next) = self.next_own(books, conn) else {
            return Fit::No;
        };
        if next == own {
            return Fit::Fits;
        }
        if is_same_event(&own, &next) {
            Fit::But(Actor::Source(conn))
        } else {
            Fit::No
        }
    }

    /// Whether an event may come next.
    pub fn fit(&mut self, alloc: Global, books: &Books, event: &Event) -> Result<Fit, AllocError> {
        // Names the types within entries, without which the checker can't follow one.
        let _ = PortReply::Requested(Onward::Pass);
        let _ = SourceEntry::Did(*event, Outcome::Requested(Onward::Pass));
        let Parts { visit, own } = self.parts(alloc, event)?;
        if visit.is_none() && own.is_none() {
            return Ok(Fit::No);
        }
        if let Some(visit) = &visit {
            let _ = matches!(visit.input, PortInput::Arrive { .. });
        }
        let port = self.fits_port(books, visit);
        let source = self.fits_source(books, event.conn(), own);
        Ok(match (port, source) {
            (Fit::Fits, source) => source,
            (port, Fit::Fits) => port,
            _ => Fit::No,
        })
    }

    /// Places an event that fits.
    pub fn place(&mut self, alloc: Global, event: &Event) -> Result<(), AllocError> {
        // Names the types within a visit, without which the checker can't follow one.
        let _ = PortReply::Requested(Onward::Pass);
        let Parts { visit, own } = self.parts(alloc, event)?;
        self.walk.step(alloc, event)?;
        self.events.push(*event)?;
        if let Some(visit) = visit {
            let _ = matches!(visit.input, PortInput::Arrive { .. });
            one_more(&mut self.ports, visit.port);
        }
        if let (Some(conn), Some(_)) = (event.conn(), own) {
            one_more(&mut self.sources, conn);
        }
        Ok(())
    }

    /// Whether a Turn is enabled.
    pub fn is_turn(&mut self, alloc: Global, turn: &Event) -> Result<bool, AllocError> {
        // Names a type within an outcome, without which the checker can't follow one.
        let _ = Onward::Pass;
        let before = self.walk.count();
        let outcome = self.walk.step(alloc, turn)?;
        self.walk.take_back(before);
        Ok(outcome == Outcome::Turned)
    }

    /// Places a Turn, if it is enabled.
    pub fn turn(&mut self, alloc: Global, turn: &Event) -> Result<(), AllocError> {
        // Names a type within an outcome, without which the checker can't follow one.
        let _ = Onward::Pass;
        if self.is_turn(alloc, turn)? {
            self.walk.step(alloc, turn)?;
            self.events.push(*turn)?;
        }
        Ok(())
    }

    /// All actors that have entries left, at their places: sources by number, then ports by number.
    pub fn left(&self, alloc: Global, books: &Books) -> Result<Vec<Stuck>, AllocError> {
        let mut left = Vec::new(alloc);
        for (conn, place) in self.sources.iter().enumerate() {
            let actor = Actor::Source(number(conn));
            if self.next_own(books, number(conn)).is_some() {
                left.push(Stuck {
                    actor,
                    place: *place,
                })?;
            }
        }
        for (port, place) in self.ports.iter().enumerate() {
            let actor = Actor::Port(number(port));
            if *place < length_of(books.ports.as_slice(), number(port)) {
                left.push(Stuck {
                    actor,
                    place: *place,
                })?;
            }
        }
        Ok(left)
    }

    /// The next entries of all ports.
    pub fn next_steps(&self, alloc: Global, books: &Books) -> Result<Vec<Entry>, AllocError> {
        // Names the types within an entry, without which the checker can't follow one.
        let _ = PortReply::Requested(Onward::Pass);
        let mut next = Vec::new(alloc);
        for (port, _) in self.ports.iter().enumerate() {
            if let Some(entry) = self.next_step(books, number(port)) {
                let _ = matches!(entry.input, PortInput::Arrive { .. });
                next.push(entry)?;
            }
        }
        Ok(next)
    }

    /// The next entries of all sources, with the numbers of their connections.
    pub fn next_owns(
        &self,
        alloc: Global,
        books: &Books,
    ) -> Result<Vec<(u16, SourceEntry)>, AllocError> {
        let mut next = Vec::new(alloc);
        for (conn, _) in self.sources.iter().enumerate() {
            if let Some(entry) = self.next_own(books, number(conn)) {
                next.push((number(conn), entry))?;
            }
        }
        Ok(next)
    }
}
