//! Weaving by passes, as the program did it before it had a queue: each actor is looked at again and again, sources before
//! ports, until a pass over all of them places nothing.
use super::books::{Books, length_of};
use super::search::End;
use abt_cell::Vc;
use abt_journal::{Entry, PortInput, PortReply};
use abt_model::SourceEntry;
use abt_node::Onward;
use abt_rate::Rate;
use abt_walk::walk::number;
use abt_weave::{Actor, Stuck};
use abt_world::{Event, Net, Outcome, World};
use std::alloc::{AllocError, Global};

/// How many passes there are at most.
const PASSES: u64 = 100_000;

/// What became of an actor's next entry.
#[derive(Clone, Copy, Debug, PartialEq, Eq)]
enum Look {
    Placed,
    Waits,
    Mismatches,
}

/// The events that are placed, the world after them, and how many entries of each actor they are.
#[derive(Debug, Drop)]
struct Board<'run> {
    net: &'run Net,
    books: &'run Books,
    world: World<'run>,
    events: Vec<Event>,
    sources: Vec<usize>,
    ports: Vec<usize>,
}

/// An event that may be an entry of a port, and the connection of whose source it is an entry too.
#[derive(Clone, Copy)]
struct Coming {
    event: Event,
    beside: Option<u16>,
}

fn is_enabled(outcome: &Outcome) -> bool {
    !matches!(outcome, Outcome::NotEnabled(_))
}

// The reply of a port that an outcome tells.
fn reply_of(outcome: &Outcome) -> Option<PortReply> {
    match *outcome {
        Outcome::Requested(onward) => Some(PortReply::Requested(onward)),
        Outcome::Answered(back) => Some(PortReply::Answered(back)),
        Outcome::Arrived(verdict) => Some(PortReply::Arrived(Ok(verdict))),
        Outcome::CapacitySet => Some(PortReply::Capped(Ok(()))),
        Outcome::CapacityRefused(fault) => Some(PortReply::Capped(Err(fault))),
        _ => None,
    }
}

// The floor and the asked rate of the last request of a number.
fn rates_asked(entries: &[SourceEntry], seq: u32) -> (Rate, Rate) {
    let mut rates = (Rate::ZERO, Rate::ZERO);
    for entry in entries {
        if let SourceEntry::Did(Event::Ask { .. }, Outcome::Asked(request)) = *entry {
            if request.seq() == seq {
                rates = (request.floor(), request.ask());
            }
        }
    }
    rates
}

fn channel_of(input: &PortInput) -> Option<Vc> {
    match input {
        PortInput::Request(request) => Some(request.vc()),
        PortInput::Answer(answer) => Some(answer.vc()),
        PortInput::Arrive { vc, .. } => Some(*vc),
        PortInput::Capacity(_) => None,
    }
}

// The cell that arrived at this place.
fn cell_at(next: Option<SourceEntry>, place: u64) -> Option<u64> {
    match next {
        Some(SourceEntry::Arrived { cell, place: named }) if named == place => Some(cell),
        _ => None,
    }
}

// The event of a connection that this can be at a hop.
fn event_of(
    conn: u16,
    hop: u16,
    entry: &Entry,
    placed: &[SourceEntry],
    next: Option<SourceEntry>,
) -> Option<Coming> {
    match entry.input {
        PortInput::Request(request) => {
            let seq = request.seq();
            if rates_asked(placed, seq) != (request.floor(), request.ask()) {
                return None;
            }
            let sent = matches!(next, Some(SourceEntry::Sent { place }) if place == entry.place);
            if hop == 1 && !sent {
                return None;
            }
            let beside = if hop == 1 { Some(conn) } else { None };
            let event = Event::Request { conn, hop, seq };
            Some(Coming { event, beside })
        }
        PortInput::Answer(answer) => {
            let seq = answer.seq();
            if rates_asked(placed, seq) != (answer.floor(), answer.ask()) {
                return None;
            }
            let granted = answer.granted();
            let event = Event::Answer {
                conn,
                hop,
                seq,
                granted,
            };
            let beside = None;
            Some(Coming { event, beside })
        }
        PortInput::Arrive { at, .. } => {
            if hop != 1 {
                return None;
            }
            let cell = cell_at(next, entry.place)?;
            let event = Event::Arrive { conn, cell, at };
            let beside = Some(conn);
            Some(Coming { event, beside })
        }
        PortInput::Capacity(_) => None,
    }
}

fn place_in(places: &[usize], actor: u16) -> usize {
    places.get(usize::from(actor)).copied().unwrap_or(0)
}

fn one_more(places: &mut Vec<usize>, actor: u16) {
    if let Some(place) = places.get_mut(usize::from(actor)) {
        *place = place.saturating_add(1);
    }
}

fn world_after<'run>(
    alloc: Global,
    net: &'run Net,
    events: &[Event],
) -> Result<World<'run>, AllocError> {
    // Names a type within an outcome, without which the checker can't follow one.
    let _ = Onward::Pass;
    let mut world = World::new(alloc, net)?;
    for event in events {
        world.step(event)?;
    }
    Ok(world)
}

impl<'run> Board<'run> {
    fn new(alloc: Global, net: &'run Net, books: &'run Books) -> Result<Board<'run>, AllocError> {
        Ok(Board {
            net,
            books,
            world: World::new(alloc, net)?,
            events: Vec::new(alloc),
            sources: vec![in alloc; 0usize; net.conns().len()]?,
            ports: vec![in alloc; 0usize; net.capacities().len()]?,
        })
    }

    fn next_own(&self, conn: u16) -> Option<SourceEntry> {
        let entries = self.books.sources.get(usize::from(conn))?;
        entries.get(place_in(&self.sources, conn)).copied()
    }

    fn next_step(&self, port: u16) -> Option<Entry> {
        let entries = self.books.ports.get(usize::from(port))?;
        let place = place_in(&self.ports, port);
        let entry = entries.get(place).copied()?;
        if entry.place == u64::try_from(place).ok()? {
            Some(entry)
        } else {
            None
        }
    }

    // Makes the world anew.
    fn again(&mut self, alloc: Global) -> Result<Look, AllocError> {
        self.world = world_after(alloc, self.net, &self.events)?;
        Ok(Look::Mismatches)
    }

    fn look_at_source(&mut self, alloc: Global, conn: u16) -> Result<Look, AllocError> {
        // Names a type within an outcome, without which the checker can't follow one.
        let _ = Onward::Pass;
        let Some(SourceEntry::Did(event, told)) = self.next_own(conn) else {
            return Ok(Look::Waits);
        };
        let own = match event {
            Event::Request { .. }
            | Event::Answer { .. }
            | Event::Arrive { .. }
            | Event::Turn { .. } => false,
            _ => event.conn() == Some(conn),
        };
        if !own {
            return Ok(Look::Waits);
        }
        let outcome = self.world.step(&event)?;
        if !is_enabled(&outcome) && matches!(event, Event::Told { .. }) {
            return Ok(Look::Waits);
        }
        if outcome != told {
            return self.again(alloc);
        }
        self.events.push(event)?;
        one_more(&mut self.sources, conn);
        Ok(Look::Placed)
    }

    // The event that the next entry of a port can be.
    fn coming(&self, port: u16, entry: &Entry) -> Option<Coming> {
        if let PortInput::Capacity(capacity) = entry.input {
            let event = Event::Capacity { port, capacity };
            let beside = None;
            return Some(Coming { event, beside });
        }
        let conn = self.net.find(channel_of(&entry.input)?)?;
        let hop = self.net.conns().get(usize::from(conn))?.path.hop_of(port)?;
        let entries = self.books.sources.get(usize::from(conn))?;
        let come = place_in(&self.sources, conn);
        let placed = entries.get(..come)?;
        event_of(conn, number(hop), entry, placed, self.next_own(conn))
    }

    // The Turn that makes a yes at the last hop.
    fn turn_of(&self, event: &Event) -> Option<Event> {
        let Event::Answer {
            conn,
            hop,
            seq,
            granted: true,
        } = *event
        else {
            return None;
        };
        let path = &self.net.conns().get(usize::from(conn))?.path;
        if usize::from(hop) == path.len() {
            Some(Event::Turn { conn, seq })
        } else {
            None
        }
    }

    fn look_at_port(&mut self, alloc: Global, port: u16) -> Result<Look, AllocError> {
        // Names the types within an entry and an outcome, without which the checker can't follow one.
        let _ = PortReply::Requested(Onward::Pass);
        let Some(entry) = self.next_step(port) else {
            return Ok(Look::Waits);
        };
        let Some(Coming { event, beside }) = self.coming(port, &entry) else {
            return Ok(Look::Waits);
        };
        let outcome = self.world.step(&event)?;
        if is_enabled(&outcome) {
            return self.compare(alloc, port, &entry, beside, event, &outcome, None);
        }
        let Some(turn) = self.turn_of(&event) else {
            return Ok(Look::Waits);
        };
        let turned = self.world.step(&turn)?;
        if !is_enabled(&turned) {
            return Ok(Look::Waits);
        }
        let outcome = self.world.step(&event)?;
        self.compare(alloc, port, &entry, beside, event, &outcome, Some(turn))
    }

    // Places an event that has happened, with its Turn, if it answers what a port's entry says.
    fn compare(
        &mut self,
        alloc: Global,
        port: u16,
        entry: &Entry,
        beside: Option<u16>,
        event: Event,
        outcome: &Outcome,
        turn: Option<Event>,
    ) -> Result<Look, AllocError> {
        if reply_of(outcome) != Some(entry.reply) {
            return self.again(alloc);
        }
        if let Some(turn) = turn {
            self.events.push(turn)?;
        }
        self.events.push(event)?;
        one_more(&mut self.ports, port);
        if let Some(conn) = beside {
            one_more(&mut self.sources, conn);
        }
        Ok(Look::Placed)
    }

    // Looks once at each actor, and says whether an entry was placed, and whose next entry mismatches.
    fn pass(&mut self, alloc: Global) -> Result<(bool, Vec<Actor>), AllocError> {
        let mut moved = false;
        let mut mismatches = Vec::new(alloc);
        for conn in 0..number(self.net.conns().len()) {
            match self.look_at_source(alloc, conn)? {
                Look::Placed => moved = true,
                Look::Mismatches => mismatches.push(Actor::Source(conn))?,
                Look::Waits => {}
            }
        }
        for port in 0..number(self.net.capacities().len()) {
            match self.look_at_port(alloc, port)? {
                Look::Placed => moved = true,
                Look::Mismatches => mismatches.push(Actor::Port(port))?,
                Look::Waits => {}
            }
        }
        Ok((moved, mismatches))
    }

    // All actors that have entries left, with their places.
    fn left(&self, alloc: Global) -> Result<Vec<Stuck>, AllocError> {
        let mut left = Vec::new(alloc);
        for conn in 0..number(self.net.conns().len()) {
            if self.next_own(conn).is_some() {
                let place = u64::try_from(place_in(&self.sources, conn)).unwrap_or(0);
                let actor = Actor::Source(conn);
                left.push(Stuck { actor, place })?;
            }
        }
        for port in 0..number(self.net.capacities().len()) {
            let place = u64::try_from(place_in(&self.ports, port)).unwrap_or(0);
            if place < length_of(&self.books.ports, port) {
                let actor = Actor::Port(port);
                left.push(Stuck { actor, place })?;
            }
        }
        Ok(left)
    }
}

/// Where passes over all actors end.
pub fn end_of_passes(alloc: Global, net: &Net, books: &Books) -> Result<Option<End>, AllocError> {
    let mut board = Board::new(alloc, net, books)?;
    for _ in 0..PASSES {
        let (moved, mismatches) = board.pass(alloc)?;
        if !moved {
            let left = board.left(alloc)?;
            let mut mismatch = None;
            for stuck in &left {
                if mismatch.is_none() && mismatches.as_slice().contains(&stuck.actor) {
                    mismatch = Some(*stuck);
                }
            }
            return Ok(Some(End { left, mismatch }));
        }
    }
    Ok(None)
}
