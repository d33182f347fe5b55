//! The journals of a net, as lists that tests change, and those that events project to.
use super::parts::{Visit, own, visited, visited_alone};
use abt_journal::{Entry, Journals, PortInput, PortReply};
use abt_model::{Sequence, SourceEntry, SourceJournal};
use abt_node::Onward;
use abt_walk::walk::Walk;
use abt_world::{Event, Net, Outcome};
use std::alloc::{AllocError, Global};

/// Who has capacities set. (Callers aren't compared.)
const OPERATOR: u16 = 64;

/// The journals of all ports and of all sources of a net.
#[derive(Debug, Drop)]
pub struct Books {
    pub ports: Vec<Vec<Entry>>,
    pub sources: Vec<Vec<SourceEntry>>,
}

/// The journals of a net in which nothing has happened.
pub fn blank(alloc: Global, net: &Net) -> Result<Books, AllocError> {
    let mut ports = Vec::new(alloc);
    for _ in net.capacities() {
        ports.push(Vec::new(alloc))?;
    }
    let mut sources = Vec::new(alloc);
    for _ in net.conns() {
        sources.push(Vec::new(alloc))?;
    }
    Ok(Books { ports, sources })
}

/// How many entries a port has.
pub fn length_of(ports: &[Vec<Entry>], port: u16) -> u64 {
    match ports.get(usize::from(port)) {
        Some(entries) => u64::try_from(entries.len()).unwrap_or(0),
        None => 0,
    }
}

/// Adds an entry to a port's journal.
pub fn add_entry(ports: &mut Vec<Vec<Entry>>, port: u16, entry: Entry) -> Result<(), AllocError> {
    // Names the types within an entry, without which the checker can't follow one.
    let _ = matches!(entry.input, PortInput::Arrive { .. });
    let _ = PortReply::Requested(Onward::Pass);
    if let Some(entries) = ports.get_mut(usize::from(port)) {
        entries.push(entry)?;
    }
    Ok(())
}

// The entry that a visit makes, and its place.
fn add_visit(ports: &mut Vec<Vec<Entry>>, caller: u16, visit: &Visit) -> Result<u64, AllocError> {
    let place = length_of(ports.as_slice(), visit.port);
    let entry = Entry {
        place,
        caller,
        input: visit.input,
        reply: visit.reply,
    };
    add_entry(ports, visit.port, entry)?;
    Ok(place)
}

/// Adds an entry to a source's journal.
pub fn add_own(
    sources: &mut Vec<Vec<SourceEntry>>,
    conn: u16,
    entry: SourceEntry,
) -> Result<(), AllocError> {
    // Names the types within an entry, without which the checker can't follow one.
    let _ = Event::Again { conn };
    let _ = Outcome::Requested(Onward::Pass);
    if let Some(entries) = sources.get_mut(usize::from(conn)) {
        entries.push(entry)?;
    }
    Ok(())
}

/// The journals of just these events: to each port the entries of the events that happen at it, and to each source those of
/// what it does, is told, sends and delivers.
pub fn project(alloc: Global, net: &Net, events: &[Event]) -> Result<Books, AllocError> {
    // Names a type within an outcome, without which the checker can't follow one round the loop.
    let _ = Onward::Pass;
    let mut walk = Walk::new(alloc, net);
    let mut books = blank(alloc, net)?;
    for event in events {
        let Some(number) = event.conn() else {
            let outcome = walk.step(alloc, event)?;
            if let Some(visit) = visited_alone(event, &outcome) {
                add_visit(&mut books.ports, OPERATOR, &visit)?;
            }
            continue;
        };
        let facts = walk.facts_of(alloc, number)?;
        let outcome = walk.step(alloc, event)?;
        let conn = net.conns().get(usize::from(number));
        let visit = conn.and_then(|conn| visited(conn, &facts, event, &outcome));
        let mut place = 0;
        if let Some(visit) = visit {
            place = add_visit(&mut books.ports, number, &visit)?;
        }
        if let Some(entry) = own(event, &outcome, place) {
            add_own(&mut books.sources, number, entry)?;
        }
    }
    Ok(books)
}

/// How many entries there are in all.
pub fn count(books: &Books) -> usize {
    let mut count: usize = 0;
    for entries in &books.ports {
        count = count.saturating_add(entries.len());
    }
    for entries in &books.sources {
        count = count.saturating_add(entries.len());
    }
    count
}

/// The journals of ports as the program has them.
pub fn journals(alloc: Global, books: &Books) -> Result<Journals, AllocError> {
    let mut ports = Vec::new(alloc);
    for entries in &books.ports {
        ports.push(entries.as_slice().to_vec(alloc)?)?;
    }
    Ok(Journals { ports })
}

/// The journals of sources as the program has them.
pub fn source_journals(alloc: Global, books: &Books) -> Result<Vec<SourceJournal>, AllocError> {
    let mut sources = Vec::new(alloc);
    for entries in &books.sources {
        let entries = Sequence::from(entries.as_slice().to_vec(alloc)?);
        sources.push(SourceJournal { entries })?;
    }
    Ok(sources)
}

/// Whether two entries of a port are the same but for their callers.
pub fn is_same_step(one: &Entry, other: &Entry) -> bool {
    one.place == other.place && one.input == other.input && one.reply == other.reply
}

fn are_same_steps(one: &[Entry], other: &[Entry]) -> bool {
    one.len() == other.len()
        && one
            .iter()
            .zip(other)
            .all(|(entry, step)| is_same_step(entry, step))
}

/// Whether journals are the same but for callers.
pub fn are_same(one: &Books, other: &Books) -> bool {
    let ports = one.ports.iter().zip(&other.ports);
    let sources = one.sources.iter().zip(&other.sources);
    for (entries, steps) in ports {
        if !are_same_steps(entries.as_slice(), steps.as_slice()) {
            return false;
        }
    }
    for (entries, others) in sources {
        if entries.as_slice() != others.as_slice() {
            return false;
        }
    }
    one.ports.len() == other.ports.len() && one.sources.len() == other.sources.len()
}
