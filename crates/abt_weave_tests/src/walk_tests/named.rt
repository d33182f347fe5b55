//! The events that journals name: no other can be an entry of theirs, whatever it answers.
use super::books::Books;
use super::placing::Placing;
use abt_journal::{Entry, PortInput};
use abt_model::SourceEntry;
use abt_walk::walk::number;
use abt_world::{Event, Net};
use std::alloc::{AllocError, Global};

// The number that a port's entry is about.
fn seq_of(entry: &Entry) -> Option<u32> {
    match entry.input {
        PortInput::Request(request) => Some(request.seq()),
        PortInput::Answer(answer) => Some(answer.seq()),
        PortInput::Arrive { .. } | PortInput::Capacity(_) => None,
    }
}

fn add(events: &mut Vec<Event>, event: Event) -> Result<(), AllocError> {
    if !events.as_slice().contains(&event) {
        events.push(event)?;
    }
    Ok(())
}

// What can come to a hop of a connection and be of this input.
fn coming(conn: u16, hop: u16, input: &PortInput) -> Option<Event> {
    match *input {
        PortInput::Request(request) => Some(Event::Request {
            conn,
            hop,
            seq: request.seq(),
        }),
        PortInput::Answer(answer) => Some(Event::Answer {
            conn,
            hop,
            seq: answer.seq(),
            granted: answer.granted(),
        }),
        PortInput::Arrive { .. } | PortInput::Capacity(_) => None,
    }
}

// A capacity that is named, at each port.
fn add_capacity(events: &mut Vec<Event>, net: &Net, capacity: u64) -> Result<(), AllocError> {
    for (place, _) in net.capacities().iter().enumerate() {
        let port = number(place);
        add(events, Event::Capacity { port, capacity })?;
    }
    Ok(())
}

fn add_coming(events: &mut Vec<Event>, net: &Net, entry: &Entry) -> Result<(), AllocError> {
    if let PortInput::Capacity(capacity) = entry.input {
        return add_capacity(events, net, capacity);
    }
    for (place, conn) in net.conns().iter().enumerate() {
        for hop in 0..number(conn.path.len()) {
            let hop = hop.saturating_add(1);
            if let Some(event) = coming(number(place), hop, &entry.input) {
                add(events, event)?;
            }
        }
    }
    Ok(())
}

// A cell that is named, at each moment of an arrival that is named.
fn add_cells(
    events: &mut Vec<Event>,
    conn: u16,
    named: u64,
    entries: &[Entry],
) -> Result<(), AllocError> {
    for entry in entries {
        if let PortInput::Arrive { at, .. } = entry.input {
            let cell = named;
            add(events, Event::Arrive { conn, cell, at })?;
        }
    }
    Ok(())
}

/// Each event that these entries of ports and of sources, with the number of its connection, name.
pub fn events_of(
    alloc: Global,
    net: &Net,
    steps: &[Entry],
    owns: &[(u16, SourceEntry)],
) -> Result<Vec<Event>, AllocError> {
    let mut events = Vec::new(alloc);
    for entry in steps {
        add_coming(&mut events, net, entry)?;
    }
    for (conn, entry) in owns {
        match *entry {
            SourceEntry::Did(event, _) => add(&mut events, event)?,
            SourceEntry::Arrived { cell, .. } => add_cells(&mut events, *conn, cell, steps)?,
            SourceEntry::Sent { .. } => {}
        }
    }
    Ok(events)
}

/// Each event that any entry of the journals names.
pub fn all_events(alloc: Global, net: &Net, books: &Books) -> Result<Vec<Event>, AllocError> {
    let mut steps = Vec::new(alloc);
    for entries in &books.ports {
        steps.extend_from_slice(entries.as_slice())?;
    }
    let mut owns = Vec::new(alloc);
    for (conn, entries) in books.sources.iter().enumerate() {
        for entry in entries {
            owns.push((number(conn), *entry))?;
        }
    }
    events_of(alloc, net, steps.as_slice(), owns.as_slice())
}

/// Each event that a next entry names.
pub fn next_events(
    alloc: Global,
    net: &Net,
    books: &Books,
    placing: &Placing<'_>,
) -> Result<Vec<Event>, AllocError> {
    let steps = placing.next_steps(alloc, books)?;
    let owns = placing.next_owns(alloc, books)?;
    events_of(alloc, net, steps.as_slice(), owns.as_slice())
}

/// The Turn of each number that these entries are about, of each connection.
pub fn turns_of(alloc: Global, net: &Net, steps: &[Entry]) -> Result<Vec<Event>, AllocError> {
    let mut turns = Vec::new(alloc);
    for entry in steps {
        if let Some(seq) = seq_of(entry) {
            for (place, _) in net.conns().iter().enumerate() {
                let conn = number(place);
                let turn = Event::Turn { conn, seq };
                add(&mut turns, turn)?;
            }
        }
    }
    Ok(turns)
}
