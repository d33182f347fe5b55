//! A slow search: every order in which the entries of small journals can be placed, with every choice of Turns.
use super::books::Books;
use super::named::{all_events, turns_of};
use super::placing::{Fit, Placing};
use abt_node::Onward;
use abt_weave::{Actor, Stuck};
use abt_world::{Event, Net};
use std::alloc::{AllocError, Global};

/// How many lists of events a search looks at before it gives up.
const LISTS: usize = 100_000;

/// Where nothing more fits.
#[derive(Debug, Drop, PartialEq)]
pub struct End {
    /// All actors that have entries left: sources by number, then ports by number.
    pub left: Vec<Stuck>,
    /// The first of them whose next entry mismatches.
    pub mismatch: Option<Stuck>,
}

/// What a search finds.
#[derive(Debug, Drop)]
pub struct Found {
    /// How many lists were looked at, and whether those are all.
    pub lists: usize,
    pub whole: bool,
    /// The ends that differ.
    pub ends: Vec<End>,
}

/// The journals, the events that they name, and the Turns.
#[derive(Debug, Drop)]
struct Case<'case> {
    net: &'case Net,
    books: &'case Books,
    events: Vec<Event>,
    turns: Vec<Event>,
}

// These events placed anew.
fn placed<'case>(
    alloc: Global,
    case: &Case<'case>,
    events: &[Event],
) -> Result<Placing<'case>, AllocError> {
    let mut placing = Placing::new(alloc, case.net)?;
    for event in events {
        if let Event::Turn { .. } = *event {
            placing.turn(alloc, event)?;
        } else {
            placing.place(alloc, event)?;
        }
    }
    Ok(placing)
}

fn with(alloc: Global, events: &[Event], event: &Event) -> Result<Vec<Event>, AllocError> {
    let mut longer = events.to_vec(alloc)?;
    longer.push(*event)?;
    Ok(longer)
}

// The list, and the list behind which any of the Turns come that are enabled there and haven't come.
fn turned(alloc: Global, case: &Case<'_>, events: &[Event]) -> Result<Vec<Vec<Event>>, AllocError> {
    let mut lists = Vec::new(alloc);
    lists.push(events.to_vec(alloc)?)?;
    let mut placing = placed(alloc, case, events)?;
    for turn in &case.turns {
        if events.contains(turn) || !placing.is_turn(alloc, turn)? {
            continue;
        }
        let mut longer = Vec::new(alloc);
        for list in &lists {
            longer.push(with(alloc, list.as_slice(), turn)?)?;
        }
        for list in longer {
            lists.push(list)?;
        }
    }
    Ok(lists)
}

/// The order in which actors are named: sources by number, then ports by number.
fn rank(actor: Actor) -> (u8, u16) {
    match actor {
        Actor::Source(conn) => (0, conn),
        Actor::Port(port) => (1, port),
    }
}

fn is_before(one: Actor, other: Actor) -> bool {
    let (kind, place) = rank(one);
    let (other_kind, other_place) = rank(other);
    kind < other_kind || (kind == other_kind && place < other_place)
}

/// The first of the actors that are left, of those whose next entries mismatch.
pub fn first_of(left: &[Stuck], mismatches: &[Actor]) -> Option<Stuck> {
    let mut first: Option<Stuck> = None;
    for stuck in left {
        if mismatches.contains(&stuck.actor) {
            let is_first = match first {
                Some(found) => is_before(stuck.actor, found.actor),
                None => true,
            };
            if is_first {
                first = Some(*stuck);
            }
        }
    }
    first
}

// Adds what fits behind a list, and notes whose next entry mismatches there.
fn extend(
    alloc: Global,
    case: &Case<'_>,
    events: &[Event],
    open: &mut Vec<Vec<Event>>,
    mismatches: &mut Vec<Actor>,
) -> Result<bool, AllocError> {
    let mut fits = false;
    let mut placing = placed(alloc, case, events)?;
    for event in &case.events {
        match placing.fit(alloc, case.books, event)? {
            Fit::Fits => {
                fits = true;
                open.push(with(alloc, events, event)?)?;
            }
            Fit::But(actor) => mismatches.push(actor)?,
            Fit::No => {}
        }
    }
    Ok(fits)
}

// Looks at one list: all that fits behind it is added, and where nothing does it is an end.
fn look(
    alloc: Global,
    case: &Case<'_>,
    events: &[Event],
    open: &mut Vec<Vec<Event>>,
) -> Result<Option<End>, AllocError> {
    let mut fits = false;
    let mut mismatches = Vec::new(alloc);
    for list in &turned(alloc, case, events)? {
        if extend(alloc, case, list.as_slice(), open, &mut mismatches)? {
            fits = true;
        }
    }
    if fits {
        return Ok(None);
    }
    let left = placed(alloc, case, events)?.left(alloc, case.books)?;
    let mismatch = first_of(left.as_slice(), mismatches.as_slice());
    Ok(Some(End { left, mismatch }))
}

fn note(ends: &mut Vec<End>, end: End) -> Result<(), AllocError> {
    for known in ends.as_slice() {
        if *known == end {
            return Ok(());
        }
    }
    ends.push(end)?;
    Ok(())
}

/// Searches every order.
pub fn search(alloc: Global, net: &Net, books: &Books) -> Result<Found, AllocError> {
    // Names a type within an outcome, without which the checker can't follow one.
    let _ = Onward::Pass;
    let mut steps = Vec::new(alloc);
    for entries in &books.ports {
        steps.extend_from_slice(entries.as_slice())?;
    }
    let case = Case {
        net,
        books,
        events: all_events(alloc, net, books)?,
        turns: turns_of(alloc, net, steps.as_slice())?,
    };
    let mut ends = Vec::new(alloc);
    let mut open = Vec::new(alloc);
    open.push(Vec::new(alloc))?;
    for lists in 0..LISTS {
        let Some(events) = open.pop() else {
            return Ok(Found {
                lists,
                whole: true,
                ends,
            });
        };
        if let Some(end) = look(alloc, &case, events.as_slice(), &mut open)? {
            note(&mut ends, end)?;
        }
    }
    Ok(Found {
        lists: LISTS,
        whole: false,
        ends,
    })
}
