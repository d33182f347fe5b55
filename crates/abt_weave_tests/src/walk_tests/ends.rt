//! One order in which the entries of large journals are placed, as far as they can be: another one than the program's.
use super::books::Books;
use super::named::{next_events, turns_of};
use super::placing::{Fit, Placing};
use super::search::{End, first_of};
use abt_node::Onward;
use abt_walk::draws::Draws;
use abt_world::{Event, Net};
use std::alloc::{AllocError, Global};

/// How many events are placed at most.
const EVENTS: u64 = 10_000;

// Places each Turn that a next entry is about and that is enabled and hasn't come.
fn turn_all(
    alloc: Global,
    net: &Net,
    books: &Books,
    placing: &mut Placing<'_>,
) -> Result<(), AllocError> {
    let steps = placing.next_steps(alloc, books)?;
    for turn in &turns_of(alloc, net, steps.as_slice())? {
        if !placing.events.as_slice().contains(turn) {
            placing.turn(alloc, turn)?;
        }
    }
    Ok(())
}

// One of the events that fit.
fn choose(
    alloc: Global,
    net: &Net,
    books: &Books,
    placing: &mut Placing<'_>,
    draws: &mut Draws,
) -> Result<Option<Event>, AllocError> {
    let mut chosen = None;
    let mut many: u64 = 0;
    for event in &next_events(alloc, net, books, placing)? {
        if placing.fit(alloc, books, event)? == Fit::Fits {
            many = many.saturating_add(1);
            if draws.one_in(many) {
                chosen = Some(*event);
            }
        }
    }
    Ok(chosen)
}

// Where nothing fits.
fn end_of(
    alloc: Global,
    net: &Net,
    books: &Books,
    placing: &mut Placing<'_>,
) -> Result<End, AllocError> {
    let mut mismatches = Vec::new(alloc);
    for event in &next_events(alloc, net, books, placing)? {
        if let Fit::But(actor) = placing.fit(alloc, books, event)? {
            mismatches.push(actor)?;
        }
    }
    let left = placing.left(alloc, books)?;
    let mismatch = first_of(left.as_slice(), mismatches.as_slice());
    Ok(End { left, mismatch })
}

/// An end, by an order that is drawn.
pub fn some_end(alloc: Global, net: &Net, books: &Books, seed: u64) -> Result<End, AllocError> {
    // Names a type within an outcome, without which the checker can't follow one.
    let _ = Onward::Pass;
    let mut draws = Draws::new(seed);
    let mut placing = Placing::new(alloc, net)?;
    for _ in 0..EVENTS {
        turn_all(alloc, net, books, &mut placing)?;
        let Some(event) = choose(alloc, net, books, &mut placing, &mut draws)? else {
            break;
        };
        placing.place(alloc, &event)?;
    }
    end_of(alloc, net, books, &mut placing)
}
