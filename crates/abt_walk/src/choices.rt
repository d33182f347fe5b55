//! What a source and its access line may do next, mostly at the edges of what they can.
use crate::draws::Draws;
use crate::walk::{Walk, number};
use crate::{cells, words};
use abt_facts::Fact;
use abt_keep::StorePlan;
use abt_rate::Rate;
use abt_world::Event;
use std::alloc::{AllocError, Global};

/// A connection, its access line, and what happened to it.
#[derive(Clone, Copy, Debug)]
pub struct Sight<'facts> {
    pub conn: u16,
    pub hops: u16,
    pub delay: u64,
    pub tau: u64,
    pub facts: &'facts [Fact],
}

pub(crate) fn start(draws: &mut Draws, sight: Sight<'_>) -> Event {
    let clock = words::clock(sight.facts);
    let now = match draws.below(16) {
        0 => clock.saturating_sub(1),
        1 => 2_305_842_009_213_693_953,
        2 => clock.saturating_add(draws.below(2_000_000_000_000)),
        _ => clock,
    };
    let conn = sight.conn;
    Event::Start { conn, now }
}

pub(crate) fn ask(draws: &mut Draws, sight: Sight<'_>) -> Event {
    let code = match draws.below(16) {
        0 | 1 => 0,
        2 => 0x4000,
        3..=6 => 0x5120,
        7..=9 => 0x5258,
        10..=12 => 0x53e8,
        13 => 0x7fff,
        _ => draws.small(u16::MAX),
    };
    let plan = match draws.below(16) {
        0 => StorePlan::FailsBefore,
        1 => StorePlan::FailsAfter,
        _ => StorePlan::Works,
    };
    Event::Ask {
        conn: sight.conn,
        rate: Rate::from_code(code),
        plan,
    }
}

pub(crate) fn emit(draws: &mut Draws, sight: Sight<'_>) -> Event {
    let clock = words::clock(sight.facts);
    let next = words::next(sight.facts).max(clock);
    let now = match draws.below(20) {
        0 => next.saturating_sub(1),
        1 => clock.saturating_sub(1),
        2 => clock,
        3 => next.saturating_add(draws.below(5_000_000_000)),
        4 => 2_305_843_009_213_693_953,
        _ => next,
    };
    let conn = sight.conn;
    Event::Emit { conn, now }
}

pub(crate) fn arrive(draws: &mut Draws, sight: Sight<'_>) -> Event {
    let emitted = words::emitted(sight.facts);
    let fence = cells::fence(sight.facts);
    let cell = match draws.below(12) {
        0 => emitted,
        1 => fence.saturating_sub(1),
        2 => draws.below(emitted),
        3 => fence.saturating_add(1),
        _ => fence,
    };
    let conn = sight.conn;
    let at = arrival(draws, sight, cell);
    Event::Arrive { conn, cell, at }
}

/// A moment at which a cell arrives, or at which it just doesn't.
pub fn arrival(draws: &mut Draws, sight: Sight<'_>, cell: u64) -> u64 {
    let last = cells::last_arrival(sight.facts);
    let Some(emission) = cells::emission(sight.facts, cell) else {
        return last;
    };
    let earliest = emission.saturating_add(sight.delay);
    let latest = earliest.saturating_add(sight.tau);
    match draws.below(16) {
        0 => earliest.saturating_sub(1),
        1 => latest.saturating_add(1),
        2 => last.saturating_sub(1).max(earliest),
        3 => last,
        4 => earliest,
        5 => earliest.saturating_add(draws.below(sight.tau.saturating_add(1))),
        6..=9 => latest,
        _ => earliest.max(last),
    }
}

/// A capacity of a port at, just below or just above what is held there, now and then the one that the net gives it or one
/// about the limit. The port may be one that no path goes through, or one behind the last.
pub(crate) fn capacity(
    alloc: Global,
    draws: &mut Draws,
    walk: &Walk<'_>,
) -> Result<Event, AllocError> {
    let capacities = walk.net().capacities();
    let port = draws.small(number(capacities.len()).saturating_add(1));
    let total = walk.total(alloc, port)?;
    let first = capacities.get(usize::from(port)).copied().unwrap_or(0);
    let capacity = match draws.below(16) {
        0..=2 => total,
        3..=5 => total.saturating_sub(1),
        6 | 7 => total.saturating_add(1),
        8 | 9 => 1_152_921_504_606_846_976,
        10 => 1_152_921_504_606_846_977,
        11 => draws.below(1_000_000),
        _ => first,
    };
    Ok(Event::Capacity { port, capacity })
}
