//! What a port holds reserved, worked out from its journal by docs/RULES.md, "Node".
use abt_cell::{Answer, Request, Vc};
use abt_gcra::Verdict;
use abt_journal::{Entry, PortInput, PortReply};
use abt_node::{Back, CapacityFault, Onward};
use std::alloc::{AllocError, Global};
use std::process::Abort;
use std::test::Fail;

/// 2^60, the greatest capacity.
const GREATEST: u64 = 1_152_921_504_606_846_976;

/// What a port holds for a connection, in units.
#[derive(Clone, Copy, Debug)]
struct Held {
    vc: Vc,
    units: u64,
}

// What is held after a request that was served with this reply, if it is another rate than before.
fn held_by_request(request: &Request, reply: PortReply) -> Option<Held> {
    let rate = match reply {
        PortReply::Requested(Onward::Pass) => request.ask(),
        PortReply::Requested(Onward::Refuse(_)) => request.floor(),
        _ => return None,
    };
    Some(Held {
        vc: request.vc(),
        units: rate.units(),
    })
}

// What is held after an answer that was served with this reply, if it is another rate than before.
fn held_by_answer(answer: &Answer, reply: PortReply) -> Option<Held> {
    if answer.granted() || reply != PortReply::Answered(Back::Pass) {
        return None;
    }
    Some(Held {
        vc: answer.vc(),
        units: answer.floor().units(),
    })
}

// What is held after an entry, if it is another rate than before.
fn held_after(entry: &Entry) -> Option<Held> {
    match &entry.input {
        PortInput::Request(request) => held_by_request(request, entry.reply),
        PortInput::Answer(answer) => held_by_answer(answer, entry.reply),
        PortInput::Arrive { .. } | PortInput::Capacity(_) => None,
    }
}

fn hold(all: &mut Vec<Held>, held: Held) -> Result<(), AllocError> {
    for one in all.iter_mut() {
        if one.vc == held.vc {
            one.units = held.units;
            return Ok(());
        }
    }
    all.push(held)?;
    Ok(())
}

fn sum(all: &[Held]) -> u64 {
    let mut sum: u64 = 0;
    for held in all {
        sum = sum.saturating_add(held.units);
    }
    sum
}

// What a port that holds so much replies to a capacity.
fn capped(held: u64, capacity: u64) -> Result<(), CapacityFault> {
    if capacity < held {
        return Err(CapacityFault::BelowSum);
    }
    if capacity > GREATEST {
        return Err(CapacityFault::AboveLimit);
    }
    Ok(())
}

// The capacity in force after an entry. Demands that a capacity is set or refused as it has to be, and that each cell conforms.
fn in_force(rt: &impl Abort, capacity: u64, held: u64, entry: &Entry) -> u64 {
    match entry.input {
        PortInput::Capacity(wanted) => {
            let answer = capped(held, wanted);
            assert!(rt; entry.reply == PortReply::Capped(answer));
            if answer.is_ok() { wanted } else { capacity }
        }
        PortInput::Arrive { .. } => {
            assert!(rt; entry.reply == PortReply::Arrived(Ok(Verdict::Conforming)));
            capacity
        }
        _ => capacity,
    }
}

/// Demands that a port which began with a capacity never holds more than the one in force.
pub(super) fn stays_within(
    rt: &impl Abort,
    alloc: Global,
    first: u64,
    entries: &[Entry],
) -> Result<(), Fail> {
    let mut all = Vec::new(alloc);
    let mut capacity = first;
    for entry in entries {
        if let Some(held) = held_after(entry) {
            hold(&mut all, held)?;
        }
        let held = sum(&all);
        capacity = in_force(rt, capacity, held, entry);
        assert!(rt; held <= capacity);
    }
    Ok(())
}
