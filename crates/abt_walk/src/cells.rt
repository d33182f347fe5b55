//! What the facts of one connection say of its cells, and what an arrival answers.
use crate::hops;
use crate::step::{Step, adds, not_enabled};
use crate::words::{asked, spacing};
use abt_facts::Fact;
use abt_gcra::Verdict;
use abt_rate::Rate;
use abt_world::{Cause, Outcome};

/// The moment at which a cell left.
pub fn emission(facts: &[Fact], number: u64) -> Option<u64> {
    for fact in facts {
        if let Fact::Emitted { cell, at, .. } = *fact {
            if cell == number {
                return Some(at);
            }
        }
    }
    None
}

/// The moment of the last arrival.
pub fn last_arrival(facts: &[Fact]) -> u64 {
    let mut last = 0;
    for fact in facts {
        if let Fact::Arrived { at, .. } = *fact {
            last = at;
        }
    }
    last
}

/// The greatest of the marks of delivered requests and of one more than the last cell that arrived, or 0.
pub fn fence(facts: &[Fact]) -> u64 {
    let mut greatest = 0;
    let mut arrived: u64 = 0;
    for fact in facts {
        match *fact {
            Fact::Arrived { cell, .. } => arrived = cell.saturating_add(1),
            Fact::Delivered { seq } => {
                if let Some(terms) = asked(facts, seq) {
                    greatest = terms.mark.max(greatest);
                }
            }
            _ => {}
        }
    }
    arrived.max(greatest)
}

// Arrival and spacing of a cell, if this fact is that it was taken.
fn taken(fact: &Fact) -> Option<(u64, u64)> {
    let Fact::Arrived {
        at,
        rate,
        verdict,
        ..
    } = *fact
    else {
        return None;
    };
    if verdict != Verdict::Conforming {
        return None;
    }
    Some((at, spacing(rate)?))
}

/// Whether all cells that were taken, followed by one at this moment, conform: between any two of them lie all spacings
/// from the earlier one up to the later one, less the tolerance.
pub fn conforms(facts: &[Fact], tau: u64, last: u64) -> bool {
    for (place, earlier) in facts.iter().enumerate() {
        let Some((mut due, _)) = taken(earlier) else {
            continue;
        };
        for later in facts.iter().skip(place) {
            if let Some((at, spacing)) = taken(later) {
                if at.saturating_add(tau) < due {
                    return false;
                }
                due = due.saturating_add(spacing);
            }
        }
        if last.saturating_add(tau) < due {
            return false;
        }
    }
    true
}

/// What an access line may do to its cells.
#[derive(Clone, Copy, Debug, PartialEq, Eq)]
pub struct AccessLine {
    pub delay: u64,
    pub tau: u64,
}

pub(crate) fn arrive(line: AccessLine, facts: &[Fact], cell: u64, at: u64) -> Step {
    let Some(emission) = emission(facts, cell) else {
        return not_enabled(Cause::NotSent);
    };
    if cell < fence(facts) {
        return not_enabled(Cause::Fenced);
    }
    let earliest = emission.saturating_add(line.delay);
    if at < earliest || at > earliest.saturating_add(line.tau) {
        return not_enabled(Cause::Delay);
    }
    if at < last_arrival(facts) {
        return not_enabled(Cause::ClockBack);
    }
    let rate = hops::held(facts, 1);
    let verdict = if rate == Rate::ZERO {
        Verdict::NoRate
    } else if conforms(facts, line.tau, at) {
        Verdict::Conforming
    } else {
        Verdict::TooEarly
    };
    adds(
        Outcome::Arrived(verdict),
        Fact::Arrived {
            cell,
            at,
            rate,
            verdict,
        },
    )
}
