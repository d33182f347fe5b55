//! What the facts of one connection say of its source: each answer is found by going through all of them (docs/RULES.md,
//! "Facts"). Lists of facts have the oldest first.
use abt_cell::{Request, Vc};
use abt_facts::Fact;
use abt_keep::Record;
use abt_rate::Rate;

/// The state of a source.
#[derive(Clone, Copy, Debug, PartialEq, Eq)]
pub enum State {
    Down,
    /// It waits for no answer.
    Idle,
    /// It waits for the answer to this number.
    Asking { seq: u32 },
}

/// The request of a number.
#[derive(Clone, Copy, Debug, PartialEq, Eq)]
pub struct Terms {
    pub floor: Rate,
    pub ask: Rate,
    /// How many cells had left before.
    pub mark: u64,
}

/// By the last start, crash, ask or answer.
pub fn state_after(facts: &[Fact]) -> State {
    let mut state = State::Down;
    for fact in facts {
        state = match *fact {
            Fact::Started { .. } | Fact::Heard { .. } => State::Idle,
            Fact::Crashed => State::Down,
            Fact::Asked { seq, .. } => State::Asking { seq },
            _ => state,
        };
    }
    state
}

/// The rate asked for under a number, or None if it never was.
pub fn asked(facts: &[Fact], number: u32) -> Option<Terms> {
    for fact in facts {
        if let Fact::Asked {
            seq,
            floor,
            ask,
            mark,
        } = *fact
        {
            if seq == number {
                return Some(Terms { floor, ask, mark });
            }
        }
    }
    None
}

/// The request of a number that was asked.
pub fn request_of(vc: Vc, seq: u32, terms: Terms) -> Option<Request> {
    Request::new(vc, seq, terms.floor, terms.ask)
}

fn answered_rate(facts: &[Fact], seq: u32, granted: bool) -> Rate {
    match asked(facts, seq) {
        Some(terms) if granted => terms.ask,
        Some(terms) => terms.floor,
        None => Rate::ZERO,
    }
}

/// The rate at which the source shapes, by the same facts.
pub fn rate(facts: &[Fact]) -> Rate {
    let mut rate = Rate::ZERO;
    for fact in facts {
        rate = match *fact {
            Fact::Started { .. } | Fact::Crashed => Rate::ZERO,
            Fact::Asked { floor, .. } => floor,
            Fact::Heard { seq, granted } => answered_rate(facts, seq, granted),
            _ => rate,
        };
    }
    rate
}

/// The record that is in the store: the last one that was written.
pub fn stored(facts: &[Fact]) -> Record {
    let mut stored = Record::old(0);
    for fact in facts {
        if let Fact::Stored { kept } = *fact {
            stored = kept;
        }
    }
    stored
}

/// The record that the source knows to be kept: that of the last start, or one that was written since by an ask whose
/// request went out. Such a record stands just before its request, but one of an ask that failed may stand there too.
pub fn kept(facts: &[Fact]) -> Record {
    let mut known = Record::old(0);
    for (place, fact) in facts.iter().enumerate() {
        let (earlier, _) = facts.split_at(place);
        known = known_after(earlier, known, fact);
    }
    known
}

fn known_after(earlier: &[Fact], known: Record, fact: &Fact) -> Record {
    match *fact {
        Fact::Started { kept, .. } => kept,
        Fact::Asked { ask, .. } => match earlier.last() {
            Some(Fact::Stored { kept }) if is_above(earlier, known, ask) => *kept,
            _ => known,
        },
        _ => known,
    }
}

// Whether the next number, or the need of an ask, is above a record.
fn is_above(facts: &[Fact], known: Record, ask: Rate) -> bool {
    last(facts) >= known.number() || need(facts, ask) > known.spacing()
}

/// The record that an ask has to write, if it has to write one: its number and 63 more, and its need.
pub fn written(facts: &[Fact], ask: Rate) -> Option<Record> {
    if is_above(facts, kept(facts), ask) {
        let number = last(facts).saturating_add(1).saturating_add(63);
        Record::new(number, need(facts, ask))
    } else {
        None
    }
}

/// The need of an ask: the greatest of the gap since the last start or cell, and of the spacings of the present rate, of
/// the rate that an open request asks for, and of the asked rate.
pub fn need(facts: &[Fact], ask: Rate) -> u64 {
    let open = match state_after(facts) {
        State::Asking { seq } => answered_rate(facts, seq, true),
        _ => Rate::ZERO,
    };
    let mut need = gap(facts);
    for counted in [rate(facts), open, ask] {
        need = need.max(spacing(counted).unwrap_or(0));
    }
    need
}

/// The hold-off of the last start, or the spacing of the last cell, whichever was later.
pub fn gap(facts: &[Fact]) -> u64 {
    let mut gap = 1_000_000_000_000;
    for fact in facts {
        gap = match *fact {
            Fact::Started { kept, .. } => kept.spacing(),
            Fact::Emitted { rate, .. } => spacing(rate).unwrap_or(0),
            _ => gap,
        };
    }
    gap
}

/// The number of the last start or ask.
pub fn last(facts: &[Fact]) -> u32 {
    let mut last = 0;
    for fact in facts {
        last = match *fact {
            Fact::Started { kept, .. } => kept.number(),
            Fact::Asked { seq, .. } => seq,
            _ => last,
        };
    }
    last
}

/// The greatest moment of a start or an emission.
pub fn clock(facts: &[Fact]) -> u64 {
    let mut clock = 0;
    for fact in facts {
        clock = match *fact {
            Fact::Started { now, .. } => clock.max(now),
            Fact::Emitted { at, .. } => clock.max(at),
            _ => clock,
        };
    }
    clock
}

/// The least whole number of picoseconds which, times the units of the rate, is 512 * 10^12 or more. Zero has none.
pub fn spacing(rate: Rate) -> Option<u64> {
    const CELL: u64 = 512_000_000_000_000;
    let whole = CELL.checked_div(rate.units())?;
    if whole.saturating_mul(rate.units()) < CELL {
        Some(whole.saturating_add(1))
    } else {
        Some(whole)
    }
}

/// The first moment at which the next cell may leave: the hold-off after the last start, or the spacing of its rate after
/// the last cell, whichever was later.
pub fn next(facts: &[Fact]) -> u64 {
    let mut next: u64 = 0;
    for fact in facts {
        next = match *fact {
            Fact::Started { now, kept } => now.saturating_add(kept.spacing()),
            Fact::Emitted { at, rate, .. } => at.saturating_add(spacing(rate).unwrap_or(0)),
            _ => next,
        };
    }
    next
}

/// How many cells left.
pub fn emitted(facts: &[Fact]) -> u64 {
    let mut count: u64 = 0;
    for fact in facts {
        if let Fact::Emitted { .. } = *fact {
            count = count.saturating_add(1);
        }
    }
    count
}
