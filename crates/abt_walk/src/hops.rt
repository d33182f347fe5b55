//! What the facts of one connection say of its hops, and what requests and answers get there.
use crate::step::{Step, adds, not_enabled, nothing};
use crate::words::{self, request_of};
use abt_cell::{Answer, Request, Vc};
use abt_facts::Fact;
use abt_node::{Back, DropCause, Onward};
use abt_rate::Rate;
use abt_world::{Cause, Outcome};

/// The greatest number that a hop passed or shut.
pub fn newest(facts: &[Fact], place: u16) -> u32 {
    let mut greatest = 0;
    for fact in facts {
        match *fact {
            Fact::Passed { seq, hop } if hop == place => greatest = seq.max(greatest),
            Fact::Shut { seq, hop } if hop == place => greatest = seq.max(greatest),
            _ => {}
        }
    }
    greatest
}

/// Whether a hop passed its newest number and never shut it.
pub fn is_open(facts: &[Fact], hop: u16) -> bool {
    let seq = newest(facts, hop);
    seq != 0 && !facts.contains(&Fact::Shut { seq, hop })
}

/// What a hop holds: the asked rate of its newest number if that is open, else its floor.
pub fn held(facts: &[Fact], hop: u16) -> Rate {
    match words::asked(facts, newest(facts, hop)) {
        Some(terms) if is_open(facts, hop) => terms.ask,
        Some(terms) => terms.floor,
        None => Rate::ZERO,
    }
}

/// What the hop behind so many others holds.
pub fn held_after(facts: &[Fact], before: u16) -> Rate {
    held(facts, before.saturating_add(1))
}

/// What is held on a port in all, and its capacity.
#[derive(Clone, Copy, Debug, PartialEq, Eq)]
pub struct Link {
    pub total: u64,
    pub capacity: u64,
}

// Whether a request above the newest number has room.
fn fits(link: Link, held: Rate, ask: Rate) -> bool {
    let others = link.total.saturating_sub(held.units());
    others.saturating_add(ask.units()) <= link.capacity
}

// What a hop does with a request that lies there.
fn decide(facts: &[Fact], link: Link, hop: u16, request: &Request) -> Onward {
    let newest = newest(facts, hop);
    let held = held(facts, hop);
    let no = Onward::Refuse(Answer::of(request, false));
    if request.seq() < newest {
        Onward::Drop(DropCause::Stale)
    } else if request.seq() == newest {
        if is_open(facts, hop) {
            Onward::Pass
        } else {
            no
        }
    } else if request.floor() > held {
        Onward::Drop(DropCause::FloorAbove)
    } else if fits(link, held, request.ask()) {
        Onward::Pass
    } else {
        no
    }
}

pub(crate) fn request(vc: Vc, facts: &[Fact], link: Link, hop: u16, seq: u32) -> Step {
    let terms = words::asked(facts, seq);
    let Some(request) = terms.and_then(|terms| request_of(vc, seq, terms)) else {
        return not_enabled(Cause::NotSent);
    };
    let before = hop.saturating_sub(1);
    if hop != 1 && !facts.contains(&Fact::Passed { seq, hop: before }) {
        return not_enabled(Cause::NotSent);
    }
    let onward = decide(facts, link, hop, &request);
    let delivered = match hop {
        1 => Some(Fact::Delivered { seq }),
        _ => None,
    };
    let decided = match onward {
        Onward::Pass => Some(Fact::Passed { seq, hop }),
        Onward::Refuse(_) => Some(Fact::Shut { seq, hop }),
        Onward::Drop(_) => None,
    };
    Step {
        outcome: Outcome::Requested(onward),
        added: [delivered, decided],
    }
}

pub(crate) fn turn(facts: &[Fact], hops: u16, seq: u32) -> Step {
    if facts.contains(&Fact::Passed { seq, hop: hops }) {
        adds(Outcome::Turned, Fact::Turned { seq })
    } else {
        not_enabled(Cause::NotSent)
    }
}

/// Whether an answer lies at a hop; hop 0 is the source.
pub fn is_answer_at(facts: &[Fact], hops: u16, hop: u16, seq: u32, granted: bool) -> bool {
    let after = hop.saturating_add(1);
    if !granted {
        facts.contains(&Fact::Shut { seq, hop: after })
    } else if hop == hops {
        facts.contains(&Fact::Turned { seq })
    } else {
        facts.contains(&Fact::Back { seq, hop: after })
    }
}

pub(crate) fn answer(facts: &[Fact], hops: u16, hop: u16, seq: u32, granted: bool) -> Step {
    if !is_answer_at(facts, hops, hop, seq, granted) {
        return not_enabled(Cause::NotSent);
    }
    let newest = newest(facts, hop);
    let dropped = |cause| nothing(Outcome::Answered(Back::Drop(cause)));
    if seq < newest {
        return dropped(DropCause::Stale);
    }
    if seq > newest || (granted && !is_open(facts, hop)) {
        return dropped(DropCause::Conflict);
    }
    let passed = Outcome::Answered(Back::Pass);
    if granted {
        adds(passed, Fact::Back { seq, hop })
    } else {
        adds(passed, Fact::Shut { seq, hop })
    }
}
