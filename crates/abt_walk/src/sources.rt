//! Outcomes at a source (docs/RULES.md, "Source").
use crate::hops::is_answer_at;
use crate::step::{Step, adds, not_enabled, nothing};
use crate::words::{self, State, Terms, request_of};
use abt_cell::Vc;
use abt_facts::Fact;
use abt_keep::{Record, StorePlan};
use abt_rate::Rate;
use abt_shaper::ShapeFault;
use abt_source::{AskFault, StartFault};
use abt_world::{Cause, Heard, Outcome};

/// The greatest moment of a start.
const START_MAX: u64 = 2_305_842_009_213_693_952;

/// The greatest moment of an emission.
const EMIT_MAX: u64 = 2_305_843_009_213_693_952;

pub(crate) fn start(facts: &[Fact], now: u64) -> Step {
    if words::state_after(facts) != State::Down {
        return not_enabled(Cause::Running);
    }
    if now < words::clock(facts) {
        return not_enabled(Cause::ClockBack);
    }
    if now > START_MAX {
        return nothing(Outcome::StartRefused(StartFault::TimeRange));
    }
    let kept = words::stored(facts);
    adds(Outcome::Started, Fact::Started { now, kept })
}

pub(crate) fn ask(vc: Vc, facts: &[Fact], ask: Rate, plan: StorePlan) -> Step {
    if words::state_after(facts) == State::Down {
        return not_enabled(Cause::Down);
    }
    let Some(seq) = words::last(facts).checked_add(1) else {
        return nothing(Outcome::AskRefused(AskFault::SeqExhausted));
    };
    let refused = Outcome::AskRefused(AskFault::Keep);
    match (words::written(facts, ask), plan) {
        (Some(_), StorePlan::FailsBefore) => nothing(refused),
        (Some(kept), StorePlan::FailsAfter) => adds(refused, Fact::Stored { kept }),
        (written, _) => asks(vc, facts, seq, ask, written),
    }
}

fn asks(vc: Vc, facts: &[Fact], seq: u32, ask: Rate, written: Option<Record>) -> Step {
    let floor = words::rate(facts).min(ask);
    let mark = words::emitted(facts);
    match request_of(vc, seq, Terms { floor, ask, mark }) {
        Some(request) => Step {
            outcome: Outcome::Asked(request),
            added: [
                stored(written),
                Some(Fact::Asked {
                    seq,
                    floor,
                    ask,
                    mark,
                }),
            ],
        },
        None => not_enabled(Cause::Unknown),
    }
}

fn stored(written: Option<Record>) -> Option<Fact> {
    match written {
        Some(kept) => Some(Fact::Stored { kept }),
        None => None,
    }
}

pub(crate) fn again(vc: Vc, facts: &[Fact]) -> Step {
    match words::state_after(facts) {
        State::Down => not_enabled(Cause::Down),
        State::Idle => not_enabled(Cause::NotAsking),
        State::Asking { seq } => {
            let terms = words::asked(facts, seq);
            match terms.and_then(|terms| request_of(vc, seq, terms)) {
                Some(request) => nothing(Outcome::Repeated(request)),
                None => not_enabled(Cause::Unknown),
            }
        }
    }
}

pub(crate) fn crash(facts: &[Fact]) -> Step {
    match words::state_after(facts) {
        State::Down => not_enabled(Cause::Down),
        _ => adds(Outcome::Crashed, Fact::Crashed),
    }
}

pub(crate) fn emit(facts: &[Fact], now: u64) -> Step {
    if words::state_after(facts) == State::Down {
        return not_enabled(Cause::Down);
    }
    if now < words::clock(facts) {
        return not_enabled(Cause::ClockBack);
    }
    if now > EMIT_MAX {
        return nothing(Outcome::EmitRefused(ShapeFault::TimeRange));
    }
    let rate = words::rate(facts);
    let Some(spacing) = words::spacing(rate) else {
        return nothing(Outcome::EmitRefused(ShapeFault::Zero));
    };
    let next = words::next(facts);
    if now < next {
        return nothing(Outcome::EmitRefused(ShapeFault::TooSoon { next }));
    }
    let cell = words::emitted(facts);
    let next = now.saturating_add(spacing);
    let at = now;
    adds(
        Outcome::Emitted { cell, next },
        Fact::Emitted { cell, at, rate },
    )
}

pub(crate) fn told(facts: &[Fact], hops: u16, seq: u32, granted: bool) -> Step {
    if !is_answer_at(facts, hops, 0, seq, granted) {
        return not_enabled(Cause::NotSent);
    }
    if words::state_after(facts) != (State::Asking { seq }) {
        return nothing(Outcome::Told(Heard::Ignored));
    }
    let heard = match granted {
        true => Heard::Raised,
        false => Heard::Refused,
    };
    adds(Outcome::Told(heard), Fact::Heard { seq, granted })
}
