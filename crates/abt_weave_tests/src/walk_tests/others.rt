//! Entries that say something else.
use abt_cell::{Answer, Request, Vc};
use abt_gcra::Verdict;
use abt_journal::{Entry, PortInput, PortReply};
use abt_keep::StorePlan;
use abt_model::SourceEntry;
use abt_node::{ArriveFault, Back, CapacityFault, DropCause, Onward};
use abt_rate::Rate;
use abt_shaper::ShapeFault;
use abt_source::{AskFault, StartFault};
use abt_walk::draws::Draws;
use abt_world::{Cause, Event, Heard, Outcome};

fn rate(draws: &mut Draws) -> Rate {
    match draws.below(4) {
        0 => Rate::ZERO,
        1 => Rate::from_code(0x5120),
        2 => Rate::from_code(0x5258),
        _ => Rate::from_code(0x53e8),
    }
}

fn nudged(draws: &mut Draws, number: u64) -> u64 {
    match draws.below(3) {
        0 => number.saturating_add(1),
        1 => number.saturating_sub(1),
        _ => draws.below(8),
    }
}

fn seq_near(draws: &mut Draws, seq: u32) -> u32 {
    u32::try_from(nudged(draws, u64::from(seq))).unwrap_or(seq)
}

// The request with another channel, number, floor or asked rate, if there is such a request.
fn request(draws: &mut Draws, same: &Request) -> Request {
    let other = match draws.below(5) {
        0 => Vc::new(1, draws.small(5).saturating_add(99)).and_then(|vc| Request::new(
            vc,
            same.seq(),
            same.floor(),
            same.ask(),
        )),
        1 => Request::new(
            same.vc(),
            seq_near(draws, same.seq()),
            same.floor(),
            same.ask(),
        ),
        2 => Request::new(same.vc(), same.seq(), rate(draws), same.ask()),
        _ => Request::new(same.vc(), same.seq(), same.floor(), rate(draws)),
    };
    other.unwrap_or(*same)
}

fn asked_by(answer: &Answer) -> Option<Request> {
    Request::new(answer.vc(), answer.seq(), answer.floor(), answer.ask())
}

fn input(draws: &mut Draws, same: &PortInput) -> PortInput {
    match *same {
        PortInput::Request(sent) if draws.one_in(4) => {
            PortInput::Answer(Answer::of(&sent, draws.one_in(2)))
        }
        PortInput::Request(sent) => PortInput::Request(request(draws, &sent)),
        PortInput::Answer(answer) => match asked_by(&answer) {
            Some(sent) if draws.one_in(3) => {
                PortInput::Answer(Answer::of(&sent, !answer.granted()))
            }
            Some(sent) if draws.one_in(3) => PortInput::Request(sent),
            Some(sent) => PortInput::Answer(Answer::of(&request(draws, &sent), answer.granted())),
            None => PortInput::Answer(answer),
        },
        PortInput::Arrive { vc, at } => PortInput::Arrive {
            vc,
            at: nudged(draws, at),
        },
        PortInput::Capacity(capacity) => PortInput::Capacity(nudged(draws, capacity)),
    }
}

fn drop_cause(draws: &mut Draws) -> DropCause {
    match draws.below(4) {
        0 => DropCause::UnknownVc,
        1 => DropCause::Stale,
        2 => DropCause::Conflict,
        _ => DropCause::FloorAbove,
    }
}

fn arrival(draws: &mut Draws) -> Result<Verdict, ArriveFault> {
    match draws.below(6) {
        0 => Ok(Verdict::Conforming),
        1 => Ok(Verdict::TooEarly),
        2 => Ok(Verdict::NoRate),
        3 => Err(ArriveFault::UnknownVc),
        4 => Err(ArriveFault::NotIngress),
        _ => Err(ArriveFault::ClockBack),
    }
}

fn capping(draws: &mut Draws) -> Result<(), CapacityFault> {
    match draws.below(3) {
        0 => Ok(()),
        1 => Err(CapacityFault::BelowSum),
        _ => Err(CapacityFault::AboveLimit),
    }
}

// Mostly a reply to an input of this kind.
fn reply(draws: &mut Draws, given: &PortInput) -> PortReply {
    match *given {
        PortInput::Request(sent) => match draws.below(4) {
            0 => PortReply::Requested(Onward::Pass),
            1 => PortReply::Requested(Onward::Refuse(Answer::of(&sent, false))),
            2 => PortReply::Answered(Back::Pass),
            _ => PortReply::Requested(Onward::Drop(drop_cause(draws))),
        },
        PortInput::Answer(_) => match draws.below(3) {
            0 => PortReply::Answered(Back::Pass),
            1 => PortReply::Requested(Onward::Pass),
            _ => PortReply::Answered(Back::Drop(drop_cause(draws))),
        },
        PortInput::Arrive { .. } => PortReply::Arrived(arrival(draws)),
        PortInput::Capacity(_) => PortReply::Capped(capping(draws)),
    }
}

/// An entry of a port that differs in its reply, its input, its place or its caller.
pub fn other_step(draws: &mut Draws, same: &Entry) -> Entry {
    let mut entry = *same;
    match draws.below(8) {
        0..=3 => entry.reply = reply(draws, &same.input),
        4 => entry.place = nudged(draws, same.place),
        5 => entry.caller = draws.small(70),
        _ => entry.input = input(draws, &same.input),
    }
    entry
}

fn cause(draws: &mut Draws) -> Cause {
    match draws.below(6) {
        0 => Cause::Down,
        1 => Cause::Running,
        2 => Cause::NotSent,
        3 => Cause::ClockBack,
        4 => Cause::Unknown,
        _ => Cause::NotAsking,
    }
}

fn heard(draws: &mut Draws) -> Outcome {
    match draws.below(4) {
        0 => Outcome::Told(Heard::Raised),
        1 => Outcome::Told(Heard::Refused),
        2 => Outcome::NotEnabled(Cause::NotSent),
        _ => Outcome::Told(Heard::Ignored),
    }
}

// Another outcome, mostly of the same kind.
fn outcome(draws: &mut Draws, same: &Outcome) -> Outcome {
    if draws.one_in(4) {
        return Outcome::NotEnabled(cause(draws));
    }
    match *same {
        Outcome::Started => Outcome::StartRefused(StartFault::TimeRange),
        Outcome::Asked(sent) if draws.one_in(4) => Outcome::Repeated(sent),
        Outcome::Asked(sent) if draws.one_in(3) => {
            let _ = sent;
            Outcome::AskRefused(AskFault::Keep)
        }
        Outcome::Asked(sent) => Outcome::Asked(request(draws, &sent)),
        Outcome::Repeated(sent) => Outcome::Repeated(request(draws, &sent)),
        Outcome::Emitted { cell, next } => Outcome::Emitted {
            cell: nudged(draws, cell),
            next,
        },
        Outcome::EmitRefused(ShapeFault::TooSoon { next }) => {
            let next = nudged(draws, next);
            Outcome::EmitRefused(ShapeFault::TooSoon { next })
        }
        Outcome::EmitRefused(_) => Outcome::EmitRefused(ShapeFault::TimeRange),
        Outcome::Told(_) => heard(draws),
        Outcome::NotEnabled(_) if draws.one_in(2) => Outcome::Crashed,
        _ => Outcome::Started,
    }
}

// Another command or answer, mostly of the same kind, or this one for another connection.
fn event(draws: &mut Draws, conn: u16, same: &Event) -> Event {
    let conn = match draws.one_in(5) {
        true => draws.small(3),
        false => conn,
    };
    match *same {
        Event::Start { now, .. } => Event::Start {
            conn,
            now: nudged(draws, now),
        },
        Event::Ask { rate: asked, .. } if draws.one_in(3) => Event::Ask {
            conn,
            rate: asked,
            plan: StorePlan::FailsAfter,
        },
        Event::Ask { plan, .. } => Event::Ask {
            conn,
            rate: rate(draws),
            plan,
        },
        Event::Again { .. } => Event::Crash { conn },
        Event::Crash { .. } => Event::Again { conn },
        Event::Emit { now, .. } => Event::Emit {
            conn,
            now: nudged(draws, now),
        },
        Event::Told { seq, granted, .. } => match draws.below(5) {
            0 => Event::Turn { conn, seq },
            1 => Event::Request { conn, hop: 1, seq },
            2 => Event::Told {
                conn,
                seq: seq_near(draws, seq),
                granted,
            },
            _ => Event::Told {
                conn,
                seq,
                granted: !granted,
            },
        },
        other => other,
    }
}

/// An entry of a source that differs in its outcome, its event, its place or its cell, or is of another kind.
pub fn other_own(draws: &mut Draws, conn: u16, same: &SourceEntry) -> SourceEntry {
    match *same {
        SourceEntry::Did(did, told) if draws.one_in(2) => {
            SourceEntry::Did(did, outcome(draws, &told))
        }
        SourceEntry::Did(did, told) => SourceEntry::Did(event(draws, conn, &did), told),
        SourceEntry::Sent { place } if draws.one_in(4) => SourceEntry::Arrived { cell: 0, place },
        SourceEntry::Sent { place } => SourceEntry::Sent {
            place: nudged(draws, place),
        },
        SourceEntry::Arrived { cell, place } => match draws.below(3) {
            0 => SourceEntry::Sent { place },
            1 => SourceEntry::Arrived {
                cell: nudged(draws, cell),
                place,
            },
            _ => SourceEntry::Arrived {
                cell,
                place: nudged(draws, place),
            },
        },
    }
}
