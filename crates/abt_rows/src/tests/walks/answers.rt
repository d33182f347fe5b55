//! Which answers generated lists have: each that an event of a net can get is among them.
use super::lists::EVENTS;
use abt_gcra::Verdict;
use abt_node::{Back, CapacityFault, DropCause, Onward};
use abt_shaper::ShapeFault;
use abt_source::{AskFault, StartFault};
use abt_walk::drawn::{Walked, generated};
use abt_walk::nets::{lone, meshed, shared};
use abt_world::{Cause, Event, Heard, Net, Outcome};
use std::alloc::{AllocError, Global};
use std::process::Abort;
use std::test::Fail;

/// The answers that an event of a net can get, by docs/FORMATS.md, "Events and outcomes". Some are left out: 2^32 asks would be
/// needed for `SeqExhausted`, and the headline rules out `Conflict`, `FloorAbove`, `TooEarly` and `NoRate`.
const ANSWERS: [(&str, &str); 50] = [
    ("start", "Started"),
    ("start", "TimeRange"),
    ("start", "Unknown"),
    ("start", "Running"),
    ("start", "ClockBack"),
    ("ask", "Asked"),
    ("ask", "Keep"),
    ("ask", "Unknown"),
    ("ask", "Down"),
    ("again", "Repeated"),
    ("again", "Unknown"),
    ("again", "Down"),
    ("again", "NotAsking"),
    ("crash", "Crashed"),
    ("crash", "Unknown"),
    ("crash", "Down"),
    ("emit", "Emitted"),
    ("emit", "TimeRange"),
    ("emit", "Zero"),
    ("emit", "TooSoon"),
    ("emit", "Unknown"),
    ("emit", "Down"),
    ("emit", "ClockBack"),
    ("arrive", "Conforming"),
    ("arrive", "Unknown"),
    ("arrive", "NotSent"),
    ("arrive", "Fenced"),
    ("arrive", "Delay"),
    ("arrive", "ClockBack"),
    ("request", "Pass"),
    ("request", "Refuse"),
    ("request", "Stale"),
    ("request", "Unknown"),
    ("request", "NotSent"),
    ("turn", "Turned"),
    ("turn", "Unknown"),
    ("turn", "NotSent"),
    ("answer", "Pass"),
    ("answer", "Stale"),
    ("answer", "Unknown"),
    ("answer", "NotSent"),
    ("told", "Raised"),
    ("told", "Refused"),
    ("told", "Ignored"),
    ("told", "Unknown"),
    ("told", "NotSent"),
    ("capacity", "set"),
    ("capacity", "BelowSum"),
    ("capacity", "AboveLimit"),
    ("capacity", "Unknown"),
];

fn kind(event: &Event) -> &'static str {
    match event {
        Event::Start { .. } => "start",
        Event::Ask { .. } => "ask",
        Event::Again { .. } => "again",
        Event::Crash { .. } => "crash",
        Event::Emit { .. } => "emit",
        Event::Arrive { .. } => "arrive",
        Event::Request { .. } => "request",
        Event::Turn { .. } => "turn",
        Event::Answer { .. } => "answer",
        Event::Told { .. } => "told",
        Event::Capacity { .. } => "capacity",
    }
}

fn name(outcome: &Outcome) -> &'static str {
    match outcome {
        Outcome::Started => "Started",
        Outcome::StartRefused(StartFault::Keep) => "Keep",
        Outcome::StartRefused(StartFault::TimeRange) => "TimeRange",
        Outcome::Asked(_) => "Asked",
        Outcome::AskRefused(AskFault::SeqExhausted) => "SeqExhausted",
        Outcome::AskRefused(AskFault::Keep) => "Keep",
        Outcome::Repeated(_) => "Repeated",
        Outcome::Crashed => "Crashed",
        Outcome::Emitted { .. } => "Emitted",
        Outcome::EmitRefused(fault) => fault_name(*fault),
        Outcome::Arrived(Verdict::Conforming) => "Conforming",
        Outcome::Arrived(Verdict::TooEarly) => "TooEarly",
        Outcome::Arrived(Verdict::NoRate) => "NoRate",
        Outcome::Requested(Onward::Pass) | Outcome::Answered(Back::Pass) => "Pass",
        Outcome::Requested(Onward::Refuse(_)) => "Refuse",
        Outcome::Requested(Onward::Drop(cause)) => drop_name(*cause),
        Outcome::Answered(Back::Drop(cause)) => drop_name(*cause),
        Outcome::Turned => "Turned",
        Outcome::Told(Heard::Raised) => "Raised",
        Outcome::Told(Heard::Refused) => "Refused",
        Outcome::Told(Heard::Ignored) => "Ignored",
        Outcome::CapacitySet => "set",
        Outcome::CapacityRefused(CapacityFault::BelowSum) => "BelowSum",
        Outcome::CapacityRefused(CapacityFault::AboveLimit) => "AboveLimit",
        Outcome::NotEnabled(cause) => cause_name(*cause),
    }
}

fn fault_name(fault: ShapeFault) -> &'static str {
    match fault {
        ShapeFault::ClockBack => "ClockBack (refused)",
        ShapeFault::TimeRange => "TimeRange",
        ShapeFault::Zero => "Zero",
        ShapeFault::TooSoon { .. } => "TooSoon",
    }
}

fn drop_name(cause: DropCause) -> &'static str {
    match cause {
        DropCause::UnknownVc => "UnknownVc",
        DropCause::Stale => "Stale",
        DropCause::Conflict => "Conflict",
        DropCause::FloorAbove => "FloorAbove",
    }
}

fn cause_name(cause: Cause) -> &'static str {
    match cause {
        Cause::Down => "Down",
        Cause::Running => "Running",
        Cause::NotSent => "NotSent",
        Cause::Fenced => "Fenced",
        Cause::Delay => "Delay",
        Cause::ClockBack => "ClockBack",
        Cause::Unknown => "Unknown",
        Cause::NotAsking => "NotAsking",
    }
}

fn has(answers: &[(&'static str, &'static str)], kind: &str, name: &str) -> bool {
    for (event, outcome) in answers {
        if *event == kind && *outcome == name {
            return true;
        }
    }
    false
}

// Adds the answers of a list to those that were seen.
fn note(seen: &mut Vec<(&'static str, &'static str)>, walked: &Walked) -> Result<(), AllocError> {
    for (event, outcome) in walked.events.iter().zip(&walked.outcomes) {
        if !has(seen, kind(event), name(outcome)) {
            seen.push((kind(event), name(outcome)))?;
        }
    }
    Ok(())
}

// Adds the answers of the lists of a net.
fn note_all(
    alloc: Global,
    net: &Net,
    seen: &mut Vec<(&'static str, &'static str)>,
) -> Result<(), AllocError> {
    for seed in 1..=80 {
        note(seen, &generated(alloc, net, seed, EVENTS)?)?;
    }
    Ok(())
}

// Demands that each of these answers is among the others.
fn are_among(
    rt: &impl Abort,
    answers: &[(&'static str, &'static str)],
    others: &[(&'static str, &'static str)],
) {
    for (kind, name) in answers {
        assert!(rt; has(others, kind, name), "{kind} {name}");
    }
}

#[test]
fn each_answer_that_an_event_can_get_is_in_some_list(rt: HostRuntime) -> Result<(), Fail> {
    let alloc = rt.alloc();
    let mut seen = Vec::new(alloc);
    note_all(alloc, &lone(alloc)?, &mut seen)?;
    note_all(alloc, &shared(alloc)?, &mut seen)?;
    note_all(alloc, &meshed(alloc)?, &mut seen)?;
    are_among(&rt, &ANSWERS, &seen);
    are_among(&rt, &seen, &ANSWERS);
    Ok(())
}
