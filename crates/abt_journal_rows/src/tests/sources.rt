//! Entries of sources: each row of the table of docs/JOURNALS.md, "Sources", and what may come of each.
use super::{REQUEST, entry_in, joined, request, same};
use abt_cell::Request;
use abt_entry::entry_line;
use abt_keep::StorePlan;
use abt_model::{Cause, Event, Heard, Outcome, SourceEntry};
use abt_rate::Rate;
use abt_shaper::ShapeFault;
use abt_source::{AskFault, StartFault};
use std::alloc::Global;
use std::process::Abort;
use std::test::Fail;

/// Demands that an entry of source 5 is written so, and read from it.
fn is_entry(rt: &impl Abort, alloc: Global, entry: SourceEntry, members: &str) -> Result<(), Fail> {
    let text = joined(alloc, &[r#"{"source":5,"#, members, "}"])?;
    let written = entry_line(alloc, 5, &entry)?;
    same(rt, &written.as_slice(), &text.as_bytes());
    same(rt, &entry_in(alloc, text.as_str())?, &Some((5, entry)));
    Ok(())
}

/// Demands that the entry of a deed of source 5 and of its outcome is written so, and read from it.
fn is_deed(
    rt: &impl Abort,
    alloc: Global,
    event: Event,
    outcome: Outcome,
    did: &str,
    came: &str,
) -> Result<(), Fail> {
    let members = joined(alloc, &[r#""did":"#, did, r#","outcome":"#, came])?;
    is_entry(
        rt,
        alloc,
        SourceEntry::Did(event, outcome),
        members.as_str(),
    )
}

fn is_start(rt: &impl Abort, alloc: Global, outcome: Outcome, came: &str) -> Result<(), Fail> {
    let event = Event::Start { conn: 5, now: 7 };
    is_deed(rt, alloc, event, outcome, r#"{"start":7}"#, came)
}

fn is_ask(
    rt: &impl Abort,
    alloc: Global,
    plan: StorePlan,
    outcome: Outcome,
    word: &str,
    came: &str,
) -> Result<(), Fail> {
    let rate = Rate::from_code(0x5258);
    let event = Event::Ask {
        conn: 5,
        rate,
        plan,
    };
    let did = joined(alloc, &[r#"{"ask":"5258","store":""#, word, r#""}"#])?;
    is_deed(rt, alloc, event, outcome, did.as_str(), came)
}

fn is_emission(rt: &impl Abort, alloc: Global, outcome: Outcome, came: &str) -> Result<(), Fail> {
    let event = Event::Emit {
        conn: 5,
        now: 1_000_000_000_000,
    };
    is_deed(rt, alloc, event, outcome, r#"{"emit":1000000000000}"#, came)
}

fn is_told(rt: &impl Abort, alloc: Global, heard: Heard, came: &str) -> Result<(), Fail> {
    let event = Event::Told {
        conn: 5,
        seq: 3,
        granted: true,
    };
    is_deed(
        rt,
        alloc,
        event,
        Outcome::Told(heard),
        r#"{"told":3,"granted":true}"#,
        came,
    )
}

/// Of a crash that can't happen.
fn is_not_enabled(rt: &impl Abort, alloc: Global, cause: Cause, came: &str) -> Result<(), Fail> {
    let event = Event::Crash { conn: 5 };
    is_deed(
        rt,
        alloc,
        event,
        Outcome::NotEnabled(cause),
        r#""crash""#,
        came,
    )
}

#[test]
fn starts_and_crashes(rt: HostRuntime) -> Result<(), Fail> {
    let alloc = rt.alloc();
    is_start(&rt, alloc, Outcome::Started, r#""started""#)?;
    is_start(
        &rt,
        alloc,
        Outcome::StartRefused(StartFault::Keep),
        r#"{"refused":"Keep"}"#,
    )?;
    is_start(
        &rt,
        alloc,
        Outcome::StartRefused(StartFault::TimeRange),
        r#"{"refused":"TimeRange"}"#,
    )?;
    let crash = Event::Crash { conn: 5 };
    is_deed(
        &rt,
        alloc,
        crash,
        Outcome::Crashed,
        r#""crash""#,
        r#""crashed""#,
    )
}

#[test]
fn asks_and_repeats(rt: HostRuntime) -> Result<(), Fail> {
    let alloc = rt.alloc();
    let asked = joined(alloc, &[r#"{"asked":"#, REQUEST, "}"])?;
    let request: Request = request()?;
    is_ask(
        &rt,
        alloc,
        StorePlan::Works,
        Outcome::Asked(request),
        "works",
        asked.as_str(),
    )?;
    let again = joined(alloc, &[r#"{"again":"#, REQUEST, "}"])?;
    is_repeat(&rt, alloc, again.as_str())
}

/// Of a request that is repeated.
fn is_repeat(rt: &impl Abort, alloc: Global, came: &str) -> Result<(), Fail> {
    let event = Event::Again { conn: 5 };
    let request: Request = request()?;
    is_deed(
        rt,
        alloc,
        event,
        Outcome::Repeated(request),
        r#""again""#,
        came,
    )
}

/// Of an ask that is refused.
fn is_refused(
    rt: &impl Abort,
    alloc: Global,
    plan: StorePlan,
    fault: AskFault,
    word: &str,
    came: &str,
) -> Result<(), Fail> {
    is_ask(rt, alloc, plan, Outcome::AskRefused(fault), word, came)
}

#[test]
fn asks_are_refused(rt: HostRuntime) -> Result<(), Fail> {
    let alloc = rt.alloc();
    is_refused(
        &rt,
        alloc,
        StorePlan::Works,
        AskFault::SeqExhausted,
        "works",
        r#"{"refused":"SeqExhausted"}"#,
    )?;
    is_refused(
        &rt,
        alloc,
        StorePlan::FailsBefore,
        AskFault::Keep,
        "before",
        r#"{"refused":"Keep"}"#,
    )?;
    is_refused(
        &rt,
        alloc,
        StorePlan::FailsAfter,
        AskFault::Keep,
        "after",
        r#"{"refused":"Keep"}"#,
    )
}

#[test]
fn emits(rt: HostRuntime) -> Result<(), Fail> {
    let alloc = rt.alloc();
    let left = Outcome::Emitted { cell: 8, next: 9 };
    is_emission(&rt, alloc, left, r#"{"emitted":{"cell":8,"next":9}}"#)?;
    is_emission(
        &rt,
        alloc,
        Outcome::EmitRefused(ShapeFault::ClockBack),
        r#"{"refused":"ClockBack"}"#,
    )?;
    is_emission(
        &rt,
        alloc,
        Outcome::EmitRefused(ShapeFault::TimeRange),
        r#"{"refused":"TimeRange"}"#,
    )?;
    is_emission(
        &rt,
        alloc,
        Outcome::EmitRefused(ShapeFault::Zero),
        r#"{"refused":"Zero"}"#,
    )?;
    let soon = Outcome::EmitRefused(ShapeFault::TooSoon { next: 11 });
    is_emission(&rt, alloc, soon, r#"{"refused":{"TooSoon":11}}"#)
}

#[test]
fn hears_answers(rt: HostRuntime) -> Result<(), Fail> {
    let alloc = rt.alloc();
    is_told(&rt, alloc, Heard::Raised, r#"{"told":"Raised"}"#)?;
    is_told(&rt, alloc, Heard::Refused, r#"{"told":"Refused"}"#)?;
    is_told(&rt, alloc, Heard::Ignored, r#"{"told":"Ignored"}"#)
}

#[test]
fn does_what_can_not_happen(rt: HostRuntime) -> Result<(), Fail> {
    let alloc = rt.alloc();
    is_not_enabled(&rt, alloc, Cause::Down, r#"{"not-enabled":"Down"}"#)?;
    is_not_enabled(&rt, alloc, Cause::Running, r#"{"not-enabled":"Running"}"#)?;
    is_not_enabled(&rt, alloc, Cause::NotSent, r#"{"not-enabled":"NotSent"}"#)?;
    is_not_enabled(&rt, alloc, Cause::Fenced, r#"{"not-enabled":"Fenced"}"#)?;
    is_not_enabled(&rt, alloc, Cause::Delay, r#"{"not-enabled":"Delay"}"#)?;
    is_not_enabled(
        &rt,
        alloc,
        Cause::ClockBack,
        r#"{"not-enabled":"ClockBack"}"#,
    )?;
    is_not_enabled(&rt, alloc, Cause::Unknown, r#"{"not-enabled":"Unknown"}"#)?;
    is_not_enabled(
        &rt,
        alloc,
        Cause::NotAsking,
        r#"{"not-enabled":"NotAsking"}"#,
    )
}

#[test]
fn what_it_sends_is_served(rt: HostRuntime) -> Result<(), Fail> {
    let alloc = rt.alloc();
    is_entry(&rt, alloc, SourceEntry::Sent { place: 6 }, r#""sent":6"#)?;
    let arrived = SourceEntry::Arrived { cell: 4, place: 6 };
    is_entry(&rt, alloc, arrived, r#""arrived":{"cell":4,"place":6}"#)
}
