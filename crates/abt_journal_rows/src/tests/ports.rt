//! Steps of ports: each row of the table of docs/JOURNALS.md, "Ports".
use super::{NO, REQUEST, YES, answer, joined, request, same, step_in, vc};
use abt_cell::{Answer, Request};
use abt_entry::step_line;
use abt_gcra::Verdict;
use abt_journal::{Entry, PortInput, PortReply};
use abt_node::{ArriveFault, Back, CapacityFault, DropCause, Onward};
use std::alloc::Global;
use std::process::Abort;
use std::test::Fail;

/// Demands that the step 4 of port 2 that caller 7 had done, with such an input and reply, is written so, and read from it.
fn is_step(
    rt: &impl Abort,
    alloc: Global,
    input: PortInput,
    reply: PortReply,
    came: &str,
    replied: &str,
) -> Result<(), Fail> {
    let text = joined(
        alloc,
        &[
            r#"{"port":2,"place":4,"caller":7,"input":"#,
            came,
            r#","reply":"#,
            replied,
            "}",
        ],
    )?;
    let entry = Entry {
        place: 4,
        caller: 7,
        input,
        reply,
    };
    let written = step_line(alloc, 2, &entry)?;
    same(rt, &written.as_slice(), &text.as_bytes());
    same(rt, &step_in(alloc, text.as_str())?, &Some((2, entry)));
    Ok(())
}

/// Demands that the step of a request is written so, by what becomes of the request, and read from it.
fn is_served(rt: &impl Abort, alloc: Global, onward: Onward, replied: &str) -> Result<(), Fail> {
    let request: Request = request()?;
    let came = joined(alloc, &[r#"{"request":"#, REQUEST, "}"])?;
    is_step(
        rt,
        alloc,
        PortInput::Request(request),
        PortReply::Requested(onward),
        came.as_str(),
        replied,
    )
}

/// Of an answer.
fn is_returned(
    rt: &impl Abort,
    alloc: Global,
    granted: bool,
    back: Back,
    replied: &str,
) -> Result<(), Fail> {
    let answer: Answer = answer(granted)?;
    let came = joined(
        alloc,
        &[r#"{"answer":"#, if granted { YES } else { NO }, "}"],
    )?;
    is_step(
        rt,
        alloc,
        PortInput::Answer(answer),
        PortReply::Answered(back),
        came.as_str(),
        replied,
    )
}

/// Of a cell.
fn is_policed(
    rt: &impl Abort,
    alloc: Global,
    verdict: Result<Verdict, ArriveFault>,
    replied: &str,
) -> Result<(), Fail> {
    is_step(
        rt,
        alloc,
        PortInput::Arrive { vc: vc(), at: 1000 },
        PortReply::Arrived(verdict),
        r#"{"arrive":{"vpi":1,"vci":100,"at":1000}}"#,
        replied,
    )
}

/// Of a capacity.
fn is_capped(
    rt: &impl Abort,
    alloc: Global,
    answer: Result<(), CapacityFault>,
    replied: &str,
) -> Result<(), Fail> {
    is_step(
        rt,
        alloc,
        PortInput::Capacity(512_000),
        PortReply::Capped(answer),
        r#"{"capacity":512000}"#,
        replied,
    )
}

#[test]
fn requests_pass_are_refused_or_dropped(rt: HostRuntime) -> Result<(), Fail> {
    let alloc = rt.alloc();
    is_served(&rt, alloc, Onward::Pass, r#""passed""#)?;
    let refused = joined(alloc, &[r#"{"refused":"#, NO, "}"])?;
    let no: Answer = answer(false)?;
    is_served(&rt, alloc, Onward::Refuse(no), refused.as_str())?;
    is_served(
        &rt,
        alloc,
        Onward::Drop(DropCause::UnknownVc),
        r#"{"dropped":"UnknownVc"}"#,
    )?;
    is_served(
        &rt,
        alloc,
        Onward::Drop(DropCause::Stale),
        r#"{"dropped":"Stale"}"#,
    )?;
    is_served(
        &rt,
        alloc,
        Onward::Drop(DropCause::Conflict),
        r#"{"dropped":"Conflict"}"#,
    )?;
    is_served(
        &rt,
        alloc,
        Onward::Drop(DropCause::FloorAbove),
        r#"{"dropped":"FloorAbove"}"#,
    )
}

#[test]
fn answers_pass_or_are_dropped(rt: HostRuntime) -> Result<(), Fail> {
    let alloc = rt.alloc();
    is_returned(&rt, alloc, true, Back::Pass, r#""passed""#)?;
    is_returned(&rt, alloc, false, Back::Pass, r#""passed""#)?;
    is_returned(
        &rt,
        alloc,
        true,
        Back::Drop(DropCause::Stale),
        r#"{"dropped":"Stale"}"#,
    )?;
    is_returned(
        &rt,
        alloc,
        false,
        Back::Drop(DropCause::Conflict),
        r#"{"dropped":"Conflict"}"#,
    )
}

#[test]
fn cells_have_verdicts_or_faults(rt: HostRuntime) -> Result<(), Fail> {
    let alloc = rt.alloc();
    is_policed(
        &rt,
        alloc,
        Ok(Verdict::Conforming),
        r#"{"arrived":"Conforming"}"#,
    )?;
    is_policed(
        &rt,
        alloc,
        Ok(Verdict::TooEarly),
        r#"{"arrived":"TooEarly"}"#,
    )?;
    is_policed(&rt, alloc, Ok(Verdict::NoRate), r#"{"arrived":"NoRate"}"#)?;
    is_policed(
        &rt,
        alloc,
        Err(ArriveFault::UnknownVc),
        r#"{"refused":"UnknownVc"}"#,
    )?;
    is_policed(
        &rt,
        alloc,
        Err(ArriveFault::NotIngress),
        r#"{"refused":"NotIngress"}"#,
    )?;
    is_policed(
        &rt,
        alloc,
        Err(ArriveFault::ClockBack),
        r#"{"refused":"ClockBack"}"#,
    )?;
    is_policed(
        &rt,
        alloc,
        Err(ArriveFault::TimeRange),
        r#"{"refused":"TimeRange"}"#,
    )
}

#[test]
fn capacities_are_set_or_refused(rt: HostRuntime) -> Result<(), Fail> {
    let alloc = rt.alloc();
    is_capped(&rt, alloc, Ok(()), r#""set""#)?;
    is_capped(
        &rt,
        alloc,
        Err(CapacityFault::BelowSum),
        r#"{"refused":"BelowSum"}"#,
    )?;
    is_capped(
        &rt,
        alloc,
        Err(CapacityFault::AboveLimit),
        r#"{"refused":"AboveLimit"}"#,
    )
}
