//! Reasons of outcomes.
ghost use Rattle.std.specs.Prelude.{◌≡◌, ◌++◌, OnOk, string_bytes};
ghost use Rattle.abt_reason.specs.Reasons as spec;

use crate::grounds::{Grounds, Numbers};
use crate::refusal::{
    ask_reason, push_back, push_capacity, push_heard, push_next, push_onward, push_shape,
    start_reason,
};
use crate::seen::push_sighting;
use crate::sighting::Sought;
use abt_cell::Request;
use abt_format::{cells_text, seconds_text};
use abt_model::{Cause, Outcome};
use std::alloc::{AllocError, Global};

/// Puts the reason of an outcome, or what its codes and moments are, behind a text (docs/EXPLAIN.md); nothing if the outcome says it all.
///
/// # Errors
/// If memory is refused.
pub fn push_reason(
    alloc: Global,
    text: &mut String,
    grounds: &Grounds,
    outcome: &Outcome,
) -> Result<(), AllocError>
    ensures { OnOk result (string_bytes text.new ≡ string_bytes text.old ++
        spec.reason_text grounds.now outcome.now) }
{
    match *outcome {
        Outcome::StartRefused(fault) => text.push_str(start_reason(fault)),
        Outcome::Asked(request) | Outcome::Repeated(request) => push_request(alloc, text, &request),
        Outcome::AskRefused(fault) => text.push_str(ask_reason(fault)),
        Outcome::Emitted { next, .. } => push_next(alloc, text, ": the next not before ", next),
        Outcome::EmitRefused(fault) => push_shape(alloc, text, fault),
        Outcome::Requested(reply) => push_onward(text, &grounds.numbers, reply),
        Outcome::Answered(reply) => push_back(text, &grounds.numbers, reply),
        Outcome::Told(heard) => push_heard(text, &grounds.numbers, heard),
        Outcome::CapacityRefused(fault) => push_capacity(text, &grounds.numbers, fault),
        Outcome::NotEnabled(cause) => push_cause(
            alloc,
            text,
            &grounds.numbers,
            grounds.sought,
            cause,
        ),
        Outcome::Started
        | Outcome::Crashed
        | Outcome::Arrived(_)
        | Outcome::Turned
        | Outcome::CapacitySet => Ok(()),
    }
}

// The rate that a request asks for, and the floor that it keeps.
fn push_request(alloc: Global, text: &mut String, request: &Request) -> Result<(), AllocError>
    ensures { OnOk result (string_bytes text.new ≡ string_bytes text.old ++ spec.request_reason request.now) }
{
    let ask = cells_text(alloc, request.ask().units())?;
    let floor = cells_text(alloc, request.floor().units())?;
    write!(text, ": asks for {ask} cells/s, keeps {floor}")
}

// Why an event couldn't happen.
fn push_cause(
    alloc: Global,
    text: &mut String,
    numbers: &Numbers,
    sought: Option<Sought>,
    cause: Cause,
) -> Result<(), AllocError>
    ensures { OnOk result (string_bytes text.new ≡ string_bytes text.old ++
        spec.cause_reason numbers.now sought cause) }
{
    match (*numbers, sought, cause) {
        (Numbers::NoConnection { connections }, _, _) => {
            write!(text, ": the net has {connections} connections")
        }
        (Numbers::NoPort { ports }, _, _) => write!(text, ": the net has {ports} ports"),
        (Numbers::NoHop { hops }, _, _) => write!(
            text,
            ": the path has {hops} hops, counted from 1"
        ),
        (Numbers::Moment { now, clock }, _, Cause::ClockBack) => push_before(
            alloc, text, now, clock,
        ),
        (Numbers::Cell { .. }, _, _) => push_cell(alloc, text, numbers, cause),
        (_, Some(Sought { seq, sighting }), Cause::NotSent) => push_sighting(
            alloc, text, seq, sighting,
        ),
        _ => text.push_str(plain_reason(cause)),
    }
}

// Why a cell couldn't arrive; nothing for other numbers.
fn push_cell(
    alloc: Global,
    text: &mut String,
    numbers: &Numbers,
    cause: Cause,
) -> Result<(), AllocError>
    ensures { OnOk result (string_bytes text.new ≡ string_bytes text.old ++
        spec.cell_text numbers.now cause) }
{
    let Numbers::Cell {
        cell,
        at,
        emitted,
        fence,
        moment,
        delay,
        tau,
        last,
    } = *numbers
    else {
        return Ok(());
    };
    let coming = Coming {
        cell,
        at,
        emitted,
        fence,
        moment,
        delay,
        tau,
        last,
    };
    push_cell_cause(alloc, text, &coming, cause)
}

// A moment before the one that may not be undercut.
fn push_before(alloc: Global, text: &mut String, now: u64, last: u64) -> Result<(), AllocError>
    ensures { OnOk result (string_bytes text.new ≡ string_bytes text.old ++ spec.before_text now last) }
{
    let now = seconds_text(alloc, now)?;
    let last = seconds_text(alloc, last)?;
    write!(text, ": {now} s is before {last} s")
}

// A cell that is to arrive.
#[derive(Clone, Copy)]
struct Coming {
    cell: u64,
    at: u64,
    emitted: u64,
    fence: u64,
    moment: u64,
    delay: u64,
    tau: u64,
    last: u64,
}

// Why a cell can't arrive.
fn push_cell_cause(
    alloc: Global,
    text: &mut String,
    coming: &Coming,
    cause: Cause,
) -> Result<(), AllocError>
    ensures { OnOk result (string_bytes text.new ≡ string_bytes text.old
        ++ spec.cell_reason coming.now.cell coming.now.at coming.now.emitted coming.now.fence
        coming.now.moment coming.now.delay
        coming.now.tau coming.now.last cause) }
{
    let Coming {
        cell,
        at,
        emitted,
        fence,
        moment,
        delay,
        tau,
        last,
    } = *coming;
    match cause {
        Cause::NotSent => write!(text, ": cell {cell} isn't among the {emitted} that left"),
        Cause::Fenced => write!(text, ": cell {cell} is below the fence {fence}"),
        Cause::Delay => push_delay(alloc, text, cell, at, moment, delay, tau),
        Cause::ClockBack => push_before(alloc, text, at, last),
        _ => Ok(()),
    }
}

// When a cell left, and how long its line takes.
fn push_delay(
    alloc: Global,
    text: &mut String,
    cell: u64,
    at: u64,
    moment: u64,
    delay: u64,
    tau: u64,
) -> Result<(), AllocError>
    ensures { OnOk result (string_bytes text.new ≡ string_bytes text.old ++
        spec.delay_text cell at moment delay tau) }
{
    let at = seconds_text(alloc, at)?;
    let moment = seconds_text(alloc, moment)?;
    let delay = seconds_text(alloc, delay)?;
    let tau = seconds_text(alloc, tau)?;
    write!(
        text,
        ": cell {cell} left at {moment} s and takes {delay} s and up to {tau} s more, so it isn't there at {at} s"
    )
}

// A cause that has no numbers.
fn plain_reason(cause: Cause) -> &'static str
    ensures { result.now ≡ spec.plain_reason cause }
{
    match cause {
        Cause::Down => ": the source is down",
        Cause::Running => ": the source is up",
        Cause::NotSent => ": no such message lies there",
        Cause::NotAsking => ": the source waits for no answer",
        Cause::Fenced | Cause::Delay | Cause::ClockBack | Cause::Unknown => "",
    }
}
