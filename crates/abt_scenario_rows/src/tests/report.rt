//! Reports of traces that are made by hand. The expected texts are spelled out from docs/FORMATS.md, "Report".
use abt_cell::{Answer, Request, Vc};
use abt_format::report_text;
use abt_gcra::Verdict;
use abt_model::{Cause, Heard, Outcome, Sequence, Trace};
use abt_node::{Back, CapacityFault, DropCause, Onward};
use abt_rate::Rate;
use abt_shaper::ShapeFault;
use abt_source::{AskFault, StartFault};
use std::alloc::{AllocError, Global};
use std::process::Abort;
use std::test::Fail;

// A trace of these outcomes over two ports and one connection, in whose end the source shapes at 400 cells per second, the first hop holds 600
// for it and the second 400.
fn trace(alloc: Global, outcomes: &[Outcome], safe: bool) -> Result<Trace, AllocError> {
    let low = Rate::at_most(204_800);
    let high = Rate::at_most(307_200);
    let mut held = Sequence::new(alloc);
    held.push(Sequence::from(Vec::from_slice(alloc, &[high, low])?))?;
    Ok(Trace {
        outcomes: Sequence::from(Vec::from_slice(alloc, outcomes)?),
        rates: Sequence::from(Vec::from_slice(alloc, &[low])?),
        held,
        totals: Sequence::from(Vec::from_slice(alloc, &[204_800, 307_200])?),
        capacities: Sequence::from(Vec::from_slice(alloc, &[512_000, 614_400])?),
        safe,
    })
}

// Demands the report of these outcomes. If memory is refused, the trace, or the report, is made again.
fn expect(
    rt: &impl Abort,
    alloc: Global,
    outcomes: &[Outcome],
    safe: bool,
    text: &str,
) -> Result<(), Fail> {
    let reported = match trace(alloc, outcomes, safe) {
        Ok(trace) => trace,
        Err(_) => trace(alloc, outcomes, safe)?,
    };
    let made = match report_text(alloc, &reported) {
        Ok(made) => made,
        Err(_) => report_text(alloc, &reported)?,
    };
    assert_eq!(rt; made.as_str(), text);
    Ok(())
}

#[test]
fn a_report_without_events_says_how_the_net_stands(rt: HostRuntime) -> Result<(), Fail> {
    expect(
        &rt,
        rt.alloc(),
        &[],
        true,
        "events 0\n\
         connection 0 rate 5120 held 5258 5120\n\
         port 0 total 204800 capacity 512000\n\
         port 1 total 307200 capacity 614400\n\
         safe\n",
    )
}

#[test]
fn each_outcome_of_a_source_has_its_text(rt: HostRuntime) -> Result<(), Fail> {
    let vc = Vc::new(1, 100).ok_or_else(|| Fail::from("no channel"))?;
    let floor = Rate::at_most(204_800);
    let request = Request::new(vc, 7, floor, Rate::at_most(307_200)).ok_or_else(|| Fail::from(
        "no request",
    ))?;
    expect(
        &rt,
        rt.alloc(),
        &[
            Outcome::Started,
            Outcome::StartRefused(StartFault::Keep),
            Outcome::StartRefused(StartFault::TimeRange),
            Outcome::Asked(request),
            Outcome::AskRefused(AskFault::SeqExhausted),
            Outcome::AskRefused(AskFault::Keep),
            Outcome::Repeated(request),
            Outcome::Crashed,
            Outcome::Emitted {
                cell: 3,
                next: 6_002_000_000_000,
            },
            Outcome::EmitRefused(ShapeFault::ClockBack),
            Outcome::EmitRefused(ShapeFault::TimeRange),
            Outcome::EmitRefused(ShapeFault::Zero),
            Outcome::EmitRefused(ShapeFault::TooSoon { next: 1000 }),
            Outcome::Told(Heard::Raised),
            Outcome::Told(Heard::Refused),
            Outcome::Told(Heard::Ignored),
        ],
        true,
        "events 16\n\
         1 started\n\
         2 refused Keep\n\
         3 refused TimeRange\n\
         4 asked 7 5120 5258\n\
         5 refused SeqExhausted\n\
         6 refused Keep\n\
         7 again 7 5120 5258\n\
         8 crashed\n\
         9 emitted 3 6002000000000\n\
         10 refused ClockBack\n\
         11 refused TimeRange\n\
         12 refused Zero\n\
         13 refused TooSoon 1000\n\
         14 told Raised\n\
         15 told Refused\n\
         16 told Ignored\n\
         connection 0 rate 5120 held 5258 5120\n\
         port 0 total 204800 capacity 512000\n\
         port 1 total 307200 capacity 614400\n\
         safe\n",
    )
}

#[test]
fn each_outcome_of_a_hop_has_its_text(rt: HostRuntime) -> Result<(), Fail> {
    let vc = Vc::new(1, 100).ok_or_else(|| Fail::from("no channel"))?;
    let rate = Rate::at_most(204_800);
    let request = Request::new(vc, 7, rate, rate).ok_or_else(|| Fail::from("no request"))?;
    expect(
        &rt,
        rt.alloc(),
        &[
            Outcome::Arrived(Verdict::Conforming),
            Outcome::Arrived(Verdict::TooEarly),
            Outcome::Arrived(Verdict::NoRate),
            Outcome::Requested(Onward::Pass),
            Outcome::Requested(Onward::Refuse(Answer::of(&request, false))),
            Outcome::Requested(Onward::Drop(DropCause::UnknownVc)),
            Outcome::Requested(Onward::Drop(DropCause::Stale)),
            Outcome::Requested(Onward::Drop(DropCause::Conflict)),
            Outcome::Requested(Onward::Drop(DropCause::FloorAbove)),
            Outcome::Turned,
            Outcome::Answered(Back::Pass),
            Outcome::Answered(Back::Drop(DropCause::UnknownVc)),
            Outcome::Answered(Back::Drop(DropCause::Stale)),
            Outcome::Answered(Back::Drop(DropCause::Conflict)),
        ],
        false,
        "events 14\n\
         1 arrived Conforming\n\
         2 arrived TooEarly\n\
         3 arrived NoRate\n\
         4 passed\n\
         5 refuses\n\
         6 dropped UnknownVc\n\
         7 dropped Stale\n\
         8 dropped Conflict\n\
         9 dropped FloorAbove\n\
         10 turned\n\
         11 passed\n\
         12 dropped UnknownVc\n\
         13 dropped Stale\n\
         14 dropped Conflict\n\
         connection 0 rate 5120 held 5258 5120\n\
         port 0 total 204800 capacity 512000\n\
         port 1 total 307200 capacity 614400\n\
         unsafe\n",
    )
}

#[test]
fn each_outcome_of_a_port_has_its_text(rt: HostRuntime) -> Result<(), Fail> {
    expect(
        &rt,
        rt.alloc(),
        &[
            Outcome::CapacitySet,
            Outcome::CapacityRefused(CapacityFault::BelowSum),
            Outcome::CapacityRefused(CapacityFault::AboveLimit),
        ],
        true,
        "events 3\n\
         1 set\n\
         2 refused BelowSum\n\
         3 refused AboveLimit\n\
         connection 0 rate 5120 held 5258 5120\n\
         port 0 total 204800 capacity 512000\n\
         port 1 total 307200 capacity 614400\n\
         safe\n",
    )
}

#[test]
fn each_cause_has_its_name(rt: HostRuntime) -> Result<(), Fail> {
    expect(
        &rt,
        rt.alloc(),
        &[
            Outcome::NotEnabled(Cause::Down),
            Outcome::NotEnabled(Cause::Running),
            Outcome::NotEnabled(Cause::NotSent),
            Outcome::NotEnabled(Cause::Fenced),
            Outcome::NotEnabled(Cause::Delay),
            Outcome::NotEnabled(Cause::ClockBack),
            Outcome::NotEnabled(Cause::Unknown),
            Outcome::NotEnabled(Cause::NotAsking),
        ],
        true,
        "events 8\n\
         1 not-enabled Down\n\
         2 not-enabled Running\n\
         3 not-enabled NotSent\n\
         4 not-enabled Fenced\n\
         5 not-enabled Delay\n\
         6 not-enabled ClockBack\n\
         7 not-enabled Unknown\n\
         8 not-enabled NotAsking\n\
         connection 0 rate 5120 held 5258 5120\n\
         port 0 total 204800 capacity 512000\n\
         port 1 total 307200 capacity 614400\n\
         safe\n",
    )
}
