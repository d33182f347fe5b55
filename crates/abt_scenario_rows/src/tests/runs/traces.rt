//! A report of a trace that was made by hand, and that no run has.
use super::super::{ONE, scenario};
use abt_model::{Cause, Outcome, Sequence, Trace};
use abt_rate::Rate;
use abt_scenario::report;
use std::alloc::{AllocError, Global};
use std::test::Fail;

fn sequence<T: Copy + Drop>(alloc: Global, items: &[T]) -> Result<Sequence<T>, AllocError> {
    Ok(Sequence::from(Vec::from_slice(alloc, items)?))
}

// One connection, for which one hop holds this.
fn held_alone(alloc: Global, rate: Rate) -> Result<Sequence<Sequence<Rate>>, AllocError> {
    let mut held = Sequence::new(alloc);
    held.push(sequence(alloc, &[rate])?)?;
    Ok(held)
}

/// The first event was behind a fence, and a source shapes at 600 cells per second where 400 are held for it. In the end the link has
/// another capacity than the net gives it.
fn unsafe_trace(alloc: Global) -> Result<Trace, AllocError> {
    let low = Rate::at_most(204_800);
    let high = Rate::at_most(307_200);
    let fenced = Outcome::NotEnabled(Cause::Fenced);
    Ok(Trace {
        outcomes: sequence(alloc, &[fenced])?,
        rates: sequence(alloc, &[high])?,
        held: held_alone(alloc, low)?,
        totals: sequence(alloc, &[204_800])?,
        capacities: sequence(alloc, &[409_600])?,
        safe: false,
    })
}

#[test]
fn a_trace_that_is_not_safe_is_reported_so(rt: HostRuntime) -> Result<(), Fail> {
    let alloc = rt.alloc();
    let read = scenario(alloc, ONE)?;
    let trace = match unsafe_trace(alloc) {
        Ok(trace) => trace,
        Err(_) => unsafe_trace(alloc)?,
    };
    let text = match report(alloc, &read, &trace) {
        Ok(text) => text,
        Err(_) => report(alloc, &read, &trace)?,
    };
    assert_eq!(rt;
        text.as_str(),
        "events 1\n1 not-enabled Fenced\nconnection 0 rate 5258 held 5120\n\
        port 0 total 204800 capacity 409600\nunsafe\n"
    );
    Ok(())
}
