//! Stories that are run at once: what each event answers, and what is left in the end.
use super::*;

/// The trace of a story. If memory was refused there is none, and the story is run once more.
fn trace(alloc: Global, net: &Net, story: &[Row]) -> Result<Trace, Fail> {
    let mut events = Vec::new(alloc);
    for (event, _) in story {
        events.push(*event)?;
    }
    match run(alloc, net, &events) {
        Ok(trace) => Ok(trace),
        Err(AllocError) => Ok(run(alloc, net, &events)?),
    }
}

/// Demands that a trace has the outcomes of a story, and is safe.
fn tells(rt: &impl Abort, trace: &Trace, story: &[Row]) {
    same(rt, &trace.outcomes.len(), &story.len());
    for (outcome, (event, expected)) in trace.outcomes.as_slice().iter().zip(story) {
        same_at(rt, outcome, expected, event);
    }
    assert!(rt; trace.safe);
}

/// Demands the rates, what is held along each path, and the totals in the end.
fn ends(rt: &impl Abort, trace: &Trace, rates: &[u16], held: &[&[u16]], totals: &[u64]) {
    are_of_codes(rt, trace.rates.as_slice(), rates);
    same(rt, &trace.held.len(), &held.len());
    for (path, codes) in trace.held.as_slice().iter().zip(held) {
        are_of_codes(rt, path.as_slice(), codes);
    }
    same_items(rt, trace.totals.as_slice(), totals);
}

fn are_of_codes(rt: &impl Abort, rates: &[Rate], codes: &[u16]) {
    same(rt, &rates.len(), &codes.len());
    for (rate, code) in rates.iter().zip(codes) {
        same(rt, rate, &Rate::from_code(*code));
    }
}

/// Runs a story, and demands its outcomes and how it ends.
fn is_run(
    rt: &impl Abort,
    alloc: Global,
    net: &Net,
    story: &[Row],
    rates: &[u16],
    held: &[&[u16]],
    totals: &[u64],
) -> Result<(), Fail> {
    let trace = trace(alloc, net, story)?;
    tells(rt, &trace, story);
    ends(rt, &trace, rates, held, totals);
    Ok(())
}

// The second connection has 400 cells per second and is refused 600, for which the port that it shares has no room.
#[test]
fn two_connections_share_a_port_to_the_end(rt: HostRuntime) -> Result<(), Fail> {
    let story = [
        starts(0, 0),
        starts(1, 0),
        (ask(0, 0x5258), asked(100, 1, 0, 0x5258)?),
        passes(0, 1, 1),
        (ask(1, 0x5120), asked(101, 1, 0, 0x5120)?),
        passes(1, 1, 1),
        cannot(turn(1, 1), Cause::NotSent),
        passes(1, 2, 1),
        turns(1, 1),
        passes_back(1, 2, 1, true),
        passes_back(1, 1, 1, true),
        hears(1, 1, true, Heard::Raised),
        (ask(1, 0x5258), asked(101, 2, 0x5120, 0x5258)?),
        passes(1, 1, 2),
        refuses(1, 2, &request(101, 2, 0x5120, 0x5258)?),
        passes_back(1, 1, 2, false),
        hears(1, 2, false, Heard::Refused),
    ];
    let held: [&[u16]; 2] = [&[0x5258], &[0x5120, 0x5120]];
    let net = shared(rt.alloc())?;
    let totals = [204800, 512000];
    is_run(&rt, rt.alloc(), &net, &story, &[0, 0x5120], &held, &totals)
}

#[test]
fn a_cell_that_arrived_is_safe(rt: HostRuntime) -> Result<(), Fail> {
    let story = [
        starts(0, 0),
        (ask(0, 0x53e8), asked(100, 1, 0, 0x53e8)?),
        passes(0, 1, 1),
        turns(0, 1),
        passes_back(0, 1, 1, true),
        hears(0, 1, true, Heard::Raised),
        emits(1000000000000, 0, 1001000000000),
        conforms(0, 1000000001200),
        crashes(0),
    ];
    let net = lone(rt.alloc())?;
    is_run(&rt, rt.alloc(), &net, &story, &[0], &[&[0x53e8]], &[512000])
}

#[test]
fn nothing_happens_to_a_net_without_ports(rt: HostRuntime) -> Result<(), Fail> {
    let net = net(rt.alloc(), &[], &[])?;
    is_run(&rt, rt.alloc(), &net, &[], &[], &[], &[])
}

// Each state on the way is safe as well, and so is that before the first event.
#[test]
fn a_world_is_safe_at_each_step(rt: HostRuntime) -> Result<(), Fail> {
    let net = lone(rt.alloc())?;
    is_safe_at_each_step(&rt, &mut world(rt.alloc(), &net)?)
}

fn is_safe_at_each_step(rt: &impl Abort, world: &mut World<'_>) -> Result<(), Fail> {
    let story = [
        starts(0, 0),
        (ask(0, 0x5120), asked(100, 1, 0, 0x5120)?),
        passes(0, 1, 1),
        crashes(0),
    ];
    assert!(rt; world.safe());
    for row in story {
        tell(rt, world, &[row])?;
        assert!(rt; world.safe());
    }
    Ok(())
}
