//! Stories in which a store fails to take the number of an ask, once at each ask, with and without a restart behind it. The
//! stories are those that were worked by hand for single events; codes 5120, 5258 and 53e8 are 400, 600 and 1,000 cells per
//! second, 7fff is the greatest.
use super::stories::*;
use super::{agrees, same};
use abt_keep::StorePlan;
use abt_node::Onward;
use abt_walk::drawn::walk_through;
use abt_walk::nets::{Access, build, line, lone, shared};
use abt_walk::walk::Walk;
use abt_walk::words::clock;
use abt_world::{Event, Net, run};
use std::alloc::{AllocError, Global};
use std::process::Abort;
use std::test::Fail;

// The same event, but that an ask has this plan.
fn planned(event: &Event, plan: StorePlan) -> Event {
    match *event {
        Event::Ask { conn, rate, .. } => Event::Ask { conn, rate, plan },
        other => other,
    }
}

// The story in which the ask at a place has a plan, with a crash and a start at the last moment behind it if so wanted.
fn failing_at(
    alloc: Global,
    net: &Net,
    story: &[Event],
    place: usize,
    plan: StorePlan,
    restarts: bool,
) -> Result<Vec<Event>, AllocError> {
    let mut events = Vec::new(alloc);
    for (at, event) in story.iter().enumerate() {
        if at == place {
            push_failing(alloc, net, &mut events, event, plan, restarts)?;
        } else {
            events.push(*event)?;
        }
    }
    Ok(events)
}

// Adds an ask with this plan, with a crash and a start at the last moment behind it if so wanted.
fn push_failing(
    alloc: Global,
    net: &Net,
    events: &mut Vec<Event>,
    event: &Event,
    plan: StorePlan,
    restarts: bool,
) -> Result<(), AllocError> {
    let (true, Some(conn)) = (restarts, event.conn()) else {
        events.push(planned(event, plan))?;
        return Ok(());
    };
    let now = clock_after(alloc, net, events, conn)?;
    events.push(planned(event, plan))?;
    events.push(Event::Crash { conn })?;
    events.push(Event::Start { conn, now })?;
    Ok(())
}

// The clock of a source after these events.
fn clock_after(alloc: Global, net: &Net, events: &[Event], conn: u16) -> Result<u64, AllocError> {
    // Names a type within an outcome, without which the checker can't follow one round the loop.
    let _ = Onward::Pass;
    let mut walk = Walk::new(alloc, net);
    for event in events {
        walk.step(alloc, event)?;
    }
    Ok(clock(&walk.facts_of(alloc, conn)?))
}

// Demands that a run of these events answers what a walk does, and is safe.
fn is_safe(rt: &impl Abort, alloc: Global, net: &Net, events: Vec<Event>) -> Result<(), Fail> {
    let walked = walk_through(alloc, net, events)?;
    let trace = run(alloc, net, &walked.events)?;
    agrees(rt, &trace, &walked);
    assert!(rt; trace.safe);
    Ok(())
}

// The four stories in which the ask at a place fails.
fn fails_at(
    rt: &impl Abort,
    alloc: Global,
    net: &Net,
    story: &[Event],
    place: usize,
) -> Result<(), Fail> {
    for plan in [StorePlan::FailsBefore, StorePlan::FailsAfter] {
        for restarts in [false, true] {
            let events = failing_at(alloc, net, story, place, plan, restarts)?;
            is_safe(rt, alloc, net, events)?;
        }
    }
    Ok(())
}

// The story itself, and those in which one of its asks fails.
fn fails_in_turn(
    rt: &impl Abort,
    alloc: Global,
    net: &Net,
    story: &[Event],
    asks: u64,
) -> Result<(), Fail> {
    is_safe(rt, alloc, net, story.to_vec(alloc)?)?;
    let mut count: u64 = 0;
    for (place, event) in story.iter().enumerate() {
        if let Event::Ask { .. } = *event {
            fails_at(rt, alloc, net, story, place)?;
            count = count.saturating_add(1);
        }
    }
    same(rt, &count, &asks);
    Ok(())
}

// The story carried further, and those in which one of its asks fails.
fn fails_behind(
    rt: &impl Abort,
    alloc: Global,
    net: &Net,
    begun: Vec<Event>,
    more: &[Event],
    asks: u64,
) -> Result<(), Fail> {
    let story = further(begun, more)?;
    fails_in_turn(rt, alloc, net, &story, asks)
}

#[test]
fn stores_fail_at_each_ask_of_two_that_share_a_port(rt: HostRuntime) -> Result<(), Fail> {
    let net = shared(rt.alloc())?;
    let alloc = rt.alloc();
    fails_in_turn(&rt, alloc, &net, &two_share(alloc)?, 3)?;
    let gives_back = [
        ask(0, 0),
        deliver(0, 1, 2),
        deliver(1, 1, 2),
        deliver(1, 2, 2),
    ];
    fails_behind(&rt, alloc, &net, two_share(alloc)?, &gives_back, 4)
}

#[test]
fn stores_fail_before_and_after_a_restart(rt: HostRuntime) -> Result<(), Fail> {
    let net = lone(rt.alloc())?;
    let granted = [
        start(0, 0),
        ask(0, 0x5120),
        deliver(0, 1, 1),
        turn(0, 1),
        back(0, 1, 1, true),
    ];
    let asks_again = [ask(0, 0x5258), tell(0, 1, true)];
    let restarts = [
        Event::Crash { conn: 0 },
        ask(0, 0x5120),
        start(0, 5),
        tell(0, 1, true),
        ask(0, 0x5258),
        tell(0, 1, true),
    ];
    let alloc = rt.alloc();
    let begun = further(Vec::new(alloc), &granted)?;
    fails_behind(&rt, alloc, &net, begun, &asks_again, 2)?;
    let begun = further(Vec::new(alloc), &granted)?;
    fails_behind(&rt, alloc, &net, begun, &restarts, 3)
}

#[test]
fn stores_fail_between_cells(rt: HostRuntime) -> Result<(), Fail> {
    let net = lone(rt.alloc())?;
    let in_turn = [
        emit(6_001_000_000_000),
        arrive(0, 6_000_000_001_200),
        arrive(1, 6_001_000_001_000),
    ];
    let fenced = [
        ask(0, 0x5120),
        deliver(0, 1, 2),
        arrive(0, 6_000_000_001_000),
        emit(6_001_000_000_000),
        arrive(1, 6_001_000_001_201),
        arrive(1, 6_001_000_000_999),
        arrive(1, 6_001_000_001_200),
        arrive(1, 6_001_000_001_200),
        arrive(2, 6_003_500_001_000),
    ];
    let alloc = rt.alloc();
    fails_behind(&rt, alloc, &net, has_emitted_one(alloc)?, &in_turn, 1)?;
    fails_behind(&rt, alloc, &net, has_emitted_one(alloc)?, &fenced, 2)
}

#[test]
fn a_store_fails_at_the_greatest_rate(rt: HostRuntime) -> Result<(), Fail> {
    let wide = Access {
        tau: 1000,
        ..line(100, &[0])
    };
    let net = build(rt.alloc(), &[2_196_875_771_904], &[wide])?;
    let story = [
        start(0, 0),
        ask(0, 0x7fff),
        deliver(0, 1, 1),
        turn(0, 1),
        back(0, 1, 1, true),
        tell(0, 1, true),
        emit(1_000_000_000_000),
        emit(1_000_000_000_234),
        arrive(0, 1_000_000_002_000),
        arrive(1, 1_000_000_001_999),
        arrive(1, 1_000_000_002_000),
    ];
    fails_in_turn(&rt, rt.alloc(), &net, &story, 1)
}
