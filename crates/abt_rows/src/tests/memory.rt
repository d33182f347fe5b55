//! Each allocation fails in turn where the tests are run by `rt try --test --fail-alloc N`.
use super::*;

// Many facts, so that the log of a connection grows more than once: an event that was refused memory hasn't happened, and
// answers the same when it comes again.
#[test]
fn an_event_that_was_refused_memory_has_not_happened(rt: HostRuntime) -> Result<(), Fail> {
    let net = lone(rt.alloc())?;
    answers_each_event(&rt, &mut world(rt.alloc(), &net)?)
}

fn answers_each_event(rt: &impl Abort, world: &mut World<'_>) -> Result<(), Fail> {
    for now in 0..20 {
        let story = [
            starts(0, now),
            cannot(Event::Start { conn: 0, now }, Cause::Running),
            crashes(0),
            cannot(Event::Crash { conn: 0 }, Cause::Down),
        ];
        tell(rt, world, &story)?;
    }
    Ok(())
}

// A number is used once, also if memory was refused for the ask.
#[test]
fn an_ask_that_was_refused_memory_uses_no_number(rt: HostRuntime) -> Result<(), Fail> {
    let net = lone(rt.alloc())?;
    asks_on(&rt, &mut world(rt.alloc(), &net)?)
}

fn asks_on(rt: &impl Abort, world: &mut World<'_>) -> Result<(), Fail> {
    tell(rt, world, &[starts(0, 0)])?;
    for seq in 1..20 {
        let story = [
            (ask(0, 0x5120), asked(100, seq, 0, 0x5120)?),
            passes(0, 1, seq),
            passes(0, 1, seq),
        ];
        tell(rt, world, &story)?;
        holds(rt, world, 0, 0, &[0x5120]);
    }
    Ok(())
}

// A world that was refused memory is dropped, and the net is as it was.
#[test]
fn a_world_that_was_refused_memory_can_be_made_again(rt: HostRuntime) -> Result<(), Fail> {
    let story = [
        starts(1, 0),
        (ask(1, 0x5120), asked(101, 1, 0, 0x5120)?),
        passes(1, 1, 1),
        passes(1, 2, 1),
        turns(1, 1),
    ];
    let net = shared(rt.alloc())?;
    told_of(&rt, rt.alloc(), &net, &story)
}
