//! Requests and answers on their way.
use super::*;

// Both connections ask, and the second goes all the way to 400 cells per second.
fn second_has_400(rt: &impl Abort, world: &mut World<'_>) -> Result<(), Fail> {
    let story = [
        starts(0, 0),
        starts(1, 0),
        (ask(0, 0x5258), asked(100, 1, 0, 0x5258)?),
        passes(0, 1, 1),
        (ask(1, 0x5120), asked(101, 1, 0, 0x5120)?),
        passes(1, 1, 1),
        cannot(turn(1, 1), Cause::NotSent),
        passes(1, 2, 1),
        turns(1, 1),
        passes_back(1, 2, 1, true),
        passes_back(1, 1, 1, true),
        hears(1, 1, true, Heard::Raised),
    ];
    tell(rt, world, &story)
}

// The second asks for 600, for which the shared port has no room.
fn second_wants_600(rt: &impl Abort, world: &mut World<'_>) -> Result<(), Fail> {
    let story = [
        (ask(1, 0x5258), asked(101, 2, 0x5120, 0x5258)?),
        passes(1, 1, 2),
        refuses(1, 2, &request(101, 2, 0x5120, 0x5258)?),
        passes_back(1, 1, 2, false),
        hears(1, 2, false, Heard::Refused),
    ];
    tell(rt, world, &story)
}

#[test]
fn a_rate_is_granted_hop_by_hop_and_more_is_refused_where_there_is_no_room(
    rt: HostRuntime,
) -> Result<(), Fail> {
    let net = shared(rt.alloc())?;
    is_granted_and_refused(&rt, &mut world(rt.alloc(), &net)?)
}

fn is_granted_and_refused(rt: &impl Abort, world: &mut World<'_>) -> Result<(), Fail> {
    second_has_400(rt, world)?;
    second_wants_600(rt, world)?;
    holds(rt, world, 0, 0, &[0x5258]);
    holds(rt, world, 1, 0x5120, &[0x5120, 0x5120]);
    totals(rt, world, &[204800, 512000]);
    same(rt, &world.rate(2), &None);
    same(rt, &world.held(2, 1), &None);
    Ok(())
}

// After a no, hop 1 keeps the number shut at its floor, so that the same request is refused there too from now on, and
// at hop 2 even when another connection has given back what it held.
#[test]
fn a_refused_request_is_refused_again_though_there_is_room_now(
    rt: HostRuntime,
) -> Result<(), Fail> {
    let net = shared(rt.alloc())?;
    is_refused_again(&rt, &mut world(rt.alloc(), &net)?)
}

fn is_refused_again(rt: &impl Abort, world: &mut World<'_>) -> Result<(), Fail> {
    second_has_400(rt, world)?;
    second_wants_600(rt, world)?;
    let refused = request(101, 2, 0x5120, 0x5258)?;
    let story = [
        (ask(0, 0), asked(100, 2, 0, 0)?),
        passes(0, 1, 2),
        refuses(1, 1, &refused),
        refuses(1, 2, &refused),
    ];
    tell(rt, world, &story)?;
    totals(rt, world, &[204800, 204800]);
    Ok(())
}

#[test]
fn a_yes_to_an_older_request_is_ignored(rt: HostRuntime) -> Result<(), Fail> {
    let net = lone(rt.alloc())?;
    ignores_an_older_yes(&rt, &mut world(rt.alloc(), &net)?)
}

fn ignores_an_older_yes(rt: &impl Abort, world: &mut World<'_>) -> Result<(), Fail> {
    let story = [
        starts(0, 0),
        (ask(0, 0x5120), asked(100, 1, 0, 0x5120)?),
        passes(0, 1, 1),
        turns(0, 1),
        passes_back(0, 1, 1, true),
        (ask(0, 0x5258), asked(100, 2, 0, 0x5258)?),
        hears(0, 1, true, Heard::Ignored),
    ];
    tell(rt, world, &story)?;
    holds(rt, world, 0, 0, &[0x5120]);
    totals(rt, world, &[204800]);
    Ok(())
}

#[test]
fn what_was_not_sent_or_is_not_there_cannot_come(rt: HostRuntime) -> Result<(), Fail> {
    let start = |conn, now| Event::Start { conn, now };
    let story = [
        cannot(emit(5), Cause::Down),
        starts(0, 9),
        cannot(start(0, 9), Cause::Running),
        cannot(Event::Again { conn: 0 }, Cause::NotAsking),
        cannot(emit(8), Cause::ClockBack),
        (emit(9), Outcome::EmitRefused(ShapeFault::Zero)),
        cannot(start(7, 0), Cause::Unknown),
        cannot(deliver(0, 2, 1), Cause::Unknown),
        cannot(deliver(0, 1, 1), Cause::NotSent),
    ];
    told_alone(&rt, rt.alloc(), &story)
}
