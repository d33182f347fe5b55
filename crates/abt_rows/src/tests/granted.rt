//! What fits is granted, if nothing comes between, and no decrease is refused.
use super::*;
use abt_laws::ask_with_nothing_between;

// What a source is told that asks with nothing between. If memory was refused, it asks once more: what was begun takes no room from it.
fn told(world: &mut World<'_>, net: &Net, conn: u16, code: u16) -> Result<Outcome, AllocError> {
    let rate = Rate::from_code(code);
    match ask_with_nothing_between(world, net, conn, rate, StorePlan::Works) {
        Ok(outcome) => Ok(outcome),
        Err(_) => ask_with_nothing_between(world, net, conn, rate, StorePlan::Works),
    }
}

// 600 and 400 cells per second fill the shared port. Code 5121 is the next rate above 400, and 4f20 is 200.
#[test]
fn what_just_fits_is_granted(rt: HostRuntime) -> Result<(), Fail> {
    let net = shared(rt.alloc())?;
    fills_the_port(&rt, &mut world(rt.alloc(), &net)?, &net)
}

fn fills_the_port(rt: &impl Abort, world: &mut World<'_>, net: &Net) -> Result<(), Fail> {
    let raised = Outcome::Told(Heard::Raised);
    tell(rt, world, &[starts(0, 0), starts(1, 0)])?;
    same(rt, &told(world, net, 0, 0x5258)?, &raised);
    let not_sent = Outcome::NotEnabled(Cause::NotSent);
    same(rt, &told(world, net, 1, 0x5121)?, &not_sent);
    holds(rt, world, 1, 0, &[0x5121, 0]);

    same(rt, &told(world, net, 1, 0x5120)?, &raised);
    holds(rt, world, 0, 0x5258, &[0x5258]);
    holds(rt, world, 1, 0x5120, &[0x5120, 0x5120]);
    totals(rt, world, &[204800, 512000]);

    same(rt, &told(world, net, 1, 0x4f20)?, &raised);
    holds(rt, world, 1, 0x4f20, &[0x4f20, 0x4f20]);
    Ok(())
}

#[test]
fn an_ask_that_sends_no_request_ends_there(rt: HostRuntime) -> Result<(), Fail> {
    let net = lone(rt.alloc())?;
    ends_at_the_ask(&rt, &mut world(rt.alloc(), &net)?, &net)
}

fn ends_at_the_ask(rt: &impl Abort, world: &mut World<'_>, net: &Net) -> Result<(), Fail> {
    for (conn, cause) in [(0, Cause::Down), (1, Cause::Unknown)] {
        let expected = Outcome::NotEnabled(cause);
        same(rt, &told(world, net, conn, 0x5120)?, &expected);
    }
    holds(rt, world, 0, 0, &[0]);
    Ok(())
}
