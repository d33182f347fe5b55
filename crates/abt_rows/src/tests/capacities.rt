//! Links that are given other capacities while a net runs.
use super::*;

/// 2^60, the greatest capacity.
const GREATEST: u64 = 1_152_921_504_606_846_976;

// Demands the capacity of each port, and that there is no further port.
fn capacities(rt: &impl Abort, world: &World<'_>, capacities: &[u64]) {
    let mut port = 0;
    for capacity in capacities {
        same(rt, &world.capacity(port), &Some(*capacity));
        port = port.saturating_add(1);
    }
    same(rt, &world.capacity(port), &None);
}

// The link shrinks to what is held and no further, and the capacity in force decides what is asked then.
#[test]
fn a_link_shrinks_to_what_is_held(rt: HostRuntime) -> Result<(), Fail> {
    let net = lone(rt.alloc())?;
    shrinks(&rt, &mut world(rt.alloc(), &net)?)
}

fn shrinks(rt: &impl Abort, world: &mut World<'_>) -> Result<(), Fail> {
    let asked_600 = [
        starts(0, 0),
        (ask(0, 0x5258), asked(100, 1, 0, 0x5258)?),
        passes(0, 1, 1),
    ];
    tell(rt, world, &asked_600)?;
    let shrinks = [
        caps_not(0, 307_199, CapacityFault::BelowSum),
        caps(0, 307_200),
        (ask(0, 0x53e8), asked(100, 2, 0, 0x53e8)?),
        refuses(0, 1, &request(100, 2, 0, 0x53e8)?),
        drops(0, 1, 1, DropCause::Stale),
    ];
    tell(rt, world, &shrinks)?;
    capacities(rt, world, &[307_200]);
    let to_nothing = [
        caps(0, 0),
        caps_not(0, GREATEST + 1, CapacityFault::AboveLimit),
        cannot(cap(1, 0), Cause::Unknown),
    ];
    tell(rt, world, &to_nothing)?;
    holds(rt, world, 0, 0, &[0]);
    totals(rt, world, &[0]);
    capacities(rt, world, &[0]);
    assert!(rt; world.safe());
    Ok(())
}

// A link that grows passes what it refused, under a new number. The other port keeps its capacity.
#[test]
fn a_link_that_grows_passes_more(rt: HostRuntime) -> Result<(), Fail> {
    let net = shared(rt.alloc())?;
    grows(&rt, &mut world(rt.alloc(), &net)?)
}

fn grows(rt: &impl Abort, world: &mut World<'_>) -> Result<(), Fail> {
    let full = [
        starts(0, 0),
        starts(1, 0),
        (ask(0, 0x53e8), asked(100, 1, 0, 0x53e8)?),
        passes(0, 1, 1),
        (ask(1, 0x4000), asked(101, 1, 0, 0x4000)?),
        passes(1, 1, 1),
        refuses(1, 2, &request(101, 1, 0, 0x4000)?),
    ];
    tell(rt, world, &full)?;
    let grown = [
        caps(1, GREATEST),
        refuses(1, 2, &request(101, 1, 0, 0x4000)?),
        (ask(1, 0x4000), asked(101, 2, 0, 0x4000)?),
        passes(1, 1, 2),
        passes(1, 2, 2),
    ];
    tell(rt, world, &grown)?;
    totals(rt, world, &[512, 512_512]);
    capacities(rt, world, &[512_000, GREATEST]);
    Ok(())
}

// An event of a port looks up that port alone, one of a port that isn't there nothing.
#[test]
fn a_capacity_looks_one_entry_up(rt: HostRuntime) -> Result<(), Fail> {
    // Names a type within an outcome, without which the checker can't follow one round the loop.
    let _ = Onward::Pass;
    let net = lone(rt.alloc())?;
    looks_up(&rt, &mut world(rt.alloc(), &net)?)
}

fn looks_up(rt: &impl Abort, world: &mut World<'_>) -> Result<(), Fail> {
    for (event, looks) in [(cap(0, 1), 1), (cap(1, 1), 0)] {
        step(rt, world, &event)?;
        same(rt, &world.looks(), &looks);
    }
    Ok(())
}
