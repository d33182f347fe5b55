//! Cells, from the shaper to the policer.
use super::*;

// The connection has 1,000 cells per second, and its first cell left a second after the start.
fn has_emitted_one(rt: &impl Abort, world: &mut World<'_>) -> Result<(), Fail> {
    let soon = ShapeFault::TooSoon {
        next: 6000000000000,
    };
    let story = [
        starts(0, 5000000000000),
        (ask(0, 0x53e8), asked(100, 1, 0, 0x53e8)?),
        passes(0, 1, 1),
        turns(0, 1),
        passes_back(0, 1, 1, true),
        hears(0, 1, true, Heard::Raised),
        (emit(5900000000000), Outcome::EmitRefused(soon)),
        emits(6000000000000, 0, 6001000000000),
    ];
    tell(rt, world, &story)
}

// Tells what comes after that.
fn told_after_one(rt: &impl Abort, alloc: Global, story: &[Row]) -> Result<(), Fail> {
    let net = lone(alloc)?;
    let mut world = world(alloc, &net)?;
    has_emitted_one(rt, &mut world)?;
    tell(rt, &mut world, story)
}

#[test]
fn cells_that_leave_in_turn_conform_late_or_early_on_the_line(rt: HostRuntime) -> Result<(), Fail> {
    let story = [
        emits(6001000000000, 1, 6002000000000),
        conforms(0, 6000000001200),
        conforms(1, 6001000001000),
    ];
    told_after_one(&rt, rt.alloc(), &story)
}

// A request that came to the first hop fences off the cells that left before it was made. The line takes a delay of 1,000
// and up to 200 more.
#[test]
fn a_request_overtakes_no_cell_and_the_line_keeps_its_delay(rt: HostRuntime) -> Result<(), Fail> {
    let story = [
        (ask(0, 0x5120), asked(100, 2, 0x5120, 0x5120)?),
        passes(0, 1, 2),
        cannot(arrive(0, 6000000001000), Cause::Fenced),
        emits(6001000000000, 1, 6003500000000),
        cannot(arrive(1, 6001000001201), Cause::Delay),
        cannot(arrive(1, 6001000000999), Cause::Delay),
        conforms(1, 6001000001200),
        cannot(arrive(1, 6001000001200), Cause::Fenced),
        cannot(arrive(2, 6003500001000), Cause::NotSent),
    ];
    told_after_one(&rt, rt.alloc(), &story)
}

#[test]
fn at_the_greatest_rate_cells_may_come_at_once_and_not_in_another_order(
    rt: HostRuntime,
) -> Result<(), Fail> {
    let wide = AccessLine {
        tau: 1000,
        ..line(100, &[0])
    };
    let story = [
        starts(0, 0),
        (ask(0, 0x7fff), asked(100, 1, 0, 0x7fff)?),
        passes(0, 1, 1),
        turns(0, 1),
        passes_back(0, 1, 1, true),
        hears(0, 1, true, Heard::Raised),
        emits(1000000000000, 0, 1000000000234),
        emits(1000000000234, 1, 1000000000468),
        conforms(0, 1000000002000),
        cannot(arrive(1, 1000000001999), Cause::ClockBack),
        conforms(1, 1000000002000),
    ];
    let net = net(rt.alloc(), &[2196875771904], &[wide])?;
    told_of(&rt, rt.alloc(), &net, &story)
}

// The way of a request to a yes that raises the rate of the first connection.
fn raise(rt: &impl Abort, world: &mut World<'_>, seq: u32) -> Result<(), Fail> {
    let story = [
        passes(0, 1, seq),
        turns(0, seq),
        passes_back(0, 1, seq, true),
        hears(0, seq, true, Heard::Raised),
    ];
    tell(rt, world, &story)
}

// 400 cells per second are 2.5 milliseconds apart, 1,000 one. The moment of the next cell is that of the rate at which the last
// one left, whatever was asked since, and each cell comes as early as its line and the policer allow.
#[test]
fn cells_of_two_rates_on_one_connection_conform(rt: HostRuntime) -> Result<(), Fail> {
    let net = lone(rt.alloc())?;
    conform_at_two_rates(&rt, &mut world(rt.alloc(), &net)?)
}

fn conform_at_two_rates(rt: &impl Abort, world: &mut World<'_>) -> Result<(), Fail> {
    let first = [starts(0, 0), (ask(0, 0x5120), asked(100, 1, 0, 0x5120)?)];
    tell(rt, world, &first)?;
    raise(rt, world, 1)?;
    let slow = [
        emits(1000000000000, 0, 1002500000000),
        (ask(0, 0x53e8), asked(100, 2, 0x5120, 0x53e8)?),
        conforms(0, 1000000001200),
    ];
    tell(rt, world, &slow)?;
    raise(rt, world, 2)?;
    let soon = ShapeFault::TooSoon {
        next: 1002500000000,
    };
    let fast = [
        (emit(1002499999999), Outcome::EmitRefused(soon)),
        emits(1002500000000, 1, 1003500000000),
        (ask(0, 0x5120), asked(100, 3, 0x5120, 0x5120)?),
        emits(1003500000000, 2, 1006000000000),
        conforms(1, 1002500001000),
        passes(0, 1, 3),
        conforms(2, 1003500001000),
    ];
    tell(rt, world, &fast)?;
    assert!(rt; world.safe());
    Ok(())
}

#[test]
fn a_cell_under_way_arrives_though_its_source_has_crashed(rt: HostRuntime) -> Result<(), Fail> {
    let story = [
        crashes(0),
        starts(0, 6000000000000),
        (emit(6000000000000), Outcome::EmitRefused(ShapeFault::Zero)),
        conforms(0, 6000000001000),
    ];
    told_after_one(&rt, rt.alloc(), &story)
}
