//! When cells leave. The spacings are those of docs/RULES.md, "Spacing": 2,500,000,000 ps at 400 cells per second,
//! 1,000,000,000 ps at 1,000.
use super::*;

fn emitted(cell: u64, next: u64) -> Outcome {
    Outcome::Emitted { cell, next }
}

#[test]
fn no_cell_leaves_before_the_hold_off(rt: HostRuntime) -> Result<(), Fail> {
    let mut actor = raised(&rt, 0, slow())?;
    let story = [
        (emit(999999999999), too_soon(1000000000000)),
        (emit(1000000000000), emitted(0, 1002500000000)),
        (emit(1002499999999), too_soon(1002500000000)),
        (emit(1002500000000), emitted(1, 1005000000000)),
    ];
    goes(&rt, &mut actor, &story);
    Ok(())
}

#[test]
fn a_lower_rate_spaces_the_next_cell(rt: HostRuntime) -> Result<(), Fail> {
    let mut actor = raised(&rt, 5000000000000, fast())?;
    let lower = request(2, slow(), slow())?;
    let story = [
        (emit(5900000000000), too_soon(6000000000000)),
        (emit(6000000000000), emitted(0, 6001000000000)),
        (ask(slow()), Outcome::Asked(lower)),
        (emit(6001000000000), emitted(1, 6003500000000)),
    ];
    goes(&rt, &mut actor, &story);
    Ok(())
}

#[test]
fn cells_are_numbered_over_restarts(rt: HostRuntime) -> Result<(), Fail> {
    let mut actor = raised(&rt, 0, fast())?;
    let second = request(65, Rate::ZERO, fast())?;
    let story = [
        (emit(1000000000000), emitted(0, 1001000000000)),
        (emit(1001000000000), emitted(1, 1002000000000)),
        (SourceCommand::Crash, Outcome::Crashed),
        (start(1001000000000), Outcome::Started),
        (ask(fast()), Outcome::Asked(second)),
        (yes(second), told(Heard::Raised)),
        (emit(2000999999999), too_soon(2001000000000)),
        (emit(2001000000000), emitted(2, 2002000000000)),
    ];
    goes(&rt, &mut actor, &story);
    Ok(())
}

// A source starts at 2^61 - 10^12 at the latest, and sends at 2^61 at the latest.
#[test]
fn the_last_moments_are_taken(rt: HostRuntime) -> Result<(), Fail> {
    let late = Outcome::StartRefused(StartFault::TimeRange);
    let mut unstarted = SourceActor::new(connection()?);
    let refused = [
        (start(2305842009213693953), late),
        (emit(0), stopped(Cause::Down)),
        (start(0), Outcome::Started),
    ];
    goes(&rt, &mut unstarted, &refused);

    let mut actor = raised(&rt, 2305842009213693952, slow())?;
    let story = [
        (
            emit(2305843009213693953),
            Outcome::EmitRefused(ShapeFault::TimeRange),
        ),
        (emit(2305843009213693951), too_soon(2305843009213693952)),
        (emit(2305843009213693952), emitted(0, 2305843011713693952)),
        (SourceCommand::Crash, Outcome::Crashed),
        (start(2305843009213693952), late),
    ];
    goes(&rt, &mut actor, &story);
    Ok(())
}
