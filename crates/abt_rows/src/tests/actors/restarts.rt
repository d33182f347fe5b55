//! Crashes, restarts, and what a source that is down answers.
use super::*;

#[test]
fn a_source_that_is_down_only_starts(rt: HostRuntime) -> Result<(), Fail> {
    let mut actor = SourceActor::new(connection()?);
    let unasked = yes(request(1, Rate::ZERO, slow())?);
    let story = [
        (emit(5), stopped(Cause::Down)),
        (ask(slow()), stopped(Cause::Down)),
        (SourceCommand::Again, stopped(Cause::Down)),
        (SourceCommand::Crash, stopped(Cause::Down)),
        (unasked, told(Heard::Ignored)),
    ];
    goes(&rt, &mut actor, &story);
    stands(&rt, &actor, Rate::ZERO, false);

    let up = [
        (start(9), Outcome::Started),
        (start(9), stopped(Cause::Running)),
        (SourceCommand::Again, stopped(Cause::NotAsking)),
        (emit(8), stopped(Cause::ClockBack)),
        (emit(9), Outcome::EmitRefused(ShapeFault::Zero)),
    ];
    goes(&rt, &mut actor, &up);
    Ok(())
}

#[test]
fn a_restarted_source_ignores_yesterdays_yes(rt: HostRuntime) -> Result<(), Fail> {
    let first = request(1, Rate::ZERO, slow())?;
    let second = request(65, Rate::ZERO, middle())?;
    let mut actor = SourceActor::new(connection()?);
    let story = [
        (start(0), Outcome::Started),
        (ask(slow()), Outcome::Asked(first)),
        (SourceCommand::Crash, Outcome::Crashed),
        (yes(first), told(Heard::Ignored)),
        (ask(slow()), stopped(Cause::Down)),
        (start(5), Outcome::Started),
        (yes(first), told(Heard::Ignored)),
        (ask(middle()), Outcome::Asked(second)),
        (yes(first), told(Heard::Ignored)),
    ];
    goes(&rt, &mut actor, &story);
    stands(&rt, &actor, Rate::ZERO, true);
    Ok(())
}

#[test]
fn a_crash_takes_the_rate_and_the_open_request(rt: HostRuntime) -> Result<(), Fail> {
    let mut actor = raised(&rt, 0, middle())?;
    let open = request(2, middle(), fast())?;
    let story = [
        (ask(fast()), Outcome::Asked(open)),
        (SourceCommand::Crash, Outcome::Crashed),
    ];
    goes(&rt, &mut actor, &story);
    stands(&rt, &actor, Rate::ZERO, false);

    goes(&rt, &mut actor, &[(start(0), Outcome::Started)]);
    stands(&rt, &actor, Rate::ZERO, false);
    Ok(())
}

#[test]
fn the_clock_outlives_a_crash(rt: HostRuntime) -> Result<(), Fail> {
    let mut actor = raised(&rt, 9, slow())?;
    let second = request(65, Rate::ZERO, slow())?;
    // 400 cells per second are 2,500,000,000 ps apart.
    let left = Outcome::Emitted {
        cell: 0,
        next: 1002500000009,
    };
    let story = [
        (SourceCommand::Crash, Outcome::Crashed),
        (start(8), stopped(Cause::ClockBack)),
        (start(9), Outcome::Started),
        (ask(slow()), Outcome::Asked(second)),
        (yes(second), told(Heard::Raised)),
        (emit(8), stopped(Cause::ClockBack)),
        (emit(1000000000008), too_soon(1000000000009)),
        (emit(1000000000009), left),
        (emit(1000000000008), stopped(Cause::ClockBack)),
        (SourceCommand::Crash, Outcome::Crashed),
        (start(1000000000008), stopped(Cause::ClockBack)),
        (start(1000000000009), Outcome::Started),
        (emit(1000000000008), stopped(Cause::ClockBack)),
    ];
    goes(&rt, &mut actor, &story);
    Ok(())
}
