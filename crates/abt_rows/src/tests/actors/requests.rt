//! Requests and their answers.
use super::*;

#[test]
fn only_the_newest_request_is_heard(rt: HostRuntime) -> Result<(), Fail> {
    let first = request(1, Rate::ZERO, slow())?;
    let second = request(2, Rate::ZERO, middle())?;
    let mut actor = SourceActor::new(connection()?);
    let asks = [
        (start(0), Outcome::Started),
        (start(0), stopped(Cause::Running)),
        (SourceCommand::Again, stopped(Cause::NotAsking)),
        (ask(slow()), Outcome::Asked(first)),
        (SourceCommand::Again, Outcome::Repeated(first)),
        (ask(middle()), Outcome::Asked(second)),
        (SourceCommand::Again, Outcome::Repeated(second)),
        (start(0), stopped(Cause::Running)),
        (yes(first), told(Heard::Ignored)),
        (no(first), told(Heard::Ignored)),
    ];
    goes(&rt, &mut actor, &asks);
    stands(&rt, &actor, Rate::ZERO, true);

    let answers = [
        (yes(second), told(Heard::Raised)),
        (yes(second), told(Heard::Ignored)),
        (no(second), told(Heard::Ignored)),
        (SourceCommand::Again, stopped(Cause::NotAsking)),
    ];
    goes(&rt, &mut actor, &answers);
    stands(&rt, &actor, middle(), false);
    Ok(())
}

#[test]
fn a_lower_rate_counts_from_the_ask_on(rt: HostRuntime) -> Result<(), Fail> {
    let lower = request(2, slow(), slow())?;
    let mut actor = raised(&rt, 0, middle())?;
    goes(&rt, &mut actor, &[(ask(slow()), Outcome::Asked(lower))]);
    shapes_at(&rt, &actor, slow());

    goes(&rt, &mut actor, &[(no(lower), told(Heard::Refused))]);
    stands(&rt, &actor, slow(), false);

    // A rate that is asked for is not yet there, and what there is stays.
    let higher = request(3, slow(), fast())?;
    let refused = [
        (ask(fast()), Outcome::Asked(higher)),
        (no(higher), told(Heard::Refused)),
    ];
    goes(&rt, &mut actor, &refused);
    shapes_at(&rt, &actor, slow());
    Ok(())
}

// An answer to a request of these terms is ignored.
fn ignores(
    rt: &impl Abort,
    actor: &mut SourceActor,
    terms: Option<Request>,
    granted: bool,
) -> Result<(), Fail> {
    let answer = Answer::of(&terms.ok_or("a request")?, granted);
    goes(
        rt,
        actor,
        &[(SourceCommand::Told(answer), told(Heard::Ignored))],
    );
    Ok(())
}

#[test]
fn a_yes_to_other_terms_is_ignored(rt: HostRuntime) -> Result<(), Fail> {
    let mut actor = raised(&rt, 0, slow())?;
    let newest = request(2, slow(), middle())?;
    goes(&rt, &mut actor, &[(ask(middle()), Outcome::Asked(newest))]);
    let here = connection()?;
    let elsewhere = Vc::new(1, 101).ok_or("another channel")?;
    for (vc, seq, floor, rate, granted) in [
        (elsewhere, 2, slow(), middle(), true),
        (here, 1, slow(), middle(), true),
        (here, 3, slow(), middle(), true),
        (here, 2, Rate::ZERO, middle(), true),
        (here, 2, slow(), fast(), true),
        (here, 2, slow(), fast(), false),
    ] {
        ignores(&rt, &mut actor, Request::new(vc, seq, floor, rate), granted)?;
    }
    let story = [
        (SourceCommand::Again, Outcome::Repeated(newest)),
        (yes(newest), told(Heard::Raised)),
    ];
    goes(&rt, &mut actor, &story);
    shapes_at(&rt, &actor, middle());
    Ok(())
}
