//! Asks whose write into the store fails.
use super::*;

fn ask_under(plan: StorePlan) -> SourceCommand {
    SourceCommand::Ask { rate: slow(), plan }
}

// The number under which a source without a rate asks for the slow one.
fn number_of(rt: &impl Abort, actor: &mut SourceActor) -> Result<u32, Fail> {
    let Outcome::Asked(request) = actor.step(&ask(slow())) else {
        return Err("the ask after it was refused".into());
    };
    same(rt, &(request.floor(), request.ask()), &(Rate::ZERO, slow()));
    Ok(request.seq())
}

// The number of the ask after one whose write failed under a plan, with or without a restart in between.
fn number_after(rt: &impl Abort, plan: StorePlan, restarts: bool) -> Result<u32, Fail> {
    let mut actor = SourceActor::new(connection()?);
    let failed = [
        (start(0), Outcome::Started),
        (ask_under(plan), Outcome::AskRefused(AskFault::Keep)),
    ];
    goes(rt, &mut actor, &failed);
    stands(rt, &actor, Rate::ZERO, false);
    if restarts {
        let restart = [
            (SourceCommand::Crash, Outcome::Crashed),
            (start(0), Outcome::Started),
        ];
        goes(rt, &mut actor, &restart);
    }
    number_of(rt, &mut actor)
}

#[test]
fn a_number_that_failed_is_given_up_by_a_restart_alone(rt: HostRuntime) -> Result<(), Fail> {
    let rows = [
        (StorePlan::FailsAfter, false, 1),
        (StorePlan::FailsAfter, true, 65),
        (StorePlan::FailsBefore, false, 1),
        (StorePlan::FailsBefore, true, 1),
    ];
    for (plan, restarts, number) in rows {
        same(&rt, &number_after(&rt, plan, restarts)?, &number);
    }
    Ok(())
}

#[test]
fn a_failed_write_leaves_the_open_request(rt: HostRuntime) -> Result<(), Fail> {
    let mut actor = raised(&rt, 0, fast())?;
    // The first 64 asks need no more than one write.
    for seq in 2..64 {
        let asked = Outcome::Asked(request(seq, slow(), slow())?);
        goes(
            &rt,
            &mut actor,
            &[(ask_under(StorePlan::FailsBefore), asked)],
        );
    }
    let open = request(64, slow(), slow())?;
    let story = [
        (ask(slow()), Outcome::Asked(open)),
        (
            ask_under(StorePlan::FailsAfter),
            Outcome::AskRefused(AskFault::Keep),
        ),
        (SourceCommand::Again, Outcome::Repeated(open)),
        (yes(open), told(Heard::Raised)),
    ];
    goes(&rt, &mut actor, &story);
    shapes_at(&rt, &actor, slow());
    Ok(())
}

// A start reads the store, and would be refused under a plan that is left; so would the next ask that writes. The second ask
// has nothing to write, and its plan goes with it.
#[test]
fn a_plan_is_for_its_own_ask_alone(rt: HostRuntime) -> Result<(), Fail> {
    let mut actor = SourceActor::new(connection()?);
    let first = request(1, Rate::ZERO, slow())?;
    let story = [
        (ask_under(StorePlan::FailsBefore), stopped(Cause::Down)),
        (start(0), Outcome::Started),
        (ask(slow()), Outcome::Asked(first)),
        (
            ask_under(StorePlan::FailsBefore),
            Outcome::Asked(request(2, Rate::ZERO, slow())?),
        ),
        (SourceCommand::Crash, Outcome::Crashed),
        (ask_under(StorePlan::FailsAfter), stopped(Cause::Down)),
        (start(0), Outcome::Started),
        (
            ask(slow()),
            Outcome::Asked(request(65, Rate::ZERO, slow())?),
        ),
    ];
    goes(&rt, &mut actor, &story);
    Ok(())
}
