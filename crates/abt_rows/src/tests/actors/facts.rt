//! The facts that commands add (docs/RULES.md, "Facts"), the newer one first.
use super::*;
use abt_keep::Record;

// Carries out each command, which has to add the facts beside it.
fn adds(rt: &impl Abort, actor: &mut SourceActor, story: &[(SourceCommand, Added)]) {
    for (place, (command, added)) in story.iter().enumerate() {
        let (_, found) = actor.carry_out(command);
        same_at(rt, &found, added, &("command", place));
    }
}

// The fact of an ask that sent its request.
fn asked(seq: u32, floor: Rate, ask: Rate, mark: u64) -> Fact {
    Fact::Asked {
        seq,
        floor,
        ask,
        mark,
    }
}

// The fact that a record was written with this number and the greatest spacing.
fn stored(number: u32) -> Fact {
    Fact::Stored {
        kept: Record::old(number),
    }
}

fn started(now: u64, number: u32) -> Fact {
    Fact::Started {
        now,
        kept: Record::old(number),
    }
}

#[test]
fn a_stride_is_stored_and_each_request_marked_by_the_cells_before_it(
    rt: HostRuntime,
) -> Result<(), Fail> {
    let mut actor = SourceActor::new(connection()?);
    let yes_heard = Fact::Heard {
        seq: 1,
        granted: true,
    };
    let left = Fact::Emitted {
        cell: 0,
        at: 1000000000007,
        rate: slow(),
    };
    let no_heard = Fact::Heard {
        seq: 2,
        granted: false,
    };
    let story = [
        (start(7), Added::One(started(7, 0))),
        (
            ask(slow()),
            Added::Two(asked(1, Rate::ZERO, slow(), 0), stored(64)),
        ),
        (yes(request(1, Rate::ZERO, slow())?), Added::One(yes_heard)),
        (emit(1000000000007), Added::One(left)),
        (ask(middle()), Added::One(asked(2, slow(), middle(), 1))),
        (no(request(2, slow(), middle())?), Added::One(no_heard)),
        (SourceCommand::Crash, Added::One(Fact::Crashed)),
    ];
    adds(&rt, &mut actor, &story);
    Ok(())
}

#[test]
fn a_refused_ask_may_have_stored_its_stride(rt: HostRuntime) -> Result<(), Fail> {
    let mut actor = SourceActor::new(connection()?);
    let unwritten = SourceCommand::Ask {
        rate: slow(),
        plan: StorePlan::FailsBefore,
    };
    let written = SourceCommand::Ask {
        rate: slow(),
        plan: StorePlan::FailsAfter,
    };
    let story = [
        (written, Added::Nothing),
        (start(0), Added::One(started(0, 0))),
        (unwritten, Added::Nothing),
        (written, Added::One(stored(64))),
        (SourceCommand::Crash, Added::One(Fact::Crashed)),
        (start(0), Added::One(started(0, 64))),
    ];
    adds(&rt, &mut actor, &story);
    Ok(())
}

#[test]
fn what_changes_nothing_adds_nothing(rt: HostRuntime) -> Result<(), Fail> {
    let mut actor = raised(&rt, 5, slow())?;
    let stale = request(1, Rate::ZERO, slow())?;
    let story = [
        (start(5), Added::Nothing),
        (SourceCommand::Again, Added::Nothing),
        (yes(stale), Added::Nothing),
        (emit(4), Added::Nothing),
        (emit(5), Added::Nothing),
    ];
    adds(&rt, &mut actor, &story);
    Ok(())
}
