//! Sources that lose all but their stores, and stores that fail.
use super::*;
use abt_source::{AskFault, StartFault};

#[test]
fn a_yes_from_before_a_crash_is_ignored(rt: HostRuntime) -> Result<(), Fail> {
    let story = [
        starts(0, 0),
        (ask(0, 0x5120), asked(100, 1, 0, 0x5120)?),
        passes(0, 1, 1),
        turns(0, 1),
        passes_back(0, 1, 1, true),
        crashes(0),
        cannot(ask(0, 0x5120), Cause::Down),
        starts(0, 5),
        hears(0, 1, true, Heard::Ignored),
        (ask(0, 0x5258), asked(100, 65, 0, 0x5258)?),
        hears(0, 1, true, Heard::Ignored),
    ];
    told_alone(&rt, rt.alloc(), &story)
}

// A start, and an ask whose write into the store fails by a plan.
fn fails_to_ask(plan: StorePlan) -> [Row; 2] {
    let refused = Outcome::AskRefused(AskFault::Keep);
    [starts(0, 0), (ask_as_planned(0x5120, plan), refused)]
}

#[test]
fn a_number_that_was_not_used_is_asked_with_again(rt: HostRuntime) -> Result<(), Fail> {
    let [start, refused] = fails_to_ask(StorePlan::FailsAfter);
    let again = (ask(0, 0x5120), asked(100, 1, 0, 0x5120)?);
    told_alone(&rt, rt.alloc(), &[start, refused, again])
}

// After a restart a source goes on from the number in its store, whether or not that number was used.
#[test]
fn a_restart_goes_on_from_the_number_in_the_store(rt: HostRuntime) -> Result<(), Fail> {
    goes_on_from(&rt, rt.alloc(), StorePlan::FailsAfter, 65)?;
    goes_on_from(&rt, rt.alloc(), StorePlan::FailsBefore, 1)
}

// The number with which a source asks after a restart behind an ask that failed by a plan.
fn goes_on_from(rt: &impl Abort, alloc: Global, plan: StorePlan, seq: u32) -> Result<(), Fail> {
    let [start, refused] = fails_to_ask(plan);
    let again = (ask(0, 0x5120), asked(100, seq, 0, 0x5120)?);
    let story = [start, refused, crashes(0), starts(0, 0), again];
    told_alone(rt, alloc, &story)
}

// The greatest moment of a start is 2^61 less a second (docs/RULES.md, "Limits").
#[test]
fn a_source_starts_at_the_greatest_moment_and_not_later(rt: HostRuntime) -> Result<(), Fail> {
    let late = Event::Start {
        conn: 0,
        now: 2305842009213693953,
    };
    let refused = Outcome::StartRefused(StartFault::TimeRange);
    let story = [(late, refused), starts(0, 2305841009213693952)];
    told_alone(&rt, rt.alloc(), &story)
}

#[test]
fn a_source_never_starts_before_its_last_start(rt: HostRuntime) -> Result<(), Fail> {
    let early = Event::Start { conn: 0, now: 8 };
    let story = [
        starts(0, 9),
        crashes(0),
        cannot(early, Cause::ClockBack),
        starts(0, 9),
    ];
    told_alone(&rt, rt.alloc(), &story)
}
