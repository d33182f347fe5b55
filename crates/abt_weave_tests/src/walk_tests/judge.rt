//! What weaving answers, beside what a search found.
use super::books::{Books, are_same, journals, project, source_journals};
use super::search::End;
use abt_weave::{Sequence, Stuck, WeaveFault, weave};
use abt_world::{Event, Net, run};
use std::alloc::Global;
use std::process::Abort;
use std::test::Fail;

/// Which answers there were.
#[derive(Clone, Copy, Debug)]
pub struct Answers {
    pub woven: u64,
    pub no_order: u64,
    pub mismatches: u64,
}

/// None yet.
pub const NONE: Answers = Answers {
    woven: 0,
    no_order: 0,
    mismatches: 0,
};

/// Weaves journals, which are as many as the net has ports and connections.
pub fn woven(
    alloc: Global,
    net: &Net,
    books: &Books,
) -> Result<Result<Sequence<Event>, WeaveFault>, Fail> {
    let ports = journals(alloc, books)?;
    let sources = source_journals(alloc, books)?;
    if ports.ports.len() != net.capacities().len() || sources.len() != net.conns().len() {
        return Ok(Err(WeaveFault::Memory));
    }
    Ok(weave(alloc, net, &ports, sources.as_slice()))
}

/// Demands that events are just these journals, and that a run of them is safe.
pub fn are_woven(
    rt: &impl Abort,
    alloc: Global,
    net: &Net,
    books: &Books,
    events: &[Event],
) -> Result<(), Fail> {
    let projected = project(alloc, net, events)?;
    assert!(rt; are_same(&projected, books), "{books:?} {events:?}");
    assert!(rt; run(alloc, net, events)?.safe);
    Ok(())
}

/// Demands that weaving journals answers what an end says, and counts the answer.
pub fn answers_as(
    rt: &impl Abort,
    alloc: Global,
    net: &Net,
    books: &Books,
    end: &End,
    answers: &mut Answers,
) -> Result<(), Fail> {
    match woven(alloc, net, books)? {
        Ok(events) => {
            assert!(rt; end.left.is_empty(), "{books:?} {events:?} {end:?}");
            are_woven(rt, alloc, net, books, events.as_slice())?;
            answers.woven = answers.woven.saturating_add(1);
        }
        Err(WeaveFault::Mismatch { actor, place }) => {
            let stuck = Some(Stuck { actor, place });
            assert_eq!(rt; stuck, end.mismatch, "{books:?} {end:?}");
            answers.mismatches = answers.mismatches.saturating_add(1);
        }
        Err(WeaveFault::NoOrder(left)) => {
            assert!(rt; !left.is_empty());
            assert_eq!(rt; left.as_slice(), end.left.as_slice(), "{books:?}");
            assert_eq!(rt; end.mismatch, None, "{books:?} {end:?}");
            answers.no_order = answers.no_order.saturating_add(1);
        }
        Err(WeaveFault::Memory) => assert!(rt; false, "out of memory"),
    }
    Ok(())
}
