//! Large journals with one thing changed: weaving answers what another order of placing them ends with.
use super::books::{count, project};
use super::edits::changed;
use super::ends::some_end;
use super::judge::{Answers, NONE, answers_as};
use abt_walk::drawn::generated;
use abt_walk::draws::Draws;
use abt_walk::nets::{crossing, lone, shared};
use abt_world::Net;
use std::alloc::Global;
use std::process::Abort;
use std::test::Fail;

/// How many lists of events there are of a net, and how often the journals of each are changed.
const LISTS: u64 = 17;

const CHANGES: u64 = 6;

/// The events of a list.
const EVENTS: u64 = 60;

fn are_answered(rt: &impl Abort, alloc: Global, net: &Net, first: u64) -> Result<Answers, Fail> {
    let mut answers = NONE;
    for list in 0..LISTS {
        let seed = first.saturating_add(list);
        let mut draws = Draws::new(seed);
        let walked = generated(alloc, net, seed, EVENTS)?;
        let books = project(alloc, net, walked.events.as_slice())?;
        for _ in 0..CHANGES {
            let other = changed(alloc, &books, count(&books), &mut draws)?;
            let end = some_end(alloc, net, &other, seed)?;
            answers_as(rt, alloc, net, &other, &end, &mut answers)?;
        }
    }
    Ok(answers)
}

fn come_all(rt: &impl Abort, answers: &Answers) {
    assert!(rt; answers.no_order > 0, "{answers:?}");
    assert!(rt; answers.mismatches > 0, "{answers:?}");
}

#[test]
fn large_journals_of_one_port_are_answered_as_another_order_ends(
    rt: HostRuntime,
) -> Result<(), Fail> {
    let net = lone(rt.alloc())?;
    come_all(&rt, &are_answered(&rt, rt.alloc(), &net, 3001)?);
    Ok(())
}

#[test]
fn large_journals_of_a_shared_port_are_answered_as_another_order_ends(
    rt: HostRuntime,
) -> Result<(), Fail> {
    let net = shared(rt.alloc())?;
    come_all(&rt, &are_answered(&rt, rt.alloc(), &net, 4001)?);
    Ok(())
}

#[test]
fn large_journals_of_crossing_paths_are_answered_as_another_order_ends(
    rt: HostRuntime,
) -> Result<(), Fail> {
    let net = crossing(rt.alloc())?;
    come_all(&rt, &are_answered(&rt, rt.alloc(), &net, 5001)?);
    Ok(())
}
