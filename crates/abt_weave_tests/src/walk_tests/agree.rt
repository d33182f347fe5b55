//! Journals as they are, and with one entry changed, dropped, doubled or swapped: the queue answers as passes over all actors end.
use super::books::{count, project};
use super::edits::changed;
use super::judge::{Answers, NONE, answers_as};
use super::passes::end_of_passes;
use abt_walk::drawn::generated;
use abt_walk::draws::Draws;
use abt_walk::nets::{crossing, lone, shared};
use abt_world::Net;
use std::alloc::Global;
use std::process::Abort;
use std::test::Fail;

/// How many lists of events there are of a net, and how often the journals of each are changed.
const LISTS: u64 = 170;

const CHANGES: u64 = 3;

/// The events of a list.
const EVENTS: u64 = 80;

// Demands that weaving answers as the passes end, of journals as they are and changed, in lists from a seed on.
fn all_agree(rt: &impl Abort, alloc: Global, net: &Net, first: u64) -> Result<(), Fail> {
    let mut answers = NONE;
    for list in 0..LISTS {
        let seed = first.saturating_add(list);
        let mut draws = Draws::new(seed);
        let walked = generated(alloc, net, seed, EVENTS)?;
        let mut books = project(alloc, net, walked.events.as_slice())?;
        for change in 0..=CHANGES {
            if change > 0 {
                let whole = project(alloc, net, walked.events.as_slice())?;
                books = changed(alloc, &whole, count(&whole), &mut draws)?;
            }
            match end_of_passes(alloc, net, &books)? {
                Some(end) => answers_as(rt, alloc, net, &books, &end, &mut answers)?,
                None => assert!(rt; false, "the passes go on: {books:?}"),
            }
        }
    }
    come_all(rt, &answers);
    Ok(())
}

// Demands that each kind of answer came often.
fn come_all(rt: &impl Abort, answers: &Answers) {
    assert!(rt; answers.woven >= LISTS, "{answers:?}");
    assert!(rt; answers.no_order > LISTS / 2, "{answers:?}");
    assert!(rt; answers.mismatches > LISTS / 4, "{answers:?}");
}

#[test]
fn journals_of_one_port_are_answered_as_passes_end(rt: HostRuntime) -> Result<(), Fail> {
    all_agree(&rt, rt.alloc(), &lone(rt.alloc())?, 6001)
}

#[test]
fn journals_of_a_shared_port_are_answered_as_passes_end(rt: HostRuntime) -> Result<(), Fail> {
    all_agree(&rt, rt.alloc(), &shared(rt.alloc())?, 7001)
}

#[test]
fn journals_of_crossing_paths_are_answered_as_passes_end(rt: HostRuntime) -> Result<(), Fail> {
    all_agree(&rt, rt.alloc(), &crossing(rt.alloc())?, 8001)
}
