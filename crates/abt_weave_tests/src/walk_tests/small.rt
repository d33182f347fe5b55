//! Small journals, as they are and with one thing changed: every order of their entries is tried.
use super::books::{Books, count, project};
use super::edits::changed;
use super::ends::some_end;
use super::judge::{Answers, NONE, answers_as};
use super::search::search;
use abt_node::Onward;
use abt_walk::drawn::generated;
use abt_walk::draws::Draws;
use abt_walk::nets::{crossing, lone, shared};
use abt_world::{Event, Net};
use std::alloc::{AllocError, Global};
use std::process::Abort;
use std::test::Fail;

/// How many lists of events there are of a net, and how often the journals of each are changed.
const LISTS: u64 = 40;

const CHANGES: u64 = 10;

// The journals of as many of these events as have so many entries at most.
fn beginning(
    alloc: Global,
    net: &Net,
    events: &[Event],
    entries: usize,
) -> Result<Books, AllocError> {
    // Names a type within an outcome, without which the checker can't follow one.
    let _ = Onward::Pass;
    let mut last = project(alloc, net, &[])?;
    for end in 1..=events.len() {
        let books = project(alloc, net, events.get(..end).unwrap_or(&[]))?;
        if count(&books) > entries {
            break;
        }
        last = books;
    }
    Ok(last)
}

// Demands that all orders end alike, and that weaving answers what they say.
fn is_answered(
    rt: &impl Abort,
    alloc: Global,
    net: &Net,
    books: &Books,
    answers: &mut Answers,
) -> Result<(), Fail> {
    let found = search(alloc, net, books)?;
    assert!(rt; found.whole, "{books:?}");
    assert_eq!(rt; found.ends.len(), 1, "{found:?} {books:?}");
    for end in &found.ends {
        assert_eq!(rt; *end, some_end(alloc, net, books, 1)?, "{books:?}");
        answers_as(rt, alloc, net, books, end, answers)?;
    }
    Ok(())
}

// Lists from a seed on, each cut to so many entries at most.
fn are_answered(
    rt: &impl Abort,
    alloc: Global,
    net: &Net,
    first: u64,
    entries: usize,
) -> Result<Answers, Fail> {
    let mut answers = NONE;
    for list in 0..LISTS {
        let seed = first.saturating_add(list);
        let mut draws = Draws::new(seed);
        let walked = generated(alloc, net, seed, 40)?;
        let books = beginning(alloc, net, walked.events.as_slice(), entries)?;
        is_answered(rt, alloc, net, &books, &mut answers)?;
        for _ in 0..CHANGES {
            let other = changed(alloc, &books, count(&books), &mut draws)?;
            is_answered(rt, alloc, net, &other, &mut answers)?;
        }
    }
    Ok(answers)
}

// Demands that each kind of answer came often.
fn come_all(rt: &impl Abort, answers: &Answers) {
    assert!(rt; answers.woven > LISTS, "{answers:?}");
    assert!(rt; answers.no_order > LISTS, "{answers:?}");
    assert!(rt; answers.mismatches > LISTS, "{answers:?}");
}

#[test]
fn small_journals_of_one_port_are_answered_as_a_search_finds(rt: HostRuntime) -> Result<(), Fail> {
    let net = lone(rt.alloc())?;
    come_all(&rt, &are_answered(&rt, rt.alloc(), &net, 1, 8)?);
    Ok(())
}

#[test]
fn small_journals_of_a_shared_port_are_answered_as_a_search_finds(
    rt: HostRuntime,
) -> Result<(), Fail> {
    let net = shared(rt.alloc())?;
    come_all(&rt, &are_answered(&rt, rt.alloc(), &net, 1001, 8)?);
    Ok(())
}

#[test]
fn small_journals_of_crossing_paths_are_answered_as_a_search_finds(
    rt: HostRuntime,
) -> Result<(), Fail> {
    let net = crossing(rt.alloc())?;
    come_all(&rt, &are_answered(&rt, rt.alloc(), &net, 2001, 6)?);
    Ok(())
}
