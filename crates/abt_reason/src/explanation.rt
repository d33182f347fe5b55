//! Explanations of runs.
ghost use Rattle.std.specs.Prelude.{◌≡◌, ◌++◌, IfOk, OnOk, slice_get, string_bytes};
ghost use Rattle.abt_reason.specs.Explanation as spec;

use crate::ending::push_ending;
use crate::grounds::{Grounds, grounds_of};
use crate::reason::push_reason;
use crate::sightings::Sightings;
use abt_format::{push_event, push_outcome};
use abt_model::Sequence;
use abt_net::Net;
use abt_node::Onward;
use abt_world::{Event, Outcome, World};
use std::alloc::{AllocError, Global};

/// The explanation of a run of events over a net to which nothing happened before (docs/EXPLAIN.md): a line for each event, with its
/// text, what comes of it and why, and then who holds what. If `places` has one for it, the event's line in its file stands beside its
/// number.
///
/// # Errors
/// If memory is refused.
pub fn explanation_of(
    alloc: Global,
    net: &Net,
    events: &[Event],
    places: &[u64],
) -> Result<String, AllocError>
    ensures { IfOk result (λ text. spec.IsExplanation net.now places.now events.now (string_bytes text)) }
{
    // Names a type within an outcome, without which the checker can't follow one round the loop.
    let _ = Onward::Pass;
    let mut world = World::new(alloc, net)?;
    let mut sightings = Sightings::new(alloc);
    let mut outcomes = Sequence::with_room(alloc, events.len())?;
    let mut text = String::new(alloc);
    for (index, event) in events.iter().enumerate() {
        let grounds = grounds_of(&world, &sightings, net, event);
        let outcome = world.step(event)?;
        sightings.note(net, event, &outcome)?;
        push_told(
            alloc,
            &mut text,
            index as u64 + 1,
            place_at(places, index),
            event,
            &grounds,
            &outcome,
        )?;
        outcomes.push(outcome)?;
    }
    let trace = world.end(alloc, outcomes)?;
    push_ending(alloc, &mut text, net, &trace)?;
    Ok(text)
}

// The line of an event.
fn push_told(
    alloc: Global,
    text: &mut String,
    number: u64,
    place: Option<u64>,
    event: &Event,
    grounds: &Grounds,
    outcome: &Outcome,
) -> Result<(), AllocError>
    ensures { OnOk result (string_bytes text.new ≡ string_bytes text.old ++
        spec.told_text number place event.now grounds.now outcome.now) }
{
    let place = place_text(alloc, place)?;
    let mut said = String::new(alloc);
    push_event(&mut said, event)?;
    let mut answer = String::new(alloc);
    push_outcome(&mut answer, outcome)?;
    push_reason(alloc, &mut answer, grounds, outcome)?;
    write!(text, "{number}{place} {said}: {answer}\n")
}

// The line of a file in which an event stands, if it is known.
fn place_text(alloc: Global, place: Option<u64>) -> Result<String, AllocError>
    ensures { IfOk result (λ text. string_bytes text ≡ spec.place_text place) }
{
    match place {
        Some(line) => format!(in alloc; " line {line}"),
        None => Ok(String::new(alloc)),
    }
}

// The line of an event in its file, if it is known.
fn place_at(places: &[u64], index: usize) -> Option<u64>
    ensures { result ≡ slice_get places.now index }
{
    places.get(index).copied()
}
