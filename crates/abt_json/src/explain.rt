//! Explanations of runs, an object a line.
ghost use Rattle.std.specs.Prelude.{◌≡◌, ◌++◌, IfOk, OnOk, slice_get};
ghost use Rattle.abt_entry.specs.ObjectMembers.{Adds};
ghost use Rattle.abt_json.specs.Explained as spec;

use crate::object::begin_kind_behind;
use crate::outcome::push_outcome;
use crate::report::push_end;
use abt_entry::{end, push_number, push_text};
use abt_format as report;
use abt_format::push_event;
use abt_model::{Cause, Sequence};
use abt_net::Net;
use abt_node::Onward;
use abt_reason::{Grounds, Sighting, Sightings, Sought, grounds_of, push_reason};
use abt_world::{Event, Outcome, World};
use json::Writer;
use std::alloc::{AllocError, Global};

/// The explanation of a run of events over a net to which nothing happened before (docs/EXPLAIN.md), an object a
/// line: each event with its text, its outcome, and the outcome in words with its reason; then each connection, each
/// port, and whether all that is safe.
///
/// # Errors
/// If memory is refused.
pub fn explanation_json(
    alloc: Global,
    net: &Net,
    events: &[Event],
    lines: &[u64],
) -> Result<Vec<u8>, AllocError>
    ensures { IfOk result (λ text. spec.IsExplainedJson net.now lines.now events.now text.items) }
{
    // Names a type within an outcome, without which the checker can't follow one round the loop.
    let _ = Onward::Pass;
    let mut world = World::new(alloc, net)?;
    let mut sightings = Sightings::new(alloc);
    let mut outcomes = Sequence::with_room(alloc, events.len())?;
    let mut text = Vec::new(alloc);
    for (index, event) in events.iter().enumerate() {
        let grounds = grounds_of(&world, &sightings, net, event);
        let outcome = world.step(event)?;
        sightings.note(net, event, &outcome)?;
        push_event_object(
            alloc,
            &mut text,
            index as u64 + 1,
            line_at(lines, index),
            event,
            &grounds,
            &outcome,
        )?;
        outcomes.push(outcome)?;
    }
    let trace = world.end(alloc, outcomes)?;
    push_end(alloc, &mut text, &trace)?;
    Ok(text)
}

// The object of an event.
fn push_event_object(
    alloc: Global,
    text: &mut Vec<u8>,
    number: u64,
    line: Option<u64>,
    event: &Event,
    grounds: &Grounds,
    outcome: &Outcome,
) -> Result<(), AllocError>
    ensures { OnOk result
        (text.new.items ≡ text.old.items ++
        spec.explained_object number line event.now grounds.now outcome.now) }
{
    // By itself, as a line of a report.
    let mut said = Vec::with_capacity(alloc, 256)?;
    let mut object = begin_kind_behind(alloc, &mut said, "event")?;
    push_explained(alloc, &mut object, number, line, event, grounds, outcome)?;
    end(object, &mut said)?;
    text.extend_from_slice(said.as_slice())
}

/// Adds what an explanation says of an event (docs/FORMATS.md, "JSON"): its number, its line, if it is known, its text, its outcome, where
/// the message lies that it looked for in vain, and the outcome in words with its reason.
///
/// # Errors
/// If memory is refused.
pub fn push_explained(
    alloc: Global,
    object: &mut Writer,
    number: u64,
    line: Option<u64>,
    event: &Event,
    grounds: &Grounds,
    outcome: &Outcome,
) -> Result<(), AllocError>
    ensures { OnOk result
        (Adds (spec.explained_members number line event.now grounds.now outcome.now) object.old object.new) }
{
    let mut said = String::new(alloc);
    push_event(&mut said, event)?;
    let mut words = String::new(alloc);
    report::push_outcome(&mut words, outcome)?;
    push_reason(alloc, &mut words, grounds, outcome)?;
    push_number(object, "event", number)?;
    push_line(object, line)?;
    push_text(object, "text", said.as_str())?;
    push_outcome(alloc, object, outcome)?;
    push_sought(alloc, object, grounds.sought, outcome)?;
    push_text(object, "words", words.as_str())
}

// Adds where the message lies that wasn't where an event looked for it.
fn push_sought(
    alloc: Global,
    object: &mut Writer,
    sought: Option<Sought>,
    outcome: &Outcome,
) -> Result<(), AllocError>
    ensures { OnOk result (Adds (spec.sought_members sought outcome.now) object.old object.new) }
{
    match (sought, *outcome) {
        (Some(Sought { sighting, .. }), Outcome::NotEnabled(Cause::NotSent)) => {
            push_sighting(alloc, object, sighting)
        }
        _ => Ok(()),
    }
}

// Adds where a message lies, and the text of the event that takes it on from there.
fn push_sighting(
    alloc: Global,
    object: &mut Writer,
    sighting: Option<Sighting>,
) -> Result<(), AllocError>
    ensures { OnOk result (Adds (spec.sighting_members sighting) object.old object.new) }
{
    match sighting {
        Some(Sighting { at, next }) => push_lies(alloc, object, at, &next),
        None => Ok(()),
    }
}

// Adds the hop at which a message lies, and the text of the event that takes it on from there.
fn push_lies(alloc: Global, object: &mut Writer, at: u32, next: &Event) -> Result<(), AllocError>
    ensures { OnOk result (Adds (spec.lies_members at next.now) object.old object.new) }
{
    let mut said = String::new(alloc);
    push_event(&mut said, next)?;
    push_number(object, "lies_at", u64::from(at))?;
    push_text(object, "comes_next", said.as_str())
}

// Adds the line of an event, if it is known.
fn push_line(object: &mut Writer, line: Option<u64>) -> Result<(), AllocError>
    ensures { OnOk result (Adds (spec.line_members line) object.old object.new) }
{
    match line {
        Some(line) => push_number(object, "line", line),
        None => Ok(()),
    }
}

// The line of an event in its file, if it is known.
fn line_at(lines: &[u64], index: usize) -> Option<u64>
    ensures { result ≡ slice_get lines.now index }
{
    lines.get(index).copied()
}
