//! The lines in which the events of a scenario stand.
ghost use Rattle.std.specs.Prelude.{IfOk, IfSome, IsTrue, ◌≡◌, drop, true, Some};
ghost use Rattle.toml_parser.specs.Strings.{starts_string};
ghost use Rattle.abt_format.specs.EventTexts.{event_of};
ghost use Rattle.abt_places.specs.Placed.{AreLinesOf, BeginsWith, SayEvents, SaysAt};

use crate::{Layout, layout_of, lines_at};
use abt_format::event_of;
use abt_model::Event;
use std::alloc::{AllocError, Global};
use toml_parser::{ParseError, quoted, starts_string};

/// The lines in which the events of a scenario's text stand, counted from 1; none of them if an event isn't found in the text.
///
/// # Errors
/// If memory is refused.
pub fn event_lines(alloc: Global, text: &str, events: &[Event]) -> Result<Vec<u64>, AllocError>
    ensures { IfOk result (λ lines. AreLinesOf text.now events.now lines.items) }
{
    let layout = layout_of(alloc, text, "connection")?;
    let places = places_in(&layout);
    if say_events(alloc, text, places, events)? {
        lines_at(alloc, text, places)
    } else {
        Ok(Vec::new(alloc))
    }
}

// Where the events of a document stand.
fn places_in(layout: &Layout) -> &[usize] {
    match layout.entry("events") {
        Some(entry) => entry.items.as_slice(),
        None => &[],
    }
}

// Whether these events are said at these places of a text, one at each.
fn say_events(
    alloc: Global,
    text: &str,
    places: &[usize],
    events: &[Event],
) -> Result<bool, AllocError>
    ensures { IfOk result (λ all. IsTrue all → SayEvents text.now places.now events.now) }
{
    if places.len() != events.len() {
        return Ok(false);
    }
    for index in 0..places.len() {
        if !says_at(alloc, text, places[index], &events[index])? {
            return Ok(false);
        }
    }
    Ok(true)
}

// Whether a TOML string begins at a place of a text, and says this event.
fn says_at(alloc: Global, text: &str, at: usize, event: &Event) -> Result<bool, AllocError>
    ensures { IfOk result (λ says. IsTrue says → SaysAt text.now event.now at) }
{
    match behind(text, at) {
        Some(start) if starts_string(start) => begins_with(alloc, start, event),
        _ => Ok(false),
    }
}

// Whether a text begins with a TOML string that says this event.
fn begins_with(alloc: Global, text: &str, event: &Event) -> Result<bool, AllocError>
    requires { starts_string text.now ≡ true }
    ensures { IfOk result (λ says. IsTrue says → BeginsWith event.now text.now) }
{
    match quoted(alloc, text) {
        Ok((said, _)) => Ok(is_event(said.as_str(), event)),
        Err(ParseError::OutOfMemory) => Err(AllocError),
        Err(_) => Ok(false),
    }
}

// Whether a text is that of an event.
fn is_event(text: &str, event: &Event) -> bool
    ensures { IsTrue result → event_of text.now ≡ Some event.now }
{
    match event_of(text) {
        Some(said) => said == *event,
        None => false,
    }
}

// What stands behind so many octets of a text, unless a character is cut.
fn behind(text: &str, at: usize) -> Option<&str>
    ensures { IfSome result (λ rest. rest.now ≡ drop at text.now) }
{
    text.get(at..)
}
