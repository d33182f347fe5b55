//! Asks for rate 0 that a text writes by another code than 0000.
ghost use Rattle.std.specs.Prelude.{◌≡◌, ◌++◌, IfOk, IfSome, IfNone, OnOk, option_map, string_bytes, drop, true};
ghost use Rattle.toml_parser.specs.Strings.{starts_string};
ghost use Rattle.abt_format.specs.EventText.{event_text};
ghost use Rattle.abt_explain.specs.Written as spec;
ghost use Rattle.abt_explain.specs.Written.{AddsWritten};

use abt_format::push_event;
use abt_model::Event;
use abt_places::{Layout, layout_of};
use std::alloc::{AllocError, Global};
use toml_parser::{ParseError, quoted, starts_string};

/// Adds a line for each ask for rate 0 that the text of its scenario writes by another code than 0000.
///
/// # Errors
/// If memory is refused.
pub(crate) fn push_written(
    alloc: Global,
    out: &mut String,
    source: &str,
    events: &[Event],
) -> Result<(), AllocError>
    ensures { OnOk result (AddsWritten source.now events.now (string_bytes out.old) (string_bytes out.new)) }
{
    let layout = layout_of(alloc, source, "connection")?;
    push_lines(alloc, out, source, places_in(&layout), events)
}

// Where the events of a document stand.
fn places_in(layout: &Layout) -> &[usize] {
    match layout.entry("events") {
        Some(entry) => entry.items.as_slice(),
        None => &[],
    }
}

// Adds the lines of events that stand at these places.
fn push_lines(
    alloc: Global,
    out: &mut String,
    source: &str,
    places: &[usize],
    events: &[Event],
) -> Result<(), AllocError>
    ensures { OnOk result (string_bytes out.new ≡ string_bytes out.old ++
        spec.lines_from source.now 1 places.now events.now) }
{
    for index in 0..places.len().min(events.len()) {
        let number = index as u64 + 1;
        push_line(alloc, out, source, number, &events[index], places[index])?;
    }
    Ok(())
}

// Adds the line of an event that stands at a place, if it asks for rate 0 by another code.
fn push_line(
    alloc: Global,
    out: &mut String,
    source: &str,
    number: u64,
    event: &Event,
    at: usize,
) -> Result<(), AllocError>
    ensures { OnOk result (string_bytes out.new ≡ string_bytes out.old ++
        spec.line_at source.now number event.now at) }
{
    if !is_zero_ask(event) {
        return Ok(());
    }
    let Some(start) = source.get(at..) else {
        return Ok(());
    };
    match said_in(alloc, start)? {
        Some(said) => push_if_other(alloc, out, number, event, said.as_str()),
        None => Ok(()),
    }
}

fn is_zero_ask(event: &Event) -> bool
    ensures { result ≡ spec.is_zero_ask event.now }
{
    match *event {
        Event::Ask { rate, .. } => rate.units() == 0,
        _ => false,
    }
}

// The TOML string with which a text begins, if it begins with one.
fn said_in(alloc: Global, text: &str) -> Result<Option<String>, AllocError>
    ensures { IfOk result (λ said. option_map string_bytes said ≡ spec.said_in text.now) }
{
    if !starts_string(text) {
        return Ok(None);
    }
    match quoted(alloc, text) {
        Ok((said, _)) => Ok(Some(said)),
        Err(ParseError::OutOfMemory) => Err(AllocError),
        Err(_) => Ok(None),
    }
}

// Adds the line of an event, if it isn't written as it is told.
fn push_if_other(
    alloc: Global,
    out: &mut String,
    number: u64,
    event: &Event,
    said: &str,
) -> Result<(), AllocError>
    ensures { OnOk result (string_bytes out.new ≡ string_bytes out.old ++
        spec.line_if_said number event.now said.now) }
{
    let mut told = String::new(alloc);
    push_event(&mut told, event)?;
    if said == told.as_str() {
        return Ok(());
    }
    push_said(out, number, said)
}

// Adds the line of an event that is written so.
fn push_said(out: &mut String, number: u64, said: &str) -> Result<(), AllocError>
    ensures { OnOk result (string_bytes out.new ≡ string_bytes out.old ++ spec.line_of number said.now) }
{
    write!(
        out,
        "{number} is written \"{said}\": that code is rate 0, as 0000 is\n"
    )
}
