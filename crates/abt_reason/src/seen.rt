//! Where messages lie, in words.
ghost use Rattle.std.specs.Prelude.{◌≡◌, ◌++◌, OnOk, string_bytes};
ghost use Rattle.abt_reason.specs.Reasons as spec;

use crate::sighting::Sighting;
use abt_format::push_event;
use abt_model::Event;
use std::alloc::{AllocError, Global};

// Where the message of a number lies, and what comes next of it.
pub(crate) fn push_sighting(
    alloc: Global,
    text: &mut String,
    seq: u32,
    sighting: Option<Sighting>,
) -> Result<(), AllocError>
    ensures { OnOk result (string_bytes text.new ≡ string_bytes text.old ++
        spec.sighting_text seq sighting) }
{
    match sighting {
        Some(Sighting { next, .. }) => push_seen(alloc, text, &next),
        None => push_unseen(text, seq),
    }
}

// A message that was never sent.
fn push_unseen(text: &mut String, seq: u32) -> Result<(), AllocError>
    ensures { OnOk result (string_bytes text.new ≡ string_bytes text.old ++ spec.unseen_text seq) }
{
    write!(text, ": no message with number {seq} lies at any hop")
}

// Where the message lies that an event takes on.
fn push_seen(alloc: Global, text: &mut String, next: &Event) -> Result<(), AllocError>
    ensures { OnOk result (string_bytes text.new ≡ string_bytes text.old ++ spec.seen_text next.now) }
{
    let mut lies = String::new(alloc);
    push_lies(&mut lies, next)?;
    let mut said = String::new(alloc);
    push_event(&mut said, next)?;
    write!(text, ": {lies}: `{said}` comes next")
}

// The message that an event takes on, and where it lies.
fn push_lies(text: &mut String, event: &Event) -> Result<(), AllocError>
    ensures { OnOk result (string_bytes text.new ≡ string_bytes text.old ++ spec.lies_text event.now) }
{
    match *event {
        Event::Request { hop, seq, .. } => write!(text, "request {seq} lies at hop {hop}"),
        Event::Turn { seq, .. } => write!(text, "request {seq} lies at the end of the path"),
        Event::Answer {
            hop,
            seq,
            granted,
            ..
        } => {
            let verdict = verdict_text(granted);
            write!(text, "{verdict}{seq} lies at hop {hop}")
        }
        Event::Told { seq, granted, .. } => {
            let verdict = verdict_text(granted);
            write!(text, "{verdict}{seq} lies at its source")
        }
        Event::Start { .. }
        | Event::Ask { .. }
        | Event::Again { .. }
        | Event::Crash { .. }
        | Event::Emit { .. }
        | Event::Arrive { .. }
        | Event::Capacity { .. } => Ok(()),
    }
}

// What an answer says.
fn verdict_text(granted: bool) -> &'static str
    ensures { result.now ≡ spec.verdict_text granted }
{
    if granted { "yes " } else { "no " }
}
