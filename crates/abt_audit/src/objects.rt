//! Findings, as objects.
ghost use Rattle.std.specs.Prelude.{◌≡◌, IfOk, OnOk, codes};
ghost use Rattle.abt_entry.specs.ObjectMembers.{Adds, Holds, text_member};
ghost use Rattle.abt_text.specs.Text.{◌⋅◌};
ghost use Rattle.abt_audit.specs.Objects as spec;

use crate::naming::cause_text;
use crate::stuck::name_of;
use abt_entry::{begin, end, push_number, push_text};
use abt_journal_text::{Spot, TextFault};
use abt_weave::Actor;
use json::Writer;
use std::alloc::{AllocError, Global};

// Begins an object of a kind behind the octets of a text, which it takes until the object's end.
pub(crate) fn begin_kind(
    alloc: Global,
    text: &mut Vec<u8>,
    kind: &str,
) -> Result<Writer, AllocError>
    ensures { IfOk result (Holds text.old.items (text_member (codes "kind") kind.now)) }
{
    let mut object = begin(alloc, text)?;
    push_text(&mut object, "kind", kind)?;
    Ok(object)
}

// Journals that are woven into so many events, whose trace is safe.
pub(crate) fn woven_object(alloc: Global, events: u64) -> Result<Vec<u8>, AllocError>
    ensures { IfOk result (λ text. text.items ≡ spec.woven_object events) }
{
    let mut text = Vec::new(alloc);
    let mut object = begin_kind(alloc, &mut text, "woven")?;
    push_woven(&mut object, events)?;
    end(object, &mut text)?;
    Ok(text)
}

fn push_woven(object: &mut Writer, events: u64) -> Result<(), AllocError>
    ensures { OnOk result (Adds (spec.woven_members events) object.old object.new) }
{
    push_number(object, "events", events)?;
    object.key("safe")?;
    object.boolean(true)
}

// Adds whose journal something is of.
pub(crate) fn push_actor(object: &mut Writer, actor: Actor) -> Result<(), AllocError>
    ensures { OnOk result (Adds (spec.actor_member actor) object.old object.new) }
{
    match actor {
        Actor::Port(port) => push_number(object, "port", u64::from(port)),
        Actor::Source(source) => push_number(object, "source", u64::from(source)),
    }
}

// The log of a port or a source that obeys in so many entries.
pub(crate) fn obeys_object(alloc: Global, actor: Actor, count: u64) -> Result<Vec<u8>, AllocError>
    ensures { IfOk result (λ text. text.items ≡ spec.obeys_object actor count) }
{
    let mut text = Vec::new(alloc);
    let mut object = begin_kind(alloc, &mut text, "obeys")?;
    push_actor(&mut object, actor)?;
    push_number(&mut object, "entries", count)?;
    end(object, &mut text)?;
    Ok(text)
}

// Adds the object of a line that is cut, and left out.
fn add_note(alloc: Global, text: &mut Vec<u8>, spot: Spot) -> Result<(), AllocError>
    ensures { OnOk result (text.new.items ≡ text.old.items ⋅ spec.note_object spot) }
{
    let mut object = begin_kind(alloc, text, "note")?;
    push_cut(&mut object, spot)?;
    end(object, text)
}

fn push_cut(object: &mut Writer, spot: Spot) -> Result<(), AllocError>
    ensures { OnOk result (Adds (spec.note_members spot) object.old object.new) }
{
    push_text(object, "note", "cut")?;
    push_number(object, "text", spot.text)?;
    push_number(object, "line", spot.line)
}

// Adds the objects of lines that are cut.
pub(crate) fn add_note_objects(
    alloc: Global,
    text: &mut Vec<u8>,
    cuts: &[Spot],
) -> Result<(), AllocError>
    ensures { OnOk result (text.new.items ≡ text.old.items ⋅ spec.note_objects cuts.now) }
{
    for spot in cuts {
        add_note(alloc, text, *spot)?;
    }
    Ok(())
}

// Adds where a line stands.
pub(crate) fn push_spot(object: &mut Writer, names: &[String], spot: Spot) -> Result<(), AllocError>
    ensures { OnOk result (Adds (spec.spot_members names.now spot) object.old object.new) }
{
    push_text(object, "file", name_of(names, spot.text))?;
    push_number(object, "line", spot.line)
}

// A fault of a text.
pub(crate) fn text_object(
    alloc: Global,
    names: &[String],
    why: &TextFault,
) -> Result<Vec<u8>, AllocError>
    ensures { IfOk result (λ text. text.items ≡ spec.text_object names.now why.now) }
{
    let mut text = Vec::new(alloc);
    let mut object = begin_kind(alloc, &mut text, "text")?;
    push_fault(alloc, &mut object, names, why)?;
    end(object, &mut text)?;
    Ok(text)
}

fn push_fault(
    alloc: Global,
    object: &mut Writer,
    names: &[String],
    why: &TextFault,
) -> Result<(), AllocError>
    ensures { OnOk result (Adds (spec.text_members names.now why.now) object.old object.new) }
{
    let cause = cause_text(alloc, why.cause)?;
    push_spot(object, names, why.spot)?;
    push_text(object, "fault", cause.as_str())
}

// There is no text.
pub(crate) fn nothing_object(alloc: Global) -> Result<Vec<u8>, AllocError>
    ensures { IfOk result (λ text. text.items ≡ spec.nothing_object) }
{
    let mut text = Vec::new(alloc);
    let mut object = begin_kind(alloc, &mut text, "fault")?;
    push_text(&mut object, "fault", "Nothing")?;
    end(object, &mut text)?;
    Ok(text)
}

// What the net lacks if it hasn't an actor.
fn absent_name(actor: Actor) -> &'static str
    ensures { result.now ≡ spec.absent_name actor }
{
    match actor {
        Actor::Port(_) => "port",
        Actor::Source(_) => "connection",
    }
}

// The net hasn't the port, or the connection.
pub(crate) fn absent_object(alloc: Global, actor: Actor) -> Result<Vec<u8>, AllocError>
    ensures { IfOk result (λ text. text.items ≡ spec.absent_object actor) }
{
    let mut text = Vec::new(alloc);
    let mut object = begin_kind(alloc, &mut text, "fault")?;
    push_text(&mut object, "fault", absent_name(actor))?;
    push_actor(&mut object, actor)?;
    end(object, &mut text)?;
    Ok(text)
}
