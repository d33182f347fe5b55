//! Entries at which journals are stuck, as objects.
ghost use Rattle.std.specs.Prelude.{◌≡◌, ◌∷◌, ◌++◌, [], IfOk, OnOk, codes, option_map};
ghost use Rattle.json.specs.Print.{print};
ghost use Rattle.json.specs.Token.{key};
ghost use Rattle.abt_entry.specs.ObjectMembers.{Adds, Holds};
ghost use Rattle.abt_text.specs.Text.{◌⋅◌};
ghost use Rattle.abt_audit.specs.EntryObjects as spec;
ghost use Rattle.abt_audit.specs.Objects.{kind_members};

use crate::missing::Missing;
use crate::objects::{begin_kind, push_actor, push_spot};
use crate::stuck::{entry_at, item_at};
use abt_entry::{entry_line, push_number, push_text, step_line};
use abt_journal_text::{Run, Spot};
use abt_weave::{Actor, Stuck};
use json::Writer;
use std::alloc::{AllocError, Global};

// Where an entry stands, and the entry, as it is written.
#[derive(Drop)]
pub(crate) struct Said {
    pub spot: Spot,
    pub entry: Vec<u8>,
}

// Where an actor's entry of a place stands, and what it says.
pub(crate) fn said_at(alloc: Global, run: &Run, stuck: Stuck) -> Result<Option<Said>, AllocError>
    ensures { IfOk result (λ said. option_map spec.said_text said ≡
        option_map spec.printed_at (spec.said_at run.now stuck.actor stuck.place)) }
{
    match stuck.actor {
        Actor::Port(port) => step_said(alloc, run, port, stuck.place),
        Actor::Source(source) => entry_said(alloc, run, source, stuck.place),
    }
}

fn step_said(alloc: Global, run: &Run, port: u16, place: u64) -> Result<Option<Said>, AllocError>
    ensures { IfOk result (λ said. option_map spec.said_text said ≡
        option_map spec.printed_at (spec.said_at run.now (Actor.Port port) place)) }
{
    let Some(spot) = item_at(run.port_spots.as_slice(), port, place) else {
        return Ok(None);
    };
    let Some(step) = item_at(run.journals.ports.as_slice(), port, place) else {
        return Ok(None);
    };
    let entry = step_line(alloc, port, step)?;
    let spot = *spot;
    Ok(Some(Said { spot, entry }))
}

fn entry_said(alloc: Global, run: &Run, source: u16, place: u64) -> Result<Option<Said>, AllocError>
    ensures { IfOk result (λ said. option_map spec.said_text said ≡
        option_map spec.printed_at (spec.said_at run.now (Actor.Source source) place)) }
{
    let Some(spot) = item_at(run.source_spots.as_slice(), source, place) else {
        return Ok(None);
    };
    let Some(deed) = entry_at(run.sources.as_slice(), source, place) else {
        return Ok(None);
    };
    let entry = entry_line(alloc, source, deed)?;
    let spot = *spot;
    Ok(Some(Said { spot, entry }))
}

// Begins the object of an entry behind the octets of a text, which it takes until the object's end.
pub(crate) fn begin_entry(
    alloc: Global,
    text: &mut Vec<u8>,
    kind: &str,
    names: &[String],
    spot: Spot,
    stuck: Stuck,
) -> Result<Writer, AllocError>
    ensures { IfOk result (Holds text.old.items
        (kind_members kind.now (spec.stuck_members names.now spot stuck.actor stuck.place))) }
{
    let mut object = begin_kind(alloc, text, kind)?;
    push_spot(&mut object, names, spot)?;
    push_actor(&mut object, stuck.actor)?;
    push_number(&mut object, "place", stuck.place)?;
    Ok(object)
}

// The words of a reason, without the colon and the space that part it from what stands before it.
fn words_of(reason: &str) -> &str
    ensures { result.now ≡ spec.words_of reason.now }
{
    match reason.strip_prefix(": ") {
        Some(words) => words,
        None => reason,
    }
}

// Adds the line from which on something is so, if there is one.
fn push_since(object: &mut Writer, names: &[String], since: Option<Spot>) -> Result<(), AllocError>
    ensures { OnOk result (Adds (spec.since_members names.now since) object.old object.new) }
{
    let Some(spot) = since else {
        return Ok(());
    };
    object.key("since")?;
    object.begin_object()?;
    push_spot(object, names, spot)?;
    object.end_object()
}

#[tactic(auto, using(crate::proofs::EntryObjects::why_of_some))]
// Adds a reason, if there is one, and the line from which on it is so.
pub(crate) fn push_why(
    object: &mut Writer,
    names: &[String],
    reason: &str,
    since: Option<Spot>,
) -> Result<(), AllocError>
    ensures { OnOk result (Adds (spec.why_members names.now reason.now since) object.old object.new) }
{
    if reason.is_empty() {
        return Ok(());
    }
    push_text(object, "why", words_of(reason))?;
    push_since(object, names, since)
}

// Adds the cell that an entry waits for, and when it may come.
pub(crate) fn push_window(object: &mut Writer, missing: &Missing) -> Result<(), AllocError>
    ensures { OnOk result (Adds (spec.window_members missing.now) object.old object.new) }
{
    match *missing {
        Missing::Cell { cell, from, to, .. } => {
            push_number(object, "cell", cell)?;
            push_number(object, "from", from)?;
            push_number(object, "to", to)
        }
        _ => Ok(()),
    }
}

// Ends the object of an entry: what it says, and what the protocol answers, if that is told.
pub(crate) fn end_entry(
    object: Writer,
    text: &mut Vec<u8>,
    entry: &[u8],
    answer: &Option<Vec<u8>>,
) -> Result<(), AllocError>
    ensures { OnOk result (text.new.items ≡ object.before ⋅ print (object.tokens ++ key (codes "entry") ∷ [])
        ⋅ entry.now ⋅ spec.answer_text (option_map (λ octets. octets.items) answer.now) ⋅ codes "}\n") }
{
    let mut object = object;
    object.key("entry")?;
    let mut octets = object.into_inner();
    octets.extend_from_slice(entry)?;
    push_answer(&mut octets, answer)?;
    octets.extend_from_slice(b"}\n")?;
    *text = octets;
    Ok(())
}

// Adds what the protocol answers, if that is told.
fn push_answer(octets: &mut Vec<u8>, answer: &Option<Vec<u8>>) -> Result<(), AllocError>
    ensures { OnOk result (octets.new.items ≡ octets.old.items
        ⋅ spec.answer_text (option_map (λ octets. octets.items) answer.now)) }
{
    let Some(answer) = answer else {
        return Ok(());
    };
    octets.extend_from_slice(b",\"protocol\":")?;
    Ok(octets.extend_from_slice(answer.as_slice())?)
}
