//! The entries in no order, and what they wait for.
ghost use Rattle.std.specs.Prelude.{◌≡◌, List, IfOk, OnOk};
ghost use Rattle.abt_model.specs.Run.{facts_after};
ghost use Rattle.abt_model.specs.declared.event.Event.{Event as EventSpec};
ghost use Rattle.abt_text.specs.Text.{◌⋅◌};
ghost use Rattle.abt_audit.specs.Parts.{IsSizedRun};
ghost use Rattle.abt_audit.specs.Standing.{Stands};
ghost use Rattle.abt_audit.specs.Waits as spec;
ghost use Rattle.abt_audit.specs.Waits.{IsWaitingText};

use crate::entry_object::{begin_entry, end_entry, push_why, push_window, said_at};
use crate::form::Form;
use crate::missing::Missing;
use crate::parting::weave_part;
use crate::reason_lines::why_line;
use crate::standing::{Standing, stand_after};
use crate::stuck::add_stuck;
use crate::waiting::missing_of;
use crate::wording::waits_words;
use abt_journal_text::Run;
use abt_model::Event;
use abt_weave::Stuck;
use std::alloc::{AllocError, Global};

// Adds the line of an entry at which a journal is stuck, and what it waits for.
fn add_line(
    alloc: Global,
    text: &mut Vec<u8>,
    names: &[String],
    run: &Run,
    stuck: Stuck,
    missing: Missing,
) -> Result<(), AllocError>
    ensures { OnOk result (text.new.items ≡
        text.old.items ⋅ spec.waiting_line names.now run.now stuck missing) }
{
    add_stuck(alloc, text, names, run, stuck)?;
    let words = waits_words(alloc, names, missing)?;
    let line = why_line(alloc, words.as_str(), "")?;
    Ok(text.extend_from_slice(line.as_slice())?)
}

// Adds the object of an entry at which a journal is stuck, with what it waits for.
fn add_object(
    alloc: Global,
    text: &mut Vec<u8>,
    names: &[String],
    run: &Run,
    stuck: Stuck,
    missing: &Missing,
) -> Result<(), AllocError>
    ensures { OnOk result (text.new.items ≡
        text.old.items ⋅ spec.waiting_object names.now run.now stuck missing.now) }
{
    let words = waits_words(alloc, names, *missing)?;
    let Some(said) = said_at(alloc, run, stuck)? else {
        return Ok(());
    };
    let mut object = begin_entry(alloc, text, "stuck", names, said.spot, stuck)?;
    push_why(&mut object, names, words.as_str(), None)?;
    push_window(&mut object, missing)?;
    end_entry(object, text, said.entry.as_slice(), &None)
}

// Adds an entry at which a journal is stuck, and what it waits for.
fn add_waiting(
    alloc: Global,
    form: Form,
    text: &mut Vec<u8>,
    names: &[String],
    run: &Run,
    standing: &Standing<'_>,
    stuck: Stuck,
) -> Result<(), AllocError>
    ensures { (events : List EventSpec) →
        Stands run.now.net events standing.now.world standing.now.sightings →
        OnOk result (text.new.items ≡
        text.old.items ⋅ spec.waiting_text form names.now run.now (facts_after run.now.net events) stuck) }
{
    let missing = missing_of(run, standing, stuck);
    match form {
        Form::Words => add_line(alloc, text, names, run, stuck, missing),
        Form::Json => add_object(alloc, text, names, run, stuck, &missing),
    }
}

// Entries, each with what it waits for after these events.
fn waiting_texts(
    alloc: Global,
    form: Form,
    names: &[String],
    run: &Run,
    events: &[Event],
    all: &[Stuck],
) -> Result<Vec<u8>, AllocError>
    ensures { IfOk result (λ text. text.items ≡
        spec.waiting_texts form names.now run.now (facts_after run.now.net events.now) all.now) }
{
    let standing = stand_after(alloc, &run.net, events)?;
    let mut text = Vec::new(alloc);
    for stuck in all {
        add_waiting(alloc, form, &mut text, names, run, &standing, *stuck)?;
    }
    Ok(text)
}

// The entries in no order, each with what it waits for after the events before them.
pub(crate) fn waiting_text(
    alloc: Global,
    form: Form,
    names: &[String],
    run: &Run,
    all: &[Stuck],
) -> Result<Vec<u8>, AllocError>
    requires { IsSizedRun run.now }
    ensures { IfOk result (λ text. IsWaitingText form names.now run.now all.now text.items) }
{
    let part = weave_part(alloc, run)?;
    waiting_texts(alloc, form, names, run, part.events.as_slice(), all)
}
