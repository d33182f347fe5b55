//! Answers as objects.
ghost use Rattle.std.specs.Prelude.{◌≡◌, OnOk, string_bytes};
ghost use Rattle.abt_entry.specs.ObjectMembers.{Adds};
ghost use Rattle.abt_text.specs.Text.{◌⋅◌};
ghost use Rattle.abt_step.specs.AnswerObjects as spec;

use crate::asked::AskedFault;
use crate::net_state::NetState;
use crate::possible::Possible;
use crate::possible_members::push_possible_members;
use crate::reason_numbers::push_why;
use crate::shown::Shown;
use crate::state_members::push_state_members;
use abt_entry::push_text;
use abt_json::{begin_kind, end_line, push_explained};
use abt_model::{Event, Outcome};
use abt_reason::Grounds;
use json::Writer;
use std::alloc::{AllocError, Global};

// Adds the object of an event, with what is shown behind it.
pub(crate) fn push_event_object(
    alloc: Global,
    text: &mut String,
    number: u64,
    event: &Event,
    grounds: &Grounds,
    outcome: &Outcome,
    shown: &Shown,
) -> Result<(), AllocError>
    ensures { OnOk result (string_bytes text.new ≡ string_bytes text.old
        ⋅ spec.event_object number event.now grounds.now outcome.now shown.now) }
{
    let mut object = begin_kind(alloc, "event")?;
    push_event_members(alloc, &mut object, number, event, grounds, outcome)?;
    push_shown(alloc, &mut object, shown)?;
    end_line(object, text)
}

fn push_event_members(
    alloc: Global,
    object: &mut Writer,
    number: u64,
    event: &Event,
    grounds: &Grounds,
    outcome: &Outcome,
) -> Result<(), AllocError>
    ensures { OnOk result (Adds (spec.event_members number event.now grounds.now outcome.now)
        object.old object.new) }
{
    push_explained(alloc, object, number, None, event, grounds, outcome)?;
    push_why(object, &grounds.numbers, outcome)
}

// Adds the members of what is shown behind an answer.
fn push_shown(alloc: Global, object: &mut Writer, shown: &Shown) -> Result<(), AllocError>
    ensures { OnOk result (Adds (spec.shown_members shown.now) object.old object.new) }
{
    push_state_shown(alloc, object, &shown.state)?;
    push_possible_shown(alloc, object, &shown.possible)
}

fn push_state_shown(
    alloc: Global,
    object: &mut Writer,
    state: &Option<NetState>,
) -> Result<(), AllocError>
    ensures { OnOk result (Adds (spec.state_shown state.now) object.old object.new) }
{
    match state {
        Some(state) => push_state_members(alloc, object, state),
        None => Ok(()),
    }
}

fn push_possible_shown(
    alloc: Global,
    object: &mut Writer,
    possible: &Option<Possible>,
) -> Result<(), AllocError>
    ensures { OnOk result (Adds (spec.possible_shown possible.now) object.old object.new) }
{
    match possible {
        Some(possible) => push_possible_members(alloc, object, possible),
        None => Ok(()),
    }
}

// Adds the object of a new beginning, with what is shown behind it.
pub(crate) fn push_reset_object(
    alloc: Global,
    text: &mut String,
    shown: &Shown,
) -> Result<(), AllocError>
    ensures { OnOk result
        (string_bytes text.new ≡ string_bytes text.old ⋅ spec.reset_object shown.now) }
{
    let mut object = begin_kind(alloc, "reset")?;
    push_shown(alloc, &mut object, shown)?;
    end_line(object, text)
}

// Adds the object of what can happen next.
pub(crate) fn push_possible_object(
    alloc: Global,
    text: &mut String,
    possible: &Possible,
) -> Result<(), AllocError>
    ensures { OnOk result
        (string_bytes text.new ≡ string_bytes text.old ⋅ spec.possible_object possible.now) }
{
    let mut object = begin_kind(alloc, "possible")?;
    push_possible_members(alloc, &mut object, possible)?;
    end_line(object, text)
}

// Adds the object of a state.
pub(crate) fn push_state_object(
    alloc: Global,
    text: &mut String,
    state: &NetState,
) -> Result<(), AllocError>
    ensures { OnOk result (string_bytes text.new ≡ string_bytes text.old ⋅ spec.state_object state.now) }
{
    let mut object = begin_kind(alloc, "state")?;
    push_state_members(alloc, &mut object, state)?;
    end_line(object, text)
}

// Adds the object of a state, and that all is safe.
pub(crate) fn push_report_object(
    alloc: Global,
    text: &mut String,
    state: &NetState,
) -> Result<(), AllocError>
    ensures { OnOk result (string_bytes text.new ≡ string_bytes text.old ⋅ spec.report_object state.now) }
{
    let mut object = begin_kind(alloc, "report")?;
    push_state_members(alloc, &mut object, state)?;
    push_safe(&mut object, true)?;
    end_line(object, text)
}

// Adds whether all is safe.
fn push_safe(object: &mut Writer, is_safe: bool) -> Result<(), AllocError>
    ensures { OnOk result (Adds (spec.safe_member is_safe) object.old object.new) }
{
    object.key("safe")?;
    object.boolean(is_safe)
}

// Adds the object that answers a line with a fault.
pub(crate) fn push_fault_object(
    alloc: Global,
    text: &mut String,
    fault: AskedFault,
) -> Result<(), AllocError>
    ensures { OnOk result (string_bytes text.new ≡ string_bytes text.old ⋅ spec.fault_object fault) }
{
    let mut object = begin_kind(alloc, "fault")?;
    push_text(&mut object, "fault", fault.name())?;
    end_line(object, text)
}

// Adds the object of the end.
pub(crate) fn push_end_object(
    alloc: Global,
    text: &mut String,
    is_safe: bool,
) -> Result<(), AllocError>
    ensures { OnOk result (string_bytes text.new ≡ string_bytes text.old ⋅ spec.end_object is_safe) }
{
    let mut object = begin_kind(alloc, "end")?;
    push_safe(&mut object, is_safe)?;
    end_line(object, text)
}
