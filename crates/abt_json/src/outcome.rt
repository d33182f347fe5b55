//! The outcomes of events, as members of an object.
ghost use Rattle.std.specs.Prelude.{OnOk};
ghost use Rattle.abt_entry.specs.ObjectMembers.{Adds};
ghost use Rattle.abt_json.specs.Objects.{outcome_named, outcome_with, refused_members, shape_fault_members, dropped_members, onward_members, back_members, outcome_members};

use crate::cell::push_request;
use crate::exact::push_exact;
use abt_entry::{push_number, push_text};
use abt_format::{
    ask_fault_name, capacity_fault_name, cause_name, heard_name, start_fault_name, verdict_name,
};
use abt_model::Outcome;
use abt_node::{Back, Onward};
use abt_shaper::ShapeFault;
use json::Writer;
use std::alloc::{AllocError, Global};

/// Adds the outcome of an event, by the words of reports.
pub(crate) fn push_outcome(
    alloc: Global,
    object: &mut Writer,
    outcome: &Outcome,
) -> Result<(), AllocError>
    ensures { OnOk result (Adds (outcome_members outcome.now) object.old object.new) }
{
    match outcome {
        Outcome::Started => push_named(object, "started"),
        Outcome::StartRefused(fault) => push_refused(object, start_fault_name(*fault)),
        Outcome::Asked(request) => {
            push_named(object, "asked")?;
            push_request(alloc, object, request)
        }
        Outcome::AskRefused(fault) => push_refused(object, ask_fault_name(*fault)),
        Outcome::Repeated(request) => {
            push_named(object, "again")?;
            push_request(alloc, object, request)
        }
        Outcome::Crashed => push_named(object, "crashed"),
        Outcome::Emitted { cell, next } => push_emitted(object, *cell, *next),
        Outcome::EmitRefused(fault) => push_shape_fault(object, *fault),
        Outcome::Arrived(verdict) => push_both(
            object,
            "arrived",
            "verdict",
            verdict_name(*verdict),
        ),
        Outcome::Requested(reply) => push_onward(object, *reply),
        Outcome::Turned => push_named(object, "turned"),
        Outcome::Answered(reply) => push_back(object, *reply),
        Outcome::Told(heard) => push_both(object, "told", "heard", heard_name(*heard)),
        Outcome::CapacitySet => push_named(object, "set"),
        Outcome::CapacityRefused(fault) => push_refused(object, capacity_fault_name(*fault)),
        Outcome::NotEnabled(cause) => push_both(object, "not-enabled", "cause", cause_name(*cause)),
    }
}

fn push_named(object: &mut Writer, name: &str) -> Result<(), AllocError>
    ensures { OnOk result (Adds (outcome_named name.now) object.old object.new) }
{
    push_text(object, "outcome", name)
}

// Adds an outcome, and what it is about.
fn push_both(object: &mut Writer, name: &str, member: &str, text: &str) -> Result<(), AllocError>
    ensures { OnOk result (Adds (outcome_with name.now member.now text.now) object.old object.new) }
{
    push_named(object, name)?;
    push_text(object, member, text)
}

fn push_refused(object: &mut Writer, fault: &str) -> Result<(), AllocError>
    ensures { OnOk result (Adds (refused_members fault.now) object.old object.new) }
{
    push_both(object, "refused", "fault", fault)
}

// Adds the number of a cell, and when the next one may leave.
fn push_emitted(object: &mut Writer, cell: u64, next: u64) -> Result<(), AllocError>
    ensures { OnOk result (Adds (outcome_members (Outcome.Emitted cell next)) object.old object.new) }
{
    push_named(object, "emitted")?;
    push_number(object, "cell", cell)?;
    push_exact(object, "next", "next_text", next)
}

fn push_shape_fault(object: &mut Writer, fault: ShapeFault) -> Result<(), AllocError>
    ensures { OnOk result (Adds (shape_fault_members fault) object.old object.new) }
{
    match fault {
        ShapeFault::ClockBack => push_refused(object, "ClockBack"),
        ShapeFault::TimeRange => push_refused(object, "TimeRange"),
        ShapeFault::Zero => push_refused(object, "Zero"),
        ShapeFault::TooSoon { next } => {
            push_refused(object, "TooSoon")?;
            push_exact(object, "next", "next_text", next)
        }
    }
}

fn push_dropped(object: &mut Writer, cause: &str) -> Result<(), AllocError>
    ensures { OnOk result (Adds (dropped_members cause.now) object.old object.new) }
{
    push_both(object, "dropped", "cause", cause)
}

fn push_onward(object: &mut Writer, reply: Onward) -> Result<(), AllocError>
    ensures { OnOk result (Adds (onward_members reply) object.old object.new) }
{
    match reply {
        Onward::Pass => push_named(object, "passed"),
        Onward::Refuse(_) => push_named(object, "refuses"),
        Onward::Drop(cause) => push_dropped(object, cause.name()),
    }
}

fn push_back(object: &mut Writer, reply: Back) -> Result<(), AllocError>
    ensures { OnOk result (Adds (back_members reply) object.old object.new) }
{
    match reply {
        Back::Pass => push_named(object, "passed"),
        Back::Drop(cause) => push_dropped(object, cause.name()),
    }
}
