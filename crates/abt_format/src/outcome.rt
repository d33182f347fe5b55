//! The texts of outcomes.
ghost use Rattle.std.specs.Prelude.{◌≡◌, ◌++◌, OnOk, string_bytes};
ghost use Rattle.abt_format.specs.OutcomeText.{outcome_text, refused_text, request_text, shape_fault_text, onward_text, back_text};

use crate::names::{
    ask_fault_name, capacity_fault_name, cause_name, heard_name, start_fault_name, verdict_name,
};
use crate::pieces::push_number;
use abt_cell::Request;
use abt_model::Outcome;
use abt_node::{Back, Onward};
use abt_shaper::ShapeFault;
use abt_text::HexCode;
use std::alloc::AllocError;

/// Adds the outcome of an event, as reports say it (docs/FORMATS.md, "Report").
pub fn push_outcome(text: &mut String, outcome: &Outcome) -> Result<(), AllocError>
    ensures { OnOk result (string_bytes text.new ≡ string_bytes text.old ++ outcome_text outcome.now) }
{
    match outcome {
        Outcome::Started => text.push_str("started"),
        Outcome::StartRefused(fault) => push_refused(text, start_fault_name(*fault)),
        Outcome::Asked(request) => push_request(text, "asked", request),
        Outcome::AskRefused(fault) => push_refused(text, ask_fault_name(*fault)),
        Outcome::Repeated(request) => push_request(text, "again", request),
        Outcome::Crashed => text.push_str("crashed"),
        Outcome::Emitted { cell, next } => push_emitted(text, *cell, *next),
        Outcome::EmitRefused(fault) => push_shape_fault(text, *fault),
        Outcome::Arrived(verdict) => push_both(text, "arrived ", verdict_name(*verdict)),
        Outcome::Requested(reply) => push_onward(text, *reply),
        Outcome::Turned => text.push_str("turned"),
        Outcome::Answered(reply) => push_back(text, *reply),
        Outcome::Told(heard) => push_both(text, "told ", heard_name(*heard)),
        Outcome::CapacitySet => text.push_str("set"),
        Outcome::CapacityRefused(fault) => push_refused(text, capacity_fault_name(*fault)),
        Outcome::NotEnabled(cause) => push_both(text, "not-enabled ", cause_name(*cause)),
    }
}

fn push_both(text: &mut String, word: &str, name: &str) -> Result<(), AllocError>
    ensures { OnOk result (string_bytes text.new ≡ string_bytes text.old ++ (word.now ++ name.now)) }
{
    text.push_str(word)?;
    text.push_str(name)
}

fn push_refused(text: &mut String, name: &str) -> Result<(), AllocError>
    ensures { OnOk result (string_bytes text.new ≡ string_bytes text.old ++ refused_text name.now) }
{
    push_both(text, "refused ", name)
}

// The number, the floor and the asked rate of a request, behind a word.
fn push_request(text: &mut String, word: &str, request: &Request) -> Result<(), AllocError>
    ensures { OnOk result (string_bytes text.new ≡ string_bytes text.old ++
        request_text word.now request.now) }
{
    text.push_str(word)?;
    text.push_str(" ")?;
    push_number(text, u64::from(request.seq()))?;
    text.push_str(" ")?;
    HexCode(request.floor().code()).push_to(text)?;
    text.push_str(" ")?;
    HexCode(request.ask().code()).push_to(text)
}

// The number of a cell, and when the next one may leave.
fn push_emitted(text: &mut String, cell: u64, next: u64) -> Result<(), AllocError>
    ensures { OnOk result (string_bytes text.new ≡ string_bytes text.old ++
        outcome_text (Outcome.Emitted cell next)) }
{
    text.push_str("emitted ")?;
    push_number(text, cell)?;
    text.push_str(" ")?;
    push_number(text, next)
}

fn push_shape_fault(text: &mut String, fault: ShapeFault) -> Result<(), AllocError>
    ensures { OnOk result (string_bytes text.new ≡ string_bytes text.old ++ shape_fault_text fault) }
{
    match fault {
        ShapeFault::ClockBack => push_refused(text, "ClockBack"),
        ShapeFault::TimeRange => push_refused(text, "TimeRange"),
        ShapeFault::Zero => push_refused(text, "Zero"),
        ShapeFault::TooSoon { next } => write!(text, "refused TooSoon {next}"),
    }
}

fn push_onward(text: &mut String, reply: Onward) -> Result<(), AllocError>
    ensures { OnOk result (string_bytes text.new ≡ string_bytes text.old ++ onward_text reply) }
{
    match reply {
        Onward::Pass => text.push_str("passed"),
        Onward::Refuse(_) => text.push_str("refuses"),
        Onward::Drop(cause) => push_both(text, "dropped ", cause.name()),
    }
}

fn push_back(text: &mut String, reply: Back) -> Result<(), AllocError>
    ensures { OnOk result (string_bytes text.new ≡ string_bytes text.old ++ back_text reply) }
{
    match reply {
        Back::Pass => text.push_str("passed"),
        Back::Drop(cause) => push_both(text, "dropped ", cause.name()),
    }
}
