//! What a source says.
ghost use Rattle.std.specs.Prelude.{◌≡◌, OnOk, codes, string_bytes};
ghost use Rattle.abt_text.specs.Text.{◌⋅◌, decimal, newline};
ghost use Rattle.abt_live.specs.SourceSaid.{cell_text, outcome_said, refusal_text, request_text, unsent_text};

use abt_cell::{Request, Rm};
use abt_format::{ask_fault_name, cause_name, start_fault_name};
use abt_model::Outcome;
use abt_perform::message_hex;
use abt_shaper::ShapeFault;
use itoa::Buffer;
use std::alloc::{AllocError, Global};

// Adds what is said of an outcome, at a moment of the source's clock.
pub(crate) fn push_outcome(
    alloc: Global,
    text: &mut String,
    clock: u64,
    outcome: &Outcome,
) -> Result<(), AllocError>
    ensures { OnOk result (string_bytes text.new ≡ string_bytes text.old ⋅ outcome_said clock outcome.now) }
{
    match outcome {
        Outcome::Started => text.push_str("started\n"),
        Outcome::StartRefused(fault) => push_refusal(text, start_fault_name(*fault)),
        Outcome::Asked(request) => push_request(alloc, text, request),
        Outcome::AskRefused(fault) => push_refusal(text, ask_fault_name(*fault)),
        Outcome::Repeated(request) => push_request(alloc, text, request),
        Outcome::Emitted { cell, next } => push_cell(text, *cell, clock, *next),
        Outcome::EmitRefused(fault) => push_unsent(text, *fault),
        Outcome::Told(_) => text.push_str("heard\n"),
        Outcome::NotEnabled(cause) => push_refusal(text, cause_name(*cause)),
        _ => text.push_str("nothing\n"),
    }
}

fn push_refusal(text: &mut String, name: &str) -> Result<(), AllocError>
    ensures { OnOk result (string_bytes text.new ≡ string_bytes text.old ⋅ refusal_text name.now) }
{
    text.push_str("fault ")?;
    text.push_str(name)?;
    text.push_str("\n")
}

fn push_request(alloc: Global, text: &mut String, request: &Request) -> Result<(), AllocError>
    ensures { OnOk result (string_bytes text.new ≡ string_bytes text.old ⋅ request_text request.now) }
{
    let hex = message_hex(alloc, &Rm::Request(*request))?;
    text.push_str("rm ")?;
    text.push_str(hex.as_str())?;
    text.push_str("\n")
}

fn push_cell(text: &mut String, cell: u64, now: u64, next: u64) -> Result<(), AllocError>
    ensures { OnOk result (string_bytes text.new ≡ string_bytes text.old ⋅ cell_text cell now next) }
{
    push_number(text, "cell ", cell)?;
    push_number(text, " ", now)?;
    push_number(text, " ", next)?;
    text.push_str("\n")
}

// Why no cell left.
fn push_unsent(text: &mut String, fault: ShapeFault) -> Result<(), AllocError>
    ensures { OnOk result (string_bytes text.new ≡ string_bytes text.old ⋅ unsent_text fault) }
{
    match fault {
        ShapeFault::ClockBack => text.push_str("fault ClockBack\n"),
        ShapeFault::TimeRange => text.push_str("fault TimeRange\n"),
        ShapeFault::Zero => text.push_str("fault Zero\n"),
        ShapeFault::TooSoon { next } => {
            push_number(text, "toosoon ", next)?;
            text.push_str("\n")
        }
    }
}

// Adds a word and the digits of a number.
fn push_number(text: &mut String, word: &str, number: u64) -> Result<(), AllocError>
    ensures { OnOk result (string_bytes text.new ≡ string_bytes text.old ⋅ word.now ⋅ decimal number) }
{
    let mut digits = Buffer::new();
    text.push_str(word)?;
    text.push_str(digits.format(number))
}
