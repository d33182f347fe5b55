//! The names of the faults of lines.
ghost use Rattle.std.specs.Prelude.{◌≡◌, IfOk, OnOk, string_bytes};
ghost use Rattle.abt_text.specs.Text.{◌⋅◌};
ghost use Rattle.abt_audit.specs.Findings.{notes_text};
ghost use Rattle.abt_audit.specs.Names.{cause_name, line_name, note_line, note_lines};
ghost use Rattle.abt_perform.specs.Names.{fault_name};

use crate::form::Form;
use crate::objects::add_note_objects;
use abt_journal_text::{Cause, LineFault, Spot};
use abt_perform::Fault;
use abt_scenario::ScenarioFault;
use std::alloc::{AllocError, Global};

// The name of the fault of a line (docs/JOURNALS.md, "Faults").
pub(crate) fn cause_text(alloc: Global, cause: Cause) -> Result<String, AllocError>
    ensures { IfOk result (λ text. string_bytes text ≡ cause_name cause) }
{
    match cause {
        Cause::TooLong => String::from_str(alloc, "TooLong"),
        Cause::Behind => String::from_str(alloc, "Behind"),
        Cause::Line(fault) => line_text(alloc, fault),
        Cause::NoNet => String::from_str(alloc, "NoNet"),
        Cause::SecondNet => String::from_str(alloc, "SecondNet"),
        Cause::Net(fault) => fault_text(alloc, Fault::Scenario(ScenarioFault::Net(fault))),
        Cause::NoPort => String::from_str(alloc, "NoPort"),
        Cause::NoSource => String::from_str(alloc, "NoSource"),
        Cause::Place => String::from_str(alloc, "Place"),
        Cause::Read => String::from_str(alloc, "read"),
        Cause::Endless => String::from_str(alloc, "Endless"),
        Cause::Memory => String::from_str(alloc, "memory"),
    }
}

// The name of the reason why a line is no line of a journal.
fn line_text(alloc: Global, fault: LineFault) -> Result<String, AllocError>
    ensures { IfOk result (λ text. string_bytes text ≡ line_name fault) }
{
    match fault {
        LineFault::Utf8 => String::from_str(alloc, "NotUtf8"),
        LineFault::Json => String::from_str(alloc, "Json"),
        LineFault::Twice => String::from_str(alloc, "Twice"),
        LineFault::Kind => String::from_str(alloc, "Kind"),
        LineFault::Member(member) => {
            let name = member.name();
            format!(in alloc; "Member {name}")
        }
        LineFault::Hex => String::from_str(alloc, "hex"),
        LineFault::Cell(fault) => fault_text(alloc, Fault::Rm(fault)),
        LineFault::Memory => String::from_str(alloc, "memory"),
    }
}

// The name that a fault has elsewhere in the program.
fn fault_text(alloc: Global, fault: Fault) -> Result<String, AllocError>
    ensures { IfOk result (λ text. string_bytes text ≡ fault_name fault) }
{
    format!(in alloc; "{fault}")
}

// Adds what is told of a line that is cut, and left out.
fn add_note(alloc: Global, text: &mut Vec<u8>, spot: Spot) -> Result<(), AllocError>
    ensures { OnOk result (text.new.items ≡ text.old.items ⋅ note_line spot) }
{
    let number = spot.text;
    let line = spot.line;
    let note = format!(in alloc; "note: text {number} ends in the middle of line {line}\n")?;
    Ok(text.extend_from_slice(note.as_bytes())?)
}

// Adds what is told of lines that are cut.
fn add_notes(alloc: Global, text: &mut Vec<u8>, cuts: &[Spot]) -> Result<(), AllocError>
    ensures { OnOk result (text.new.items ≡ text.old.items ⋅ note_lines cuts.now) }
{
    for spot in cuts {
        add_note(alloc, text, *spot)?;
    }
    Ok(())
}

// A text, and behind it what is told of lines that are cut.
pub(crate) fn with_notes(
    alloc: Global,
    form: Form,
    text: &[u8],
    cuts: &[Spot],
) -> Result<Vec<u8>, AllocError>
    ensures { IfOk result (λ made. made.items ≡ text.now ⋅ notes_text form cuts.now) }
{
    let mut made = Vec::new(alloc);
    made.extend_from_slice(text)?;
    match form {
        Form::Words => add_notes(alloc, &mut made, cuts)?,
        Form::Json => add_note_objects(alloc, &mut made, cuts)?,
    }
    Ok(made)
}
