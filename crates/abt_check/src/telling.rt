//! Checks, told line by line.
ghost use Rattle.std.specs.Prelude.{◌≡◌, ◌++◌, IfOk, OnOk, string_bytes, length};
ghost use Rattle.abt_check.specs.CheckText as spec;
ghost use Rattle.abt_check.specs.CheckText.{check_text, fault_lines, fault_line, warning_lines, warning_line, counts_line};
ghost use Rattle.abt_check.specs.Performed.{IsAnswerTo, has_some};

use crate::checking::check;
use crate::finding::{Checked, FOUND_MAX, Found, Warning};
use abt_perform::Fault;
use abt_places::place_at;
use std::alloc::{AllocError, Global};

/// The lines of a check, and whether one of them tells a fault.
#[derive(Debug, Drop)]
pub struct Answer {
    pub text: String,
    pub is_faulty: bool,
}

/// The check of a text, told line by line.
///
/// # Errors
/// If memory is refused.
pub fn answer_of(alloc: Global, source: &str) -> Result<Answer, AllocError>
    ensures { IfOk result (IsAnswerTo source.now) }
{
    let checked = check(alloc, source)?;
    let mut text = String::new(alloc);
    push_check(alloc, &mut text, source, &checked)?;
    Ok(Answer {
        text,
        is_faulty: has_some(checked.faults.as_slice()),
    })
}

// Whether there is a fault.
pub(crate) fn has_some(faults: &[Found]) -> bool
    ensures { result ≡ has_some faults.now }
{
    faults.split_first().is_some()
}

fn push_check(
    alloc: Global,
    text: &mut String,
    source: &str,
    checked: &Checked,
) -> Result<(), AllocError>
    ensures { OnOk result (string_bytes text.new ≡ string_bytes text.old ++
        check_text source.now checked.now) }
{
    push_faults(alloc, text, source, checked.faults.as_slice())?;
    push_warnings(alloc, text, source, checked.warnings.as_slice())?;
    push_counts(alloc, text, checked)
}

fn push_faults(
    alloc: Global,
    text: &mut String,
    source: &str,
    faults: &[Found],
) -> Result<(), AllocError>
    ensures { OnOk result (string_bytes text.new ≡ string_bytes text.old ++
        fault_lines source.now faults.now) }
{
    for found in faults {
        push_fault(alloc, text, source, found)?;
    }
    Ok(())
}

fn push_fault(
    alloc: Global,
    text: &mut String,
    source: &str,
    found: &Found,
) -> Result<(), AllocError>
    ensures { OnOk result (string_bytes text.new ≡ string_bytes text.old ++ fault_line source.now found.now) }
{
    let place = place_text(alloc, source, found.at)?;
    let name = Fault::Scenario(found.fault);
    let said = found.text.as_str();
    write!(text, "{place}fault {name}: {said}\n")
}

fn push_warnings(
    alloc: Global,
    text: &mut String,
    source: &str,
    warnings: &[Warning],
) -> Result<(), AllocError>
    ensures { OnOk result (string_bytes text.new ≡ string_bytes text.old ++
        warning_lines source.now warnings.now) }
{
    for warning in warnings {
        push_warning(alloc, text, source, warning)?;
    }
    Ok(())
}

fn push_warning(
    alloc: Global,
    text: &mut String,
    source: &str,
    warning: &Warning,
) -> Result<(), AllocError>
    ensures { OnOk result (string_bytes text.new ≡ string_bytes text.old ++
        warning_line source.now warning.now) }
{
    let place = place_text(alloc, source, warning.at)?;
    let said = warning.text.as_str();
    write!(text, "{place}warning: {said}\n")
}

pub(crate) fn push_counts(
    alloc: Global,
    text: &mut String,
    checked: &Checked,
) -> Result<(), AllocError>
    ensures { OnOk result (string_bytes text.new ≡ string_bytes text.old ++ counts_line checked.now) }
{
    let faults = count_text(alloc, checked.faults.len())?;
    let warnings = count_text(alloc, checked.warnings.len())?;
    write!(text, "faults: {faults}, warnings: {warnings}\n")
}

// How many of a kind are told.
fn count_text(alloc: Global, count: usize) -> Result<String, AllocError>
    ensures { IfOk result (λ text. string_bytes text ≡ spec.count_text count) }
{
    let more = if count == FOUND_MAX { " or more" } else { "" };
    format!(in alloc; "{count}{more}")
}

// The place behind so many octets of a text, if they are known.
fn place_text(alloc: Global, source: &str, at: Option<usize>) -> Result<String, AllocError>
    ensures { IfOk result (λ text. string_bytes text ≡ spec.place_text source.now at) }
{
    match at {
        Some(at) => {
            let place = place_at(source, at);
            let line = place.line;
            let column = place.column;
            format!(in alloc; "line {line}, column {column}: ")
        }
        None => Ok(String::new(alloc)),
    }
}
