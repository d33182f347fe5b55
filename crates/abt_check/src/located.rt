//! Checks of files, told line by line as editors read them. A file is named as it is shown.
ghost use Rattle.std.specs.Prelude.{◌≡◌, ◌++◌, IfOk, OnOk, string_bytes};
ghost use Rattle.abt_check.specs.Located as spec;

use crate::finding::{Checked, Found, Warning};
use crate::telling::push_counts;
use abt_perform::Fault;
use abt_places::place_at;
use std::alloc::{AllocError, Global};

/// Adds the lines of a check of a file's text: its faults, its warnings, and how many there are (docs/FORMATS.md, "Checks of files").
pub(crate) fn push_located(
    alloc: Global,
    text: &mut String,
    name: &str,
    source: &str,
    checked: &Checked,
) -> Result<(), AllocError>
    ensures { OnOk result (string_bytes text.new ≡ string_bytes text.old ++
        spec.check_lines name.now source.now checked.now) }
{
    push_fault_lines(alloc, text, name, source, checked.faults.as_slice())?;
    push_warnings(alloc, text, name, source, checked.warnings.as_slice())?;
    write!(text, "{name}: ")?;
    push_counts(alloc, text, checked)
}

/// Adds the lines of some faults.
pub(crate) fn push_fault_lines(
    alloc: Global,
    text: &mut String,
    name: &str,
    source: &str,
    faults: &[Found],
) -> Result<(), AllocError>
    ensures { OnOk result (string_bytes text.new ≡ string_bytes text.old ++
        spec.fault_lines name.now source.now faults.now) }
{
    for found in faults {
        push_fault(alloc, text, name, source, found)?;
    }
    Ok(())
}

fn push_fault(
    alloc: Global,
    text: &mut String,
    name: &str,
    source: &str,
    found: &Found,
) -> Result<(), AllocError>
    ensures { OnOk result (string_bytes text.new ≡ string_bytes text.old ++
        spec.fault_line name.now source.now found.now) }
{
    let place = located(alloc, name, source, found.at)?;
    let fault = Fault::Scenario(found.fault);
    let said = found.text.as_str();
    write!(text, "{place}fault: {fault}: {said}\n")
}

/// Adds the lines of some warnings.
pub(crate) fn push_warnings(
    alloc: Global,
    text: &mut String,
    name: &str,
    source: &str,
    warnings: &[Warning],
) -> Result<(), AllocError>
    ensures { OnOk result (string_bytes text.new ≡ string_bytes text.old ++
        spec.warning_lines name.now source.now warnings.now) }
{
    for warning in warnings {
        push_warning(alloc, text, name, source, warning)?;
    }
    Ok(())
}

fn push_warning(
    alloc: Global,
    text: &mut String,
    name: &str,
    source: &str,
    warning: &Warning,
) -> Result<(), AllocError>
    ensures { OnOk result (string_bytes text.new ≡ string_bytes text.old ++
        spec.warning_line name.now source.now warning.now) }
{
    let place = located(alloc, name, source, warning.at)?;
    let said = warning.text.as_str();
    write!(text, "{place}warning: {said}\n")
}

/// The place behind so many octets of a file's text, if they are known, and else the file alone.
pub(crate) fn located(
    alloc: Global,
    name: &str,
    source: &str,
    at: Option<usize>,
) -> Result<String, AllocError>
    ensures { IfOk result (λ text. string_bytes text ≡ spec.located name.now source.now at) }
{
    match at {
        Some(at) => {
            let place = place_at(source, at);
            let line = place.line;
            let column = place.column;
            format!(in alloc; "{name}:{line}:{column}: ")
        }
        None => format!(in alloc; "{name}: "),
    }
}

/// The line of a file that isn't checked.
pub(crate) fn unread_line(
    alloc: Global,
    name: &str,
    fault: &str,
    why: &str,
) -> Result<String, AllocError>
    ensures { IfOk result (λ line. string_bytes line ≡ spec.unread_line name.now fault.now why.now) }
{
    format!(in alloc; "{name}: fault: {fault}: {why}\n")
}
