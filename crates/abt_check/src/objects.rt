//! Checks, told as JSON: an object for each finding, on a line of its own.
ghost use Rattle.std.specs.Prelude.{◌≡◌, ◌++◌, OnOk, option_map};
ghost use Rattle.abt_entry.specs.ObjectMembers.{Adds};
ghost use Rattle.abt_check.specs.CheckObjects as spec;

use crate::finding::{Checked, Found, Warning};
use abt_entry::{begin, end, push_number, push_text};
use abt_net::NetFault;
use abt_places::place_at;
use abt_scenario::ScenarioFault;
use json::Writer;
use std::alloc::{AllocError, Global};

/// Adds the objects of a check of a text: its faults, its warnings, and how many there are (docs/FORMATS.md, "Checks"). If it is one of
/// several files, each has the name of its file.
pub(crate) fn push_objects(
    alloc: Global,
    text: &mut Vec<u8>,
    file: Option<&str>,
    source: &str,
    checked: &Checked,
) -> Result<(), AllocError>
    ensures { OnOk result (text.new.items ≡ text.old.items ++
        spec.check_objects (option_map (λ name. name.now) file.entry) source.now checked.now) }
{
    push_faults(alloc, text, file, source, checked.faults.as_slice())?;
    push_warnings(alloc, text, file, source, checked.warnings.as_slice())?;
    push_counts(alloc, text, file, checked)
}

fn push_faults(
    alloc: Global,
    text: &mut Vec<u8>,
    file: Option<&str>,
    source: &str,
    faults: &[Found],
) -> Result<(), AllocError>
    ensures { OnOk result (text.new.items ≡ text.old.items ++
        spec.fault_objects (option_map (λ name. name.now) file.entry) source.now faults.now) }
{
    for found in faults {
        push_fault(alloc, text, file, source, found)?;
    }
    Ok(())
}

fn push_fault(
    alloc: Global,
    text: &mut Vec<u8>,
    file: Option<&str>,
    source: &str,
    found: &Found,
) -> Result<(), AllocError>
    ensures { OnOk result (text.new.items ≡ text.old.items ++
        spec.fault_object (option_map (λ name. name.now) file.entry) source.now found.now) }
{
    let mut object = begin(alloc, text)?;
    push_text(&mut object, "kind", "fault")?;
    push_file(&mut object, file)?;
    push_place(&mut object, source, found.at)?;
    push_scenario_fault(&mut object, found.fault)?;
    push_text(&mut object, "message", found.text.as_str())?;
    end(object, text)
}

fn push_warnings(
    alloc: Global,
    text: &mut Vec<u8>,
    file: Option<&str>,
    source: &str,
    warnings: &[Warning],
) -> Result<(), AllocError>
    ensures { OnOk result (text.new.items ≡ text.old.items ++
        spec.warning_objects (option_map (λ name. name.now) file.entry) source.now warnings.now) }
{
    for warning in warnings {
        push_warning(alloc, text, file, source, warning)?;
    }
    Ok(())
}

fn push_warning(
    alloc: Global,
    text: &mut Vec<u8>,
    file: Option<&str>,
    source: &str,
    warning: &Warning,
) -> Result<(), AllocError>
    ensures { OnOk result (text.new.items ≡ text.old.items ++
        spec.warning_object (option_map (λ name. name.now) file.entry) source.now warning.now) }
{
    let mut object = begin(alloc, text)?;
    push_text(&mut object, "kind", "warning")?;
    push_file(&mut object, file)?;
    push_place(&mut object, source, warning.at)?;
    push_text(&mut object, "message", warning.text.as_str())?;
    end(object, text)
}

fn push_counts(
    alloc: Global,
    text: &mut Vec<u8>,
    file: Option<&str>,
    checked: &Checked,
) -> Result<(), AllocError>
    ensures { OnOk result (text.new.items ≡ text.old.items ++
        spec.counts_object (option_map (λ name. name.now) file.entry) checked.now) }
{
    let mut object = begin(alloc, text)?;
    push_text(&mut object, "kind", "counts")?;
    push_file(&mut object, file)?;
    push_number(&mut object, "faults", checked.faults.len() as u64)?;
    push_number(&mut object, "warnings", checked.warnings.len() as u64)?;
    end(object, text)
}

/// Adds the object of a file that isn't checked: its fault, and why.
pub(crate) fn push_unread(
    alloc: Global,
    text: &mut Vec<u8>,
    file: &str,
    fault: &str,
    why: &str,
) -> Result<(), AllocError>
    ensures { OnOk result (text.new.items ≡ text.old.items ++
        spec.unread_object file.now fault.now why.now) }
{
    let mut object = begin(alloc, text)?;
    push_text(&mut object, "kind", "fault")?;
    push_text(&mut object, "file", file)?;
    push_name(&mut object, fault)?;
    push_text(&mut object, "message", why)?;
    end(object, text)
}

// Adds the name of the file, if there are several.
fn push_file(object: &mut Writer, file: Option<&str>) -> Result<(), AllocError>
    ensures { OnOk result (Adds (spec.file_members (option_map (λ name. name.now) file.entry))
        object.old object.new) }
{
    match file {
        Some(name) => push_text(object, "file", name),
        None => Ok(()),
    }
}

// Adds the place behind so many octets of a text, if they are known.
fn push_place(object: &mut Writer, source: &str, at: Option<usize>) -> Result<(), AllocError>
    ensures { OnOk result (Adds (spec.place_members source.now at) object.old object.new) }
{
    match at {
        Some(at) => {
            let place = place_at(source, at);
            push_number(object, "line", place.line)?;
            push_number(object, "column", place.column)
        }
        None => Ok(()),
    }
}

// Adds the name of a fault, and the key, event or connection that it names.
fn push_scenario_fault(object: &mut Writer, fault: ScenarioFault) -> Result<(), AllocError>
    ensures { OnOk result (Adds (spec.fault_members fault) object.old object.new) }
{
    match fault {
        ScenarioFault::Toml => push_name(object, "Toml"),
        ScenarioFault::MissingKey(key) => push_with_text(object, "MissingKey", "key", key.name()),
        ScenarioFault::WrongType(key) => push_with_text(object, "WrongType", "key", key.name()),
        ScenarioFault::Net(fault) => push_net_fault(object, fault),
        ScenarioFault::EventText { number } => push_with(object, "EventText", "event", number),
        ScenarioFault::ScriptText { connection, number } => {
            push_with(object, "ScriptText", "connection", connection)?;
            push_number(object, "command", number)
        }
        ScenarioFault::OperatorText { number } => {
            push_with(object, "OperatorText", "operation", number)
        }
        ScenarioFault::Memory => push_name(object, "memory"),
    }
}

// Adds why ports and connections are no net.
fn push_net_fault(object: &mut Writer, fault: NetFault) -> Result<(), AllocError>
    ensures { OnOk result (Adds (spec.net_members fault) object.old object.new) }
{
    match fault {
        NetFault::NoPort { connection } => push_net(object, "NoPort", connection),
        NetFault::PathLength { connection } => push_net(object, "PathLength", connection),
        NetFault::PathRepeat { connection } => push_net(object, "PathRepeat", connection),
        NetFault::VcRepeat { connection } => push_net(object, "VcRepeat", connection),
        NetFault::Limit => push_with_text(object, "Net", "net", "Limit"),
        NetFault::Memory => push_with_text(object, "Net", "net", "memory"),
    }
}

fn push_net(object: &mut Writer, name: &str, connection: u64) -> Result<(), AllocError>
    ensures { OnOk result (Adds (spec.net_at name.now connection) object.old object.new) }
{
    push_with_text(object, "Net", "net", name)?;
    push_number(object, "connection", connection)
}

fn push_name(object: &mut Writer, name: &str) -> Result<(), AllocError>
    ensures { OnOk result (Adds (spec.named name.now) object.old object.new) }
{
    push_text(object, "fault", name)
}

fn push_with(object: &mut Writer, name: &str, member: &str, number: u64) -> Result<(), AllocError>
    ensures { OnOk result (Adds (spec.with_number name.now member.now number) object.old object.new) }
{
    push_name(object, name)?;
    push_number(object, member, number)
}

fn push_with_text(
    object: &mut Writer,
    name: &str,
    member: &str,
    text: &str,
) -> Result<(), AllocError>
    ensures { OnOk result (Adds (spec.with_text name.now member.now text.now) object.old object.new) }
{
    push_name(object, name)?;
    push_text(object, member, text)
}
