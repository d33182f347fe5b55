//! Objects that answer lines.
ghost use Rattle.std.specs.Prelude.{◌≡◌, ◌++◌, [], IfOk, OnOk, codes, string_bytes};
ghost use Rattle.abt_entry.specs.ObjectMembers.{Adds, Holds, number_member, text_member};
ghost use Rattle.abt_text.specs.Text.{◌⋅◌};
ghost use Rattle.abt_parts.specs.LineObjects.{fault_object, moment_members, named_fault_object};

use crate::fault::LineFault;
use abt_entry::{push_number, push_text};
use abt_json::{begin_kind, end_line, push_exact};
use json::Writer;
use std::alloc::{AllocError, Global};

// Begins the object of a kind that answers the line of a number.
pub(crate) fn begin_line(alloc: Global, kind: &str, number: u64) -> Result<Writer, AllocError>
    ensures { IfOk result (λ object. Holds []
        (text_member (codes "kind") kind.now ++ number_member (codes "line") number) object) }
{
    let mut object = begin_kind(alloc, kind)?;
    push_number(&mut object, "line", number)?;
    Ok(object)
}

// Adds the object that answers a line with a fault.
pub(crate) fn push_fault_object(
    alloc: Global,
    text: &mut String,
    number: u64,
    fault: LineFault,
) -> Result<(), AllocError>
    ensures { OnOk result
        (string_bytes text.new ≡ string_bytes text.old ⋅ fault_object number fault) }
{
    push_named_fault(alloc, text, number, fault.name())
}

// Adds the object that answers a line with the fault of a name.
pub(crate) fn push_named_fault(
    alloc: Global,
    text: &mut String,
    number: u64,
    name: &str,
) -> Result<(), AllocError>
    ensures { OnOk result
        (string_bytes text.new ≡ string_bytes text.old ⋅ named_fault_object number name.now) }
{
    let mut object = begin_line(alloc, "fault", number)?;
    push_text(&mut object, "fault", name)?;
    end_line(object, text)
}

// Adds a moment in picoseconds, or null if it is absent.
pub(crate) fn push_moment(
    object: &mut Writer,
    name: &str,
    as_text: &str,
    moment: Option<u64>,
) -> Result<(), AllocError>
    ensures { OnOk result (Adds (moment_members name.now as_text.now moment) object.old object.new) }
{
    match moment {
        Some(moment) => push_exact(object, name, as_text, moment),
        None => {
            object.key(name)?;
            object.null()
        }
    }
}
