//! Faults of audits, told in words or put out as objects.
ghost use Rattle.std.specs.Prelude.{◌≡◌, MatchResult};
ghost use Rattle.abt_perform.specs.Names.{fault_line};
ghost use Rattle.abt_perform.specs.declared.fault.Fault.TheVariants as program;
ghost use Rattle.abt_audit.specs.Findings.{JustTells, PutsOut};
ghost use Rattle.abt_audit.specs.Performing.{PutsFault, ShowsFault};

use crate::fault::AuditFault;
use crate::form::Form;
use crate::objects::{nothing_object, text_object};
use crate::performing::tell;
use abt_perform::{MEMORY_LINE, WRITE_LINE, tell_text};
use abt_text::put;
use std::alloc::{AllocError, Global};
use std::io::Write;

// Shows a fault: in words it is told, as far as the writer for that takes it, and as objects it goes out.
pub(crate) fn show_fault<W: Write, E: Write>(
    alloc: Global,
    form: Form,
    names: &[String],
    fault: &AuditFault,
    writer: &mut W,
    errors: &mut E,
)
    ensures { ShowsFault form names.now fault.now (W.contents writer.old) (W.contents writer.new)
        (E.contents errors.old) (E.contents errors.new) }
{
    match form {
        Form::Words => tell(alloc, names, fault, errors),
        Form::Json => put_fault(alloc, names, fault, writer, errors),
    }
}

// Writes the objects of a fault; one that no text has is told in words.
pub(crate) fn put_fault<W: Write, E: Write>(
    alloc: Global,
    names: &[String],
    fault: &AuditFault,
    writer: &mut W,
    errors: &mut E,
)
    ensures { PutsFault names.now fault.now (W.contents writer.old) (W.contents writer.new)
        (E.contents errors.old) (E.contents errors.new) }
{
    match fault {
        AuditFault::Text(why) => put_made(text_object(alloc, names, why), writer, errors),
        AuditFault::Nothing => put_made(nothing_object(alloc), writer, errors),
        AuditFault::Stuck { lines, .. } => put_objects(lines.as_slice(), writer, errors),
        AuditFault::Write => tell_text(errors, WRITE_LINE),
        AuditFault::Memory => tell_text(errors, MEMORY_LINE),
    }
}

// Writes objects that were made, or tells want of memory for them.
pub(crate) fn put_made<W: Write, E: Write>(
    made: Result<Vec<u8>, AllocError>,
    writer: &mut W,
    errors: &mut E,
)
    ensures { MatchResult made
        (λ objects. PutsOut objects.items (W.contents writer.old) (W.contents writer.new)
        (E.contents errors.old) (E.contents errors.new))
        (λ _. JustTells (fault_line program.Memory) (W.contents writer.old) (W.contents writer.new)
        (E.contents errors.old) (E.contents errors.new)) }
{
    match made {
        Ok(objects) => put_objects(objects.as_slice(), writer, errors),
        Err(_) => tell_text(errors, MEMORY_LINE),
    }
}

// Writes objects, and tells it if not all can be written.
fn put_objects<W: Write, E: Write>(objects: &[u8], writer: &mut W, errors: &mut E)
    ensures { PutsOut objects.now (W.contents writer.old) (W.contents writer.new)
        (E.contents errors.old) (E.contents errors.new) }
{
    match put(writer, objects) {
        Ok(()) => {}
        Err(_) => tell_text(errors, WRITE_LINE),
    }
}
