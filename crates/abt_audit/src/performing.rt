//! Texts of readers, audited.
ghost use Rattle.std.specs.Prelude.{◌≡◌, ◌⊎◌, map, IfOk, IfErr, IfSome, IsOk, IsErr, MatchResult, string_bytes};
ghost use Rattle.std.specs.Io.KnownBytes.{Keeps};
ghost use Rattle.abt_perform.specs.Names.{fault_line};
ghost use Rattle.abt_perform.specs.Plans.{Tells};
ghost use Rattle.abt_perform.specs.declared.fault.Fault.TheVariants as program;
ghost use Rattle.abt_text.specs.Text.{◌⋅◌};
ghost use Rattle.abt_audit.specs.Audits.{IsToldAs};
ghost use Rattle.abt_audit.specs.Findings as findings;
ghost use Rattle.abt_audit.specs.Names.{text_fault_line};
ghost use Rattle.abt_audit.specs.declared.fault.AuditFault.TheVariants as audit_fault;
ghost use Rattle.abt_audit.specs.Performing.{EndsBy, IsNotShown, IsNotShownLeaving, IsNoRun, IsShownAs, IsShownWhole, TellsFault, run_in, shown_text, weave_fault};
ghost use Rattle.abt_audit.specs.Parts.{IsSizedRun};
ghost use Rattle.abt_audit.specs.Performing as spec;

use crate::auditing::{AuditedRun, audit};
use crate::fault::AuditFault;
use crate::fault_text::lines_of_fault;
use crate::form::Form;
use crate::gathering::read_all;
use crate::naming::{cause_text, with_notes};
use crate::objects::woven_object;
use crate::putting::show_fault;
use crate::settling::settled_run;
use crate::stuck::head_of;
use abt_derive::{derive, restart};
use abt_journal_text::{Book, Cause, Run, Spot, TextFault};
use abt_perform::{Fault, MEMORY_LINE, WRITE_LINE, tell_text};
use abt_text::put;
use abt_weave::WeaveFault;
use std::alloc::{AllocError, Global};
use std::io::{Read, Write};

/// Audits the texts that some readers have left, and gives the exit status: 0 if all that is shown went out to `writer`, and 1 if not. In
/// words `errors` tells why not; as JSON that goes out too, and `errors` tells alone what is no finding. What can't be written there changes
/// no status. The names of the texts are for what is told.
pub fn perform_audit<R: Read + Drop, W: Write, E: Write>(
    alloc: Global,
    form: Form,
    names: &[String],
    readers: Vec<R>,
    writer: &mut W,
    errors: &mut E,
) -> u8
    ensures status { (result ≡ 0) ⊎ (result ≡ 1) }
    ensures ok { result ≡ 0 →
        IsShownWhole form (map R.remaining readers.items) (W.contents writer.old) (W.contents writer.new) }
    ensures quiet { result ≡ 0 → Keeps (E.contents errors.old) (E.contents errors.new) }
    ensures err { result ≡ 1 → IsNotShown form names.now (map R.remaining readers.items)
        (W.contents writer.old) (W.contents writer.new) (E.contents errors.old) (E.contents errors.new) }
{
    match show_audit(alloc, form, names, readers, writer, errors) {
        Ok(run) => {
            drop(run);
            0
        }
        Err(left) => {
            drop(left);
            1
        }
    }
}

/// Audits the texts that some readers have left, as [`perform_audit`] does, and hands out the net and the events that they are once all
/// lines went out to `writer`.
///
/// # Errors
/// If not all is shown, which is told as there. If the journals are stuck, the run is handed out that they are of, what it leaves open settled.
pub fn show_audit<R: Read + Drop, W: Write, E: Write>(
    alloc: Global,
    form: Form,
    names: &[String],
    readers: Vec<R>,
    writer: &mut W,
    errors: &mut E,
) -> Result<AuditedRun, Option<Run>>
    ensures ok { IfOk result (IsShownAs form (map R.remaining readers.items) (W.contents writer.old)
        (W.contents writer.new)) }
    ensures quiet { IsOk result → Keeps (E.contents errors.old) (E.contents errors.new) }
    ensures err { IsErr result → IsNotShown form names.now (map R.remaining readers.items)
        (W.contents writer.old) (W.contents writer.new) (E.contents errors.old) (E.contents errors.new) }
    ensures sized { IfErr result (λ left. IfSome left IsSizedRun) }
    ensures left { IfErr result (IsNotShownLeaving form names.now (map R.remaining readers.items)
        (W.contents writer.old) (W.contents writer.new) (E.contents errors.old) (E.contents errors.new)) }
{
    match audit_texts(alloc, form, names, readers, writer) {
        Ok(run) => Ok(run),
        Err(fault) => {
            show_fault(alloc, form, names, &fault, writer, errors);
            Err(run_in(fault))
        }
    }
}

// The run whose journals a fault says to be stuck.
fn run_in(fault: AuditFault) -> Option<Run>
    ensures { result ≡ run_in fault }
{
    match fault {
        AuditFault::Stuck { run, .. } => Some(run),
        _ => None,
    }
}

// Audits the texts, and writes what that shows.
fn audit_texts<R: Read + Drop, W: Write>(
    alloc: Global,
    form: Form,
    names: &[String],
    readers: Vec<R>,
    writer: &mut W,
) -> Result<AuditedRun, AuditFault>
    ensures ok { IfOk result (IsShownAs form (map R.remaining readers.items) (W.contents writer.old)
        (W.contents writer.new)) }
    ensures err { IfErr result (λ fault. EndsBy form names.now (map R.remaining readers.items) fault
        (W.contents writer.old) (W.contents writer.new)) }
{
    let book = match read_all(alloc, readers) {
        Ok(book) => book,
        Err(fault) => return Err(fault_of_text(fault)),
    };
    let (run, shown) = match judge_book(alloc, form, names, book) {
        Ok(judged) => judged,
        Err(fault) => return Err(fault),
    };
    match put(writer, shown.as_slice()) {
        Ok(()) => Ok(run),
        Err(_) => Err(AuditFault::Write),
    }
}

// The fault of an audit for a fault of a text.
pub(crate) fn fault_of_text(fault: TextFault) -> AuditFault
    ensures value { result ≡ spec.fault_of_text fault }
    ensures either { (result ≡ audit_fault.Memory) ⊎ (result ≡ audit_fault.Text fault) }
{
    match fault.cause {
        Cause::Memory => AuditFault::Memory,
        _ => AuditFault::Text(fault),
    }
}

// Audits what was told, and gives what goes out of that.
fn judge_book(
    alloc: Global,
    form: Form,
    names: &[String],
    book: Book,
) -> Result<(AuditedRun, Vec<u8>), AuditFault>
    ensures ok { IfOk result (λ judged. IsToldAs book judged.0
        × (judged.1.items ≡ shown_text form book judged.0)) }
    ensures err { IfErr result (IsNoRun form names.now book) }
{
    let Some(told) = book.into_run(alloc)? else {
        return Err(AuditFault::Nothing);
    };
    let restarted = restart(alloc, told)?;
    let settled = settled_run(alloc, restarted)?;
    let run = derive(alloc, settled)?;
    match audit(alloc, &run) {
        Ok(audited) => {
            let count = audited.events.len() as u64;
            let shown = shown_text(alloc, form, count, run.cuts.as_slice())?;
            let Run { net, .. } = run;
            Ok((AuditedRun { net, audited }, shown))
        }
        Err(WeaveFault::Memory) => Err(AuditFault::Memory),
        Err(fault) => {
            let Ok(lines) = lines_of_fault(alloc, form, names, &run, &fault) else {
                return Err(AuditFault::Memory);
            };
            let Ok(lines) = with_notes(alloc, form, lines.as_slice(), run.cuts.as_slice()) else {
                return Err(AuditFault::Memory);
            };
            Err(AuditFault::Stuck { fault, lines, run })
        }
    }
}

// What goes out of journals that are woven into so many events, and of lines that are cut.
fn shown_text(alloc: Global, form: Form, events: u64, cuts: &[Spot]) -> Result<Vec<u8>, AllocError>
    ensures { IfOk result (λ shown. shown.items ≡
        findings.woven_text form events ⋅ findings.notes_text form cuts.now) }
{
    let woven = woven_text(alloc, form, events)?;
    with_notes(alloc, form, woven.as_slice(), cuts)
}

// What goes out of journals that are woven into so many events.
fn woven_text(alloc: Global, form: Form, events: u64) -> Result<Vec<u8>, AllocError>
    ensures { IfOk result (λ text. text.items ≡ findings.woven_text form events) }
{
    match form {
        Form::Words => octets_of(alloc, "woven\nsafe\n", b""),
        Form::Json => woven_object(alloc, events),
    }
}

// Tells a fault as far as the writer takes it. A fault that names no text is told without memory.
pub(crate) fn tell<E: Write>(alloc: Global, names: &[String], fault: &AuditFault, errors: &mut E)
    ensures { TellsFault names.now fault.now (E.contents errors.old) (E.contents errors.new) }
{
    match fault {
        AuditFault::Text(why) => tell_made(text_fault(alloc, names, why), errors),
        AuditFault::Nothing => tell_text(errors, "fault: Nothing\n"),
        AuditFault::Stuck { fault, lines, .. } => {
            tell_made(stuck_fault(alloc, fault, lines.as_slice()), errors)
        }
        AuditFault::Write => tell_text(errors, WRITE_LINE),
        AuditFault::Memory => tell_text(errors, MEMORY_LINE),
    }
}

// Tells a text that was made, or want of memory for it.
pub(crate) fn tell_made<E: Write>(made: Result<Vec<u8>, AllocError>, errors: &mut E)
    ensures { MatchResult made
        (λ text. Tells text.items (E.contents errors.old) (E.contents errors.new))
        (λ _. Tells (fault_line program.Memory) (E.contents errors.old) (E.contents errors.new)) }
{
    match made {
        Ok(text) => tell_octets(errors, text.as_slice()),
        Err(_) => tell_text(errors, MEMORY_LINE),
    }
}

// Writes octets as far as the writer takes them.
fn tell_octets<E: Write>(errors: &mut E, octets: &[u8])
    ensures { Tells octets.now (E.contents errors.old) (E.contents errors.new) }
{
    let _ = put(errors, octets);
}

fn text_fault(alloc: Global, names: &[String], why: &TextFault) -> Result<Vec<u8>, AllocError>
    ensures { IfOk result (λ text. text.items ≡ text_fault_line names.now why.now) }
{
    let head = head_of(alloc, names, why.spot)?;
    let cause = cause_text(alloc, why.cause)?;
    let text = format!(in alloc; "fault: {head}{cause}\n")?;
    octets_of(alloc, text.as_str(), b"")
}

fn stuck_fault(alloc: Global, fault: &WeaveFault, lines: &[u8]) -> Result<Vec<u8>, AllocError>
    ensures { IfOk result (λ text. text.items ≡ fault_line (weave_fault fault.now) ⋅ lines.now) }
{
    let fault = match fault {
        WeaveFault::Mismatch { .. } => Fault::Mismatch,
        WeaveFault::NoOrder(_) => Fault::NoOrder,
        WeaveFault::Memory => Fault::Memory,
    };
    program_fault(alloc, fault, lines)
}

// The line of a fault that the program has elsewhere too, and then more.
fn program_fault(alloc: Global, fault: Fault, more: &[u8]) -> Result<Vec<u8>, AllocError>
    ensures { IfOk result (λ text. text.items ≡ fault_line fault ⋅ more.now) }
{
    let text = format!(in alloc; "fault: {fault}\n")?;
    octets_of(alloc, text.as_str(), more)
}

// The octets of a text, and then more.
pub(crate) fn octets_of(alloc: Global, text: &str, more: &[u8]) -> Result<Vec<u8>, AllocError>
    ensures { IfOk result (λ octets. octets.items ≡ text.now ⋅ more.now) }
{
    let mut octets = Vec::new(alloc);
    octets.extend_from_slice(text.as_bytes())?;
    octets.extend_from_slice(more)?;
    Ok(octets)
}
