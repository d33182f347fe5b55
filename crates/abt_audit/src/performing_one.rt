//! Texts of readers, of which the log of one port or one source is judged.
ghost use Rattle.std.specs.Prelude.{◌≡◌, ◌⊎◌, length, map, IfErr, IfOk, string_bytes};
ghost use Rattle.std.specs.Io.KnownBytes.{Keeps};
ghost use Rattle.abt_audit.specs.Findings as findings;
ghost use Rattle.abt_audit.specs.OneLogShown.{EndsLogBy, IsLogNotShown, IsLogShown, IsMismatchAt, IsNotObeyed, IsObeyed, PutsLogFault, ShowsLogFault, TellsLogFault};
ghost use Rattle.abt_audit.specs.OneLogShown as spec;

use crate::fault::AuditFault;
use crate::fault_text::mismatch_text;
use crate::form::Form;
use crate::gathering::read_all;
use crate::naming::with_notes;
use crate::objects::{absent_object, obeys_object};
use crate::one_log::{LogVerdict, entries_judged, judge_log};
use crate::one_log_fault::LogFault;
use crate::performing::{fault_of_text, octets_of, tell, tell_made};
use crate::putting::{put_fault, put_made};
use crate::settling::settled_run;
use abt_derive::restart;
use abt_journal_text::{Book, Run};
use abt_text::put;
use abt_weave::{Actor, Stuck, WeaveFault};
use std::alloc::{AllocError, Global};
use std::io::{Read, Write};

/// Judges the log of one port or one source alone, out of the texts that some readers have left, and gives the exit status: 0 if it obeys
/// and that went out to `writer`, and 1 if not. In words `errors` tells why not; as JSON that goes out too, and `errors` tells alone what is
/// no finding. What can't be written there changes no status. The names of the texts are for what is told.
pub fn perform_log_audit<R: Read + Drop, W: Write, E: Write>(
    alloc: Global,
    form: Form,
    names: &[String],
    readers: Vec<R>,
    actor: Actor,
    writer: &mut W,
    errors: &mut E,
) -> u8
    ensures status { (result ≡ 0) ⊎ (result ≡ 1) }
    ensures ok { result ≡ 0 → IsLogShown form (map R.remaining readers.items) actor
        (W.contents writer.old) (W.contents writer.new) }
    ensures quiet { result ≡ 0 → Keeps (E.contents errors.old) (E.contents errors.new) }
    ensures err { result ≡ 1 → IsLogNotShown form names.now (map R.remaining readers.items) actor
        (W.contents writer.old) (W.contents writer.new) (E.contents errors.old) (E.contents errors.new) }
{
    match show_log(alloc, form, names, readers, actor, writer) {
        Ok(()) => 0,
        Err(fault) => {
            show_log_fault(alloc, form, names, &fault, writer, errors);
            drop(fault);
            1
        }
    }
}

// Judges the log, and writes that it obeys.
fn show_log<R: Read + Drop, W: Write>(
    alloc: Global,
    form: Form,
    names: &[String],
    readers: Vec<R>,
    actor: Actor,
    writer: &mut W,
) -> Result<(), LogFault>
    ensures ok { IfOk result (λ _. IsLogShown form (map R.remaining readers.items) actor
        (W.contents writer.old) (W.contents writer.new)) }
    ensures err { IfErr result (λ fault. EndsLogBy form names.now (map R.remaining readers.items) actor fault
        (W.contents writer.old) (W.contents writer.new)) }
{
    let book = match read_all(alloc, readers) {
        Ok(book) => book,
        Err(fault) => return Err(LogFault::Audit(fault_of_text(fault))),
    };
    let shown = match judge_log_in(alloc, form, names, book, actor) {
        Ok(shown) => shown,
        Err(fault) => return Err(fault),
    };
    match put(writer, shown.as_slice()) {
        Ok(()) => Ok(()),
        Err(_) => Err(LogFault::Audit(AuditFault::Write)),
    }
}

// Judges a log of what was told, and gives what goes out of that.
fn judge_log_in(
    alloc: Global,
    form: Form,
    names: &[String],
    book: Book,
    actor: Actor,
) -> Result<Vec<u8>, LogFault>
    ensures ok { IfOk result (λ shown. IsObeyed form book actor shown.items) }
    ensures err { IfErr result (IsNotObeyed form names.now book actor) }
{
    let Some(read) = book.into_run(alloc)? else {
        return Err(LogFault::Audit(AuditFault::Nothing));
    };
    let count = entries_judged(&read, actor);
    let restarted = restart(alloc, read)?;
    let run = settled_run(alloc, restarted)?;
    match judge_log(alloc, &run, actor)? {
        LogVerdict::Absent => Err(LogFault::Absent(actor)),
        LogVerdict::Obeys => Ok(obeyed(alloc, form, &run, actor, count)?),
        LogVerdict::Differs(place) => Err(LogFault::Audit(differing(
            alloc, form, names, run, actor, place,
        ))),
    }
}

// What goes out of a log that obeys.
fn obeyed(
    alloc: Global,
    form: Form,
    run: &Run,
    actor: Actor,
    count: u64,
) -> Result<Vec<u8>, AllocError>
    ensures { IfOk result (λ shown. shown.items ≡ spec.obeyed_text form actor count run.now.cuts.items) }
{
    let shown = obeys_text(alloc, form, actor, count)?;
    with_notes(alloc, form, shown.as_slice(), run.cuts.as_slice())
}

fn obeys_text(alloc: Global, form: Form, actor: Actor, count: u64) -> Result<Vec<u8>, AllocError>
    ensures { IfOk result (λ text. text.items ≡ findings.obeys_text form actor count) }
{
    match form {
        Form::Words => {
            let line = obeys_line(alloc, actor, count)?;
            octets_of(alloc, line.as_str(), b"")
        }
        Form::Json => obeys_object(alloc, actor, count),
    }
}

fn obeys_line(alloc: Global, actor: Actor, count: u64) -> Result<String, AllocError>
    ensures { IfOk result (λ line. string_bytes line ≡ findings.obeys_line actor count) }
{
    match actor {
        Actor::Port(port) => format!(in alloc; "port {port} obeys: entries {count}\n"),
        Actor::Source(source) => format!(in alloc; "source {source} obeys: entries {count}\n"),
    }
}

// The fault of a log whose entry of a place is the first that differs.
fn differing(
    alloc: Global,
    form: Form,
    names: &[String],
    run: Run,
    actor: Actor,
    place: u64,
) -> AuditFault
    requires { length run.journals ≡ length run.net.capacities }
    ensures { IsMismatchAt form names.now actor place run result }
{
    let fault = WeaveFault::Mismatch { actor, place };
    let Ok(lines) = mismatch_text(alloc, form, names, &run, Stuck { actor, place }) else {
        return AuditFault::Memory;
    };
    let Ok(lines) = with_notes(alloc, form, lines.as_slice(), run.cuts.as_slice()) else {
        return AuditFault::Memory;
    };
    AuditFault::Stuck { fault, lines, run }
}

// Shows a fault: in words it is told, as far as the writer for that takes it, and as objects it goes out.
fn show_log_fault<W: Write, E: Write>(
    alloc: Global,
    form: Form,
    names: &[String],
    fault: &LogFault,
    writer: &mut W,
    errors: &mut E,
)
    ensures { ShowsLogFault form names.now fault.now (W.contents writer.old) (W.contents writer.new)
        (E.contents errors.old) (E.contents errors.new) }
{
    match form {
        Form::Words => tell_log(alloc, names, fault, errors),
        Form::Json => put_log_fault(alloc, names, fault, writer, errors),
    }
}

// Writes the objects of a fault; one that no text has is told in words.
fn put_log_fault<W: Write, E: Write>(
    alloc: Global,
    names: &[String],
    fault: &LogFault,
    writer: &mut W,
    errors: &mut E,
)
    ensures { PutsLogFault names.now fault.now (W.contents writer.old) (W.contents writer.new)
        (E.contents errors.old) (E.contents errors.new) }
{
    match fault {
        LogFault::Audit(fault) => put_fault(alloc, names, fault, writer, errors),
        LogFault::Absent(actor) => put_made(absent_object(alloc, *actor), writer, errors),
    }
}

// Tells a fault as far as the writer takes it.
fn tell_log<E: Write>(alloc: Global, names: &[String], fault: &LogFault, errors: &mut E)
    ensures { TellsLogFault names.now fault.now (E.contents errors.old) (E.contents errors.new) }
{
    match fault {
        LogFault::Audit(fault) => tell(alloc, names, fault, errors),
        LogFault::Absent(actor) => tell_made(absent_text(alloc, *actor), errors),
    }
}

fn absent_text(alloc: Global, actor: Actor) -> Result<Vec<u8>, AllocError>
    ensures { IfOk result (λ text. text.items ≡ spec.absent_text actor) }
{
    let text = absent_words(alloc, actor)?;
    octets_of(alloc, text.as_str(), b"")
}

fn absent_words(alloc: Global, actor: Actor) -> Result<String, AllocError>
    ensures { IfOk result (λ text. string_bytes text ≡ spec.absent_text actor) }
{
    match actor {
        Actor::Port(port) => format!(in alloc; "fault: port\n{port}: the net has no such port\n"),
        Actor::Source(source) => {
            format!(in alloc; "fault: connection\n{source}: the net has no such connection\n")
        }
    }
}
