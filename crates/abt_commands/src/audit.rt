//! `abt audit`.
ghost use Rattle.std.specs.Prelude.{◌≡◌, ◌⊎◌, true, Any, IfErr, IfOk, IfSome, IsErr, IsOk, length, string_bytes};
ghost use Rattle.std.specs.Io.KnownBytes.{Keeps};
ghost use Rattle.abt_audit.specs.Parts.{IsSizedRun};
ghost use Rattle.abt_commands.specs.Audits.{Audits, AuditsJournals, IsAuditedAs, IsPartSavedIfNamed, IsUnaudited, TakesToAudit, TellsUnsaved, are_none, events_file_of, form_of};
ghost use Rattle.abt_commands.specs.Saved.{IsSavedIfNamed, IsUnsavedIfNamed};

use crate::audit_picture::draw_audit;
use crate::opening::{Unopened, Why, open_named};
use crate::saving::save_if_named;
use abt_audit::{AuditedRun, Form, show_audit, weave_part};
use abt_cli::AuditCommand;
use abt_journal_text::Run;
use abt_perform::{MEMORY_LINE, tell_text};
use abt_progress::{Progress, Watched};
use std::alloc::{AllocGlobal, Global};
use std::io::{Read, Write};
use std::rt::Files;

// Audits the journals of some files, or else of the input that is there, writes and draws their events as the command says, and gives the
// exit status.
pub(crate) fn audit<T: Files + AllocGlobal, R: Read, W: Write, E: Write, P: Write + Drop>(
    rt: &T,
    progress: &Progress<P>,
    command: &AuditCommand,
    input: &mut R,
    out: &mut W,
    errors: &mut E,
) -> u8
    ensures { Audits command.now result (R.remaining input.old) (R.remaining input.new)
        (W.contents out.old) (W.contents out.new) (E.contents errors.old) (E.contents errors.new) }
{
    match &command.picture {
        Some(picture) => draw_audit(rt, progress, command, picture, input, out, errors),
        None => audit_journals(rt, progress, command, input, out, errors),
    }
}

// Audits journals, and writes the events to the file for them: all once they are shown, or those before the journals got stuck. If there are
// none that file is left as it was.
fn audit_journals<T: Files + AllocGlobal, R: Read, W: Write, E: Write, P: Write + Drop>(
    rt: &T,
    progress: &Progress<P>,
    command: &AuditCommand,
    input: &mut R,
    out: &mut W,
    errors: &mut E,
) -> u8
    ensures { AuditsJournals command.now result (R.remaining input.old) (R.remaining input.new)
        (W.contents out.old) (W.contents out.new) (E.contents errors.old) (E.contents errors.new) }
{
    match show_texts(rt, progress, command, input, out, errors) {
        Ok(run) => save_audited(rt, command, &run, errors),
        Err(left) => {
            let _status = save_left(rt, command, &left, errors);
            1
        }
    }
}

// Writes the events before journals got stuck to the file for them, if there is to be one and they did, or tells why not.
pub(crate) fn save_left<T: Files + AllocGlobal, E: Write>(
    rt: &T,
    command: &AuditCommand,
    left: &Option<Run>,
    errors: &mut E,
) -> u8
    requires { IfSome left.now IsSizedRun }
    ensures status { (result ≡ 0) ⊎ (result ≡ 1) }
    ensures saved { result ≡ 0 → IfSome left.now (IsPartSavedIfNamed (events_file_of command.now)) }
    ensures told { TellsUnsaved (events_file_of command.now) (E.contents errors.old) (E.contents errors.new) }
{
    let (Some(run), Some(_)) = (left, &command.events) else {
        return 0;
    };
    match weave_part(rt.alloc(), run) {
        Ok(part) => {
            let events = part.events.as_slice();
            save_if_named(rt, &command.events, &run.net, events, errors)
        }
        Err(_) => {
            tell_text(errors, MEMORY_LINE);
            1
        }
    }
}

// Writes the events of an audited run to the file for them, if there is to be one. Gives the exit status.
fn save_audited<T: Files + AllocGlobal, E: Write>(
    rt: &T,
    command: &AuditCommand,
    run: &AuditedRun,
    errors: &mut E,
) -> u8
    ensures status { (result ≡ 0) ⊎ (result ≡ 1) }
    ensures ok { result ≡ 0 → IsSavedIfNamed (events_file_of command.now) run.now.net run.now.audited.events }
    ensures quiet { result ≡ 0 → Keeps (E.contents errors.old) (E.contents errors.new) }
    ensures err { result ≡ 1 → IsUnsavedIfNamed (events_file_of command.now) run.now.net run.now.audited.events
        (E.contents errors.old) (E.contents errors.new) }
{
    let events = run.audited.events.as_slice();
    save_if_named(rt, &command.events, &run.net, events, errors)
}

// Audits journals and hands out the net and the events. `Err`: it is told why there are none, in the form that the command names; it has
// the run whose journals are stuck, if they are.
pub(crate) fn show_texts<T: Files + AllocGlobal, R: Read, W: Write, E: Write, P: Write + Drop>(
    rt: &T,
    progress: &Progress<P>,
    command: &AuditCommand,
    input: &mut R,
    out: &mut W,
    errors: &mut E,
) -> Result<AuditedRun, Option<Run>>
    ensures reads { TakesToAudit command.now.files.items (R.remaining input.old) (R.remaining input.new) }
    ensures ok { IfOk result (IsAuditedAs (form_of command.now.json) command.now.files.items
        (R.remaining input.old) (W.contents out.old) (W.contents out.new)) }
    ensures quiet { IsOk result → Keeps (E.contents errors.old) (E.contents errors.new) }
    ensures sized { IfErr result (λ left. IfSome left IsSizedRun) }
    ensures err { IsErr result →
        IsUnaudited (form_of command.now.json) command.now.files.items (R.remaining input.old)
        (W.contents out.old) (W.contents out.new) (E.contents errors.old) (E.contents errors.new) }
{
    let form = form_of(command.json);
    let names = command.files.as_slice();
    if names.is_empty() {
        return show_input(rt.alloc(), form, names, input, out, errors);
    }
    match open_all(rt, progress, names) {
        Ok(files) => show_audit(rt.alloc(), form, names, files, out, errors),
        Err(unopened) => {
            let _status = unopened.tell(errors);
            Err(None)
        }
    }
}

// The form in which it is told what an audit finds.
pub(crate) fn form_of(json: bool) -> Form
    ensures { result ≡ form_of json }
{
    if json { Form::Json } else { Form::Words }
}

// Audits the journals of the input that is there, where no file is named, and hands out the net and the events.
fn show_input<R: Read, W: Write, E: Write>(
    alloc: Global,
    form: Form,
    names: &[String],
    input: &mut R,
    out: &mut W,
    errors: &mut E,
) -> Result<AuditedRun, Option<Run>>
    requires { are_none names.now ≡ true }
    ensures ok { IfOk result (IsAuditedAs form names.now (R.remaining input.old) (W.contents out.old)
        (W.contents out.new)) }
    ensures quiet { IsOk result → Keeps (E.contents errors.old) (E.contents errors.new) }
    ensures sized { IfErr result (λ left. IfSome left IsSizedRun) }
    ensures err { IsErr result →
        IsUnaudited form names.now (R.remaining input.old) (W.contents out.old) (W.contents out.new)
        (E.contents errors.old) (E.contents errors.new) }
{
    let mut readers = Vec::new(alloc);
    if readers.push(input).is_err() {
        tell_text(errors, MEMORY_LINE);
        return Err(None);
    }
    show_audit(alloc, form, names, readers, out, errors)
}

// The files of these names, in their order, counted as they are read; or the first that can't be read.
pub(crate) fn open_all<'a, 'b, T: Files + AllocGlobal, P: Write + Drop>(
    rt: &T,
    progress: &'a Progress<P>,
    names: &'b [String],
) -> Result<Vec<Watched<'a, T::File, P>>, Unopened<'b>>
    ensures ok { IfOk result (λ files. length files.items ≡ length names.now) }
    ensures err { IfErr result (λ unopened. Any (λ file. string_bytes file ≡ unopened.name.now) names.now) }
{
    let mut files = Vec::new(rt.alloc());
    for name in names {
        let name = name.as_str();
        let file = match open_named(rt, name) {
            Ok(file) => file,
            Err(unopened) => return Err(unopened),
        };
        if files.push(Watched::new(file, progress)).is_err() {
            let why = Why::Memory;
            return Err(Unopened { name, why });
        }
    }
    Ok(files)
}
