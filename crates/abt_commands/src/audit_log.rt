//! `abt audit --port` and `--source`.
ghost use Rattle.std.specs.Prelude.{◌≡◌, ◌⊎◌, true};
ghost use Rattle.std.specs.Io.KnownBytes.{Keeps};
ghost use Rattle.abt_commands.specs.Audits.{TakesToAudit, are_none};
ghost use Rattle.abt_commands.specs.AuditsLog.{AuditsLog, IsLogAudited, IsLogRefused};

use crate::audit::{form_of, open_all};
use abt_audit::perform_log_audit;
use abt_cli::LogCommand;
use abt_perform::{MEMORY_LINE, tell_text};
use abt_progress::Progress;
use std::alloc::{AllocGlobal, Global};
use std::io::{Read, Write};
use std::rt::Files;

// Judges the log of one port or one source, out of some files, or else of the input that is there, and gives the exit status.
pub(crate) fn audit_log<T: Files + AllocGlobal, R: Read, W: Write, E: Write, P: Write + Drop>(
    rt: &T,
    progress: &Progress<P>,
    command: &LogCommand,
    input: &mut R,
    out: &mut W,
    errors: &mut E,
) -> u8
    ensures { AuditsLog command.now result (R.remaining input.old) (R.remaining input.new)
        (W.contents out.old) (W.contents out.new) (E.contents errors.old) (E.contents errors.new) }
{
    judge_texts(rt, progress, command, input, out, errors)
}

fn judge_texts<T: Files + AllocGlobal, R: Read, W: Write, E: Write, P: Write + Drop>(
    rt: &T,
    progress: &Progress<P>,
    command: &LogCommand,
    input: &mut R,
    out: &mut W,
    errors: &mut E,
) -> u8
    ensures status { (result ≡ 0) ⊎ (result ≡ 1) }
    ensures reads { TakesToAudit command.now.files.items (R.remaining input.old) (R.remaining input.new) }
    ensures ok { result ≡ 0 → IsLogAudited command.now (R.remaining input.old) (W.contents out.old)
        (W.contents out.new) }
    ensures quiet { result ≡ 0 → Keeps (E.contents errors.old) (E.contents errors.new) }
    ensures err { result ≡ 1 → IsLogRefused command.now (R.remaining input.old)
        (W.contents out.old) (W.contents out.new) (E.contents errors.old) (E.contents errors.new) }
{
    let names = command.files.as_slice();
    if names.is_empty() {
        return judge_input(rt.alloc(), command, input, out, errors);
    }
    match open_all(rt, progress, names) {
        Ok(files) => {
            let form = form_of(command.json);
            perform_log_audit(rt.alloc(), form, names, files, command.actor, out, errors)
        }
        Err(unopened) => unopened.tell(errors),
    }
}

// Judges a log of the input that is there, where no file is named.
fn judge_input<R: Read, W: Write, E: Write>(
    alloc: Global,
    command: &LogCommand,
    input: &mut R,
    out: &mut W,
    errors: &mut E,
) -> u8
    requires { are_none command.now.files.items ≡ true }
    ensures status { (result ≡ 0) ⊎ (result ≡ 1) }
    ensures ok { result ≡ 0 → IsLogAudited command.now (R.remaining input.old) (W.contents out.old)
        (W.contents out.new) }
    ensures quiet { result ≡ 0 → Keeps (E.contents errors.old) (E.contents errors.new) }
    ensures err { result ≡ 1 → IsLogRefused command.now (R.remaining input.old)
        (W.contents out.old) (W.contents out.new) (E.contents errors.old) (E.contents errors.new) }
{
    let mut readers = Vec::new(alloc);
    if readers.push(input).is_err() {
        tell_text(errors, MEMORY_LINE);
        return 1;
    }
    let names = command.files.as_slice();
    let form = form_of(command.json);
    perform_log_audit(alloc, form, names, readers, command.actor, out, errors)
}
