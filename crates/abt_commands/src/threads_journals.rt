//! `abt threads --journals`.
ghost use Rattle.std.specs.Prelude.{◌≡◌, ◌⊎◌, true, false};
ghost use Rattle.std.specs.Io.KnownBytes.{Keeps};
ghost use Rattle.abt_commands.specs.ThreadsJournals.{EndsKeptOver, IsNamed, IsRemoved, IsRunKept, IsRunUnkept, IsUnnamed, KeepsJournals, unmade_line};

use crate::input::{Input, opened};
use crate::unwritten::{tell_reason, tell_unwritten};
use abt_cli::ThreadsCommand;
use abt_files::{Output, Unkept, Why, create_output};
use abt_perform::{Fault, MEMORY_LINE, OPEN_LINE, tell_fault};
use abt_perform_threads::{KeepFault, Unrun, keep_all, tell_unkept};
use abt_progress::Progress;
use std::alloc::AllocGlobal;
use std::io::{Read, Write};
use std::rt::Files;
use std::sync::Wait;
use std::thread::Threads;

// What is told of journals that are written and aren't kept.
const JOURNALS_LINE: &str = "fault: journals\n";

// Runs the scenario of a file, or else of the input that is there, in threads, writes its journals to the file for them, and gives the
// exit status.
pub(crate) fn keep_journals<T, R: Read, W: Write, E: Write, P: Write + Drop>(
    rt: &T,
    progress: &Progress<P>,
    command: &ThreadsCommand,
    journals: &str,
    input: &mut R,
    out: &mut W,
    errors: &mut E,
) -> u8
where
    T: Files + AllocGlobal + Threads + Wait + Sync,
    ensures { KeepsJournals command.now journals.now result (R.remaining input.old) (R.remaining input.new)
        (W.contents out.old) (W.contents out.new) (E.contents errors.old) (E.contents errors.new) }
{
    let workers = command.workers;
    match opened(rt, progress, &command.file) {
        Ok(Input::Here) => over_reader(rt, workers, journals, input, out, errors),
        Ok(Input::File(mut file)) => over_reader(rt, workers, journals, &mut file, out, errors),
        Err(unopened) => unopened.tell(errors),
    }
}

// Runs the scenario that a reader has left, and writes its journals. Their file is made once the scenario is read.
fn over_reader<T, R: Read, W: Write, E: Write>(
    rt: &T,
    workers: u16,
    journals: &str,
    reader: &mut R,
    out: &mut W,
    errors: &mut E,
) -> u8
where
    T: Files + AllocGlobal + Threads + Wait + Sync,
    ensures { EndsKeptOver workers journals.now result (R.remaining reader.old) (R.remaining reader.new)
        (W.contents out.old) (W.contents out.new) (E.contents errors.old) (E.contents errors.new) }
{
    let unrun = match Unrun::read_from(rt.alloc(), reader) {
        Ok(unrun) => unrun,
        Err(fault) => {
            tell_fault(Fault::from(fault), errors);
            return 1;
        }
    };
    match create_output(rt, journals) {
        Ok(output) => write_run(rt, workers, journals, unrun, output, out, errors),
        Err(why) => {
            tell_unwritten(rt.alloc(), line_of(why), journals, why, errors);
            1
        }
    }
}

// What is told if the file for the journals can't be made.
fn line_of(why: Why) -> &'static str
    ensures { result.now ≡ unmade_line why }
{
    match why {
        Why::Memory => MEMORY_LINE,
        _ => OPEN_LINE,
    }
}

// Runs a scenario, and writes its journals to an output, also of a run that isn't shown whole. If they aren't written whole there is no
// such file.
fn write_run<T, W: Write, E: Write>(
    rt: &T,
    workers: u16,
    journals: &str,
    unrun: Unrun,
    mut output: Output<T::File>,
    out: &mut W,
    errors: &mut E,
) -> u8
where
    T: Files + AllocGlobal + Threads + Wait + Sync,
    ensures status { (result ≡ 0) ⊎ (result ≡ 1) }
    ensures ok { result ≡ 0 → IsRunKept workers unrun output.log.calls (W.contents out.old) (W.contents out.new) }
    ensures quiet { result ≡ 0 → Keeps (E.contents errors.old) (E.contents errors.new) }
    ensures err { result ≡ 1 → IsRunUnkept workers journals.now unrun output.log.calls (W.contents out.old) (W.contents out.new)
        (E.contents errors.old) (E.contents errors.new) }
{
    match keep_all(rt, rt.alloc(), workers, unrun, out, &mut output) {
        Ok(()) => {
            if is_named(rt, journals, output, errors) {
                0
            } else {
                1
            }
        }
        Err(KeepFault::Unshown(fault)) => {
            tell_fault(fault, errors);
            is_named(rt, journals, output, errors);
            1
        }
        Err(fault) => {
            tell_unkept(fault, errors);
            remove(rt, journals, output, errors);
            1
        }
    }
}

// Removes an output whose text isn't whole, and tells why it isn't, if a write failed.
fn remove<T: Files + AllocGlobal, E: Write>(
    rt: &T,
    journals: &str,
    output: Output<T::File>,
    errors: &mut E,
)
    ensures { IsRemoved journals.now output.log.calls (E.contents errors.old) (E.contents errors.new) }
{
    if let Some(why) = output.fault() {
        tell_reason(rt.alloc(), journals, why, errors);
    }
    let _gone = output.discard(rt);
}

// Gives an output with all journals its name, and says whether it has it. If it can't be that is told.
fn is_named<T: Files + AllocGlobal, E: Write>(
    rt: &T,
    journals: &str,
    output: Output<T::File>,
    errors: &mut E,
) -> bool
    ensures named { result ≡ true → IsNamed output.log.calls × Keeps (E.contents errors.old) (E.contents errors.new) }
    ensures either { (IsNamed output.log.calls × Keeps (E.contents errors.old) (E.contents errors.new))
        ⊎ IsUnnamed journals.now output.log.calls (E.contents errors.old) (E.contents errors.new) }
    ensures unnamed { result ≡ false → IsUnnamed journals.now output.log.calls (E.contents errors.old) (E.contents errors.new) }
{
    match output.keep(rt) {
        Ok(_kept) => true,
        Err(Unkept { why, log: _ }) => {
            tell_unwritten(rt.alloc(), JOURNALS_LINE, journals, why, errors);
            false
        }
    }
}
