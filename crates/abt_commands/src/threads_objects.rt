//! `abt threads --json`.
ghost use Rattle.std.specs.Prelude.{◌+◌, IfErr, IfOk, OnOk};
ghost use Rattle.abt_text.specs.Streams.{ConsumesAtMost, text_max};
ghost use Rattle.abt_commands.specs.ThreadsObjects.{AreObjectsOf, EndsSaidOver, EndsSaying, IsNoneSaid, IsRunSaid, SaysRun, SaysThreads};

use crate::draw_threads::run_of;
use crate::input::{Input, opened};
use abt_cli::ThreadsCommand;
use abt_json::explanation_json;
use abt_perform::{Fault, tell_fault};
use abt_perform_threads::JudgedRun;
use abt_progress::Progress;
use abt_text::put;
use std::alloc::{AllocError, AllocGlobal, Global};
use std::io::{Read, Write};
use std::rt::Files;
use std::sync::Wait;
use std::thread::Threads;

// Runs the scripts of a file's scenario, or else of that of the input that is there, in threads, says the events that were woven as JSON,
// and gives the exit status.
pub(crate) fn say_run<T, R: Read, W: Write, E: Write, P: Write + Drop>(
    rt: &T,
    progress: &Progress<P>,
    command: &ThreadsCommand,
    input: &mut R,
    out: &mut W,
    errors: &mut E,
) -> u8
where
    T: Files + AllocGlobal + Threads + Wait + Sync,
    ensures { SaysThreads command.now result (R.remaining input.old) (R.remaining input.new)
        (W.contents out.old) (W.contents out.new) (E.contents errors.old) (E.contents errors.new) }
{
    match opened(rt, progress, &command.file) {
        Ok(Input::Here) => over_reader(rt, command.workers, input, out, errors),
        Ok(Input::File(mut file)) => over_reader(rt, command.workers, &mut file, out, errors),
        Err(unopened) => unopened.tell(errors),
    }
}

// Runs the scenario that a reader has left, and says its events.
fn over_reader<T, R: Read, W: Write, E: Write>(
    rt: &T,
    workers: u16,
    reader: &mut R,
    out: &mut W,
    errors: &mut E,
) -> u8
where
    T: AllocGlobal + Threads + Wait + Sync,
    ensures { EndsSaidOver workers result (R.remaining reader.old) (R.remaining reader.new)
        (W.contents out.old) (W.contents out.new) (E.contents errors.old) (E.contents errors.new) }
{
    match said(rt, rt.alloc(), workers, reader, out) {
        Ok(()) => 0,
        Err(fault) => {
            tell_fault(fault, errors);
            1
        }
    }
}

// The same, without telling a fault.
fn said<T: Threads + Wait + Sync, R: Read, W: Write>(
    rt: &T,
    alloc: Global,
    workers: u16,
    reader: &mut R,
    out: &mut W,
) -> Result<(), Fault>
    ensures reads { ConsumesAtMost (R.remaining reader.old) (R.remaining reader.new) (text_max + 1) }
    ensures ok { OnOk result (IsRunSaid workers (R.remaining reader.old) (W.contents out.old)
        (W.contents out.new)) }
    ensures err { IfErr result (λ fault.
        IsNoneSaid workers fault (R.remaining reader.old) (W.contents out.old) (W.contents out.new)) }
{
    match run_of(rt, alloc, workers, reader) {
        Ok(run) => put_objects(alloc, &run, out),
        Err(fault) => Err(fault),
    }
}

// Writes the objects of a run.
fn put_objects<W: Write>(alloc: Global, run: &JudgedRun, out: &mut W) -> Result<(), Fault>
    ensures ok { OnOk result (SaysRun run.now (W.contents out.old) (W.contents out.new)) }
    ensures err { IfErr result
        (λ fault. EndsSaying run.now fault (W.contents out.old) (W.contents out.new)) }
{
    let text = objects_of(alloc, run)?;
    match put(out, text.as_slice()) {
        Ok(()) => Ok(()),
        Err(_) => Err(Fault::Write),
    }
}

// The objects of a run: its events, each with its reason, and the net in the end.
fn objects_of(alloc: Global, run: &JudgedRun) -> Result<Vec<u8>, AllocError>
    ensures { IfOk result (λ text. AreObjectsOf run.now text.items) }
{
    let JudgedRun { ran, judged } = run;
    explanation_json(alloc, &ran.net, judged.events.as_slice(), &[])
}
