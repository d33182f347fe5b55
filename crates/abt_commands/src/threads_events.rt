//! `abt threads --explain` and `abt threads --events`.
ghost use Rattle.std.specs.Prelude.{◌≡◌, ◌⊎◌};
ghost use Rattle.abt_commands.specs.ThreadsEvents.{EndsToldOver, IsRunTold, IsTold, IsUnfinished, IsUntold, TellsCheckBesides, TellsEventsBesides, TellsRunOf, TellsSaved, TellsUnsaved};

use crate::advice::Runs;
use crate::input::{Input, opened};
use crate::run_besides::tell_check_first;
use crate::saving::save_if_named;
use crate::unread::tell_unread;
use abt_cli::ThreadsCommand;
use abt_explain::tell_events;
use abt_perform::tell_fault;
use abt_perform_threads::{JudgedRun, show_scenario};
use abt_progress::Progress;
use abt_text::octets_of;
use std::alloc::{AllocGlobal, Global};
use std::io::{Read, Write};
use std::rt::Files;
use std::sync::Wait;
use std::thread::Threads;

// Runs the scenario of a file, or else of the input that is there, in threads, tells and writes its events as the command says, and gives
// the exit status.
pub(crate) fn tell_run<T, R: Read, W: Write, E: Write, P: Write + Drop>(
    rt: &T,
    progress: &Progress<P>,
    command: &ThreadsCommand,
    input: &mut R,
    out: &mut W,
    errors: &mut E,
) -> u8
where
    T: Files + AllocGlobal + Threads + Wait + Sync,
    ensures { TellsRunOf command.now result (R.remaining input.old) (R.remaining input.new)
        (W.contents out.old) (W.contents out.new) (E.contents errors.old) (E.contents errors.new) }
{
    match opened(rt, progress, &command.file) {
        Ok(Input::Here) => over_reader(rt, command, input, out, errors),
        Ok(Input::File(mut file)) => over_reader(rt, command, &mut file, out, errors),
        Err(unopened) => unopened.tell(errors),
    }
}

// Runs the scenario that a reader has left, and tells and writes its events as the command says.
fn over_reader<T, R: Read, W: Write, E: Write>(
    rt: &T,
    command: &ThreadsCommand,
    reader: &mut R,
    out: &mut W,
    errors: &mut E,
) -> u8
where
    T: Files + AllocGlobal + Threads + Wait + Sync,
    ensures { EndsToldOver command.now result (R.remaining reader.old) (R.remaining reader.new)
        (W.contents out.old) (W.contents out.new) (E.contents errors.old) (E.contents errors.new) }
{
    match octets_of(rt.alloc(), reader) {
        Ok(octets) => over_text(rt, command, octets.as_slice(), out, errors),
        Err(fault) => {
            tell_unread(fault, errors);
            1
        }
    }
}

// Runs the scenario of a text, and tells and writes its events as the command says. The check comes last.
fn over_text<T, W: Write, E: Write>(
    rt: &T,
    command: &ThreadsCommand,
    text: &[u8],
    out: &mut W,
    errors: &mut E,
) -> u8
where
    T: Files + AllocGlobal + Threads + Wait + Sync,
    ensures status { (result ≡ 0) ⊎ (result ≡ 1) }
    ensures ok { result ≡ 0 → IsTold command.now text.now (W.contents out.old) (W.contents out.new)
        (E.contents errors.old) (E.contents errors.new) }
    ensures err { result ≡ 1 → IsUntold command.now text.now (W.contents out.old) (W.contents out.new)
        (E.contents errors.old) (E.contents errors.new) }
{
    let status = run_text(rt, command, text, out, errors);
    check_besides(rt.alloc(), command.explain, text, errors);
    status
}

// Runs a text, and tells and writes the events of that run.
fn run_text<T, W: Write, E: Write>(
    rt: &T,
    command: &ThreadsCommand,
    text: &[u8],
    out: &mut W,
    errors: &mut E,
) -> u8
where
    T: Files + AllocGlobal + Threads + Wait + Sync,
    ensures status { (result ≡ 0) ⊎ (result ≡ 1) }
    ensures ok { result ≡ 0 → IsRunTold command.now text.now (W.contents out.old) (W.contents out.new)
        (E.contents errors.old) (E.contents errors.new) }
    ensures err { result ≡ 1 → IsUnfinished command.now text.now (W.contents out.old) (W.contents out.new)
        (E.contents errors.old) (E.contents errors.new) }
{
    let mut left = text;
    match show_scenario(rt, rt.alloc(), command.workers, &mut left, out) {
        Ok(run) => tell_judged(rt, command, &run, errors),
        Err(fault) => {
            tell_fault(fault, errors);
            1
        }
    }
}

// Writes the events of a run to the file for them, and tells them, as the command says.
fn tell_judged<T: Files + AllocGlobal, E: Write>(
    rt: &T,
    command: &ThreadsCommand,
    run: &JudgedRun,
    errors: &mut E,
) -> u8
    ensures status { (result ≡ 0) ⊎ (result ≡ 1) }
    ensures ok { result ≡ 0 → TellsSaved command.now run.now (E.contents errors.old) (E.contents errors.new) }
    ensures err { result ≡ 1 → TellsUnsaved command.now run.now (E.contents errors.old)
        (E.contents errors.new) }
{
    let JudgedRun { ran, judged } = run;
    let events = judged.events.as_slice();
    let status = save_if_named(rt, &command.events, &ran.net, events, errors);
    events_besides(rt.alloc(), command.explain, run, errors);
    status
}

// Tells the events of a run, if they are to be told.
fn events_besides<E: Write>(alloc: Global, explain: bool, run: &JudgedRun, errors: &mut E)
    ensures { TellsEventsBesides explain run.now (E.contents errors.old) (E.contents errors.new) }
{
    if explain {
        let JudgedRun { ran, judged } = run;
        tell_events(alloc, &ran.net, judged.events.as_slice(), errors);
    }
}

// Tells the check of a text, if events are to be told.
fn check_besides<E: Write>(alloc: Global, explain: bool, text: &[u8], errors: &mut E)
    ensures { TellsCheckBesides explain text.now (E.contents errors.old) (E.contents errors.new) }
{
    if explain {
        tell_check_first(alloc, Runs::Scripts, text, errors);
    }
}
