//! `abt threads`.
ghost use Rattle.std.specs.Prelude.{◌≡◌};
ghost use Rattle.abt_commands.specs.Threads.{RunsThreads, ShowsRun, tells_events};

use crate::input::{Input, opened};
use crate::threads_advised::show_advised;
use crate::threads_events::tell_run;
use crate::threads_journals::keep_journals;
use crate::threads_objects::say_run;
use abt_cli::ThreadsCommand;
use abt_perform::Plan;
use abt_perform_threads::perform_threads;
use abt_progress::Progress;
use std::alloc::AllocGlobal;
use std::io::{Read, Write};
use std::rt::Files;
use std::sync::Wait;
use std::thread::Threads;

// Runs the scripts of a file's scenario, or else of that of the input that is there, in threads, and writes and tells of the run what the
// command says. Gives the exit status.
pub(crate) fn threads<T, R: Read, W: Write, E: Write, P: Write + Drop>(
    rt: &T,
    progress: &Progress<P>,
    command: &ThreadsCommand,
    advised: bool,
    input: &mut R,
    out: &mut W,
    errors: &mut E,
) -> u8
where
    T: Files + AllocGlobal + Threads + Wait + Sync,
    ensures { RunsThreads advised command.now result (R.remaining input.old) (R.remaining input.new)
        (W.contents out.old) (W.contents out.new) (E.contents errors.old) (E.contents errors.new) }
{
    if command.json {
        return say_run(rt, progress, command, input, out, errors);
    }
    if let Some(journals) = &command.journals {
        let journals = journals.as_str();
        return keep_journals(rt, progress, command, journals, input, out, errors);
    }
    if tells_events(command) {
        return tell_run(rt, progress, command, input, out, errors);
    }
    if advised {
        return show_advised(rt, progress, command, input, out, errors);
    }
    show_run(rt, progress, command, input, out, errors)
}

// Whether the events of the run are told or written.
fn tells_events(command: &ThreadsCommand) -> bool
    ensures { result ≡ tells_events command.now }
{
    command.explain || command.events.is_some()
}

// Shows the run. Of a file that isn't opened the fault alone is told.
fn show_run<T, R: Read, W: Write, E: Write, P: Write + Drop>(
    rt: &T,
    progress: &Progress<P>,
    command: &ThreadsCommand,
    input: &mut R,
    out: &mut W,
    errors: &mut E,
) -> u8
where
    T: Files + AllocGlobal + Threads + Wait + Sync,
    ensures { ShowsRun command.now result (R.remaining input.old) (R.remaining input.new)
        (W.contents out.old) (W.contents out.new) (E.contents errors.old) (E.contents errors.new) }
{
    let plan = Plan::Threads {
        file: None,
        workers: command.workers,
    };
    match opened(rt, progress, &command.file) {
        Ok(Input::Here) => perform_threads(rt, rt.alloc(), &plan, input, out, errors),
        Ok(Input::File(mut file)) => {
            perform_threads(rt, rt.alloc(), &plan, &mut file, out, errors)
        }
        Err(unopened) => unopened.tell_fault(errors),
    }
}
