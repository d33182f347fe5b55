//! `abt run`.
ghost use Rattle.abt_commands.specs.Runs.{Runs, RunsAsJson, RunsPlain};

use crate::input::{Input, opened};
use crate::run_besides::{run_advised, run_checked};
use crate::run_strict::run_strict;
use abt_json::{JsonPlan, perform_json};
use abt_perform::{Plan, perform};
use abt_progress::Progress;
use std::alloc::AllocGlobal;
use std::io::{Read, Write};
use std::rt::Files;

// Runs the scenario of a file, or else of the input that is there, reports on it in lines or as JSON, checks it, gives advice or is strict
// besides, and gives the exit status.
pub(crate) fn run<T: Files + AllocGlobal, R: Read, W: Write, E: Write, P: Write + Drop>(
    rt: &T,
    progress: &Progress<P>,
    file: &Option<String>,
    strict: bool,
    json: bool,
    explain: bool,
    advised: bool,
    input: &mut R,
    out: &mut W,
    errors: &mut E,
) -> u8
    ensures { Runs strict json explain advised file.now result (R.remaining input.old) (R.remaining input.new)
        (W.contents out.old) (W.contents out.new) (E.contents errors.old) (E.contents errors.new) }
{
    if strict {
        return run_strict(rt, progress, file, json, input, out, errors);
    }
    if json {
        return run_as_json(rt, progress, file, input, out, errors);
    }
    if explain {
        return run_checked(rt, progress, file, input, out, errors);
    }
    if advised {
        return run_advised(rt, progress, file, input, out, errors);
    }
    run_plain(rt, progress, file, input, out, errors)
}

// Reports on the run in lines. Of a file that isn't opened the fault alone is told.
fn run_plain<T: Files + AllocGlobal, R: Read, W: Write, E: Write, P: Write + Drop>(
    rt: &T,
    progress: &Progress<P>,
    file: &Option<String>,
    input: &mut R,
    out: &mut W,
    errors: &mut E,
) -> u8
    ensures { RunsPlain file.now result (R.remaining input.old) (R.remaining input.new)
        (W.contents out.old) (W.contents out.new) (E.contents errors.old) (E.contents errors.new) }
{
    let plan = Plan::Run(None);
    match opened(rt, progress, file) {
        Ok(Input::Here) => perform(rt.alloc(), &plan, input, out, errors),
        Ok(Input::File(mut file)) => perform(rt.alloc(), &plan, &mut file, out, errors),
        Err(unopened) => unopened.tell_fault(errors),
    }
}

// Reports on the run as JSON.
fn run_as_json<T: Files + AllocGlobal, R: Read, W: Write, E: Write, P: Write + Drop>(
    rt: &T,
    progress: &Progress<P>,
    file: &Option<String>,
    input: &mut R,
    out: &mut W,
    errors: &mut E,
) -> u8
    ensures { RunsAsJson file.now result (R.remaining input.old) (R.remaining input.new)
        (W.contents out.old) (W.contents out.new) (E.contents errors.old) (E.contents errors.new) }
{
    let plan = JsonPlan::Run(None);
    match opened(rt, progress, file) {
        Ok(Input::Here) => perform_json(rt.alloc(), &plan, input, out, errors),
        Ok(Input::File(mut file)) => perform_json(rt.alloc(), &plan, &mut file, out, errors),
        Err(unopened) => unopened.tell(errors),
    }
}
