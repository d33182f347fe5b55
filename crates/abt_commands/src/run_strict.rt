//! `abt run --strict`.
ghost use Rattle.std.specs.Prelude.{◌≡◌, ◌⊎◌, IfOk, Some, string_bytes};
ghost use Rattle.std.specs.Io.KnownBytes.{Keeps};
ghost use Rattle.abt_check.specs.Strict.{IsFirstUnable};
ghost use Rattle.abt_commands.specs.Strict.{EndsStrict, IsEnabled, IsRunRefused, IsUnable, PrintsRun, RunsStrict, unable_text};

use crate::input::{Input, opened};
use crate::unread::tell_unread;
use abt_check::first_unable;
use abt_json::{JsonPlan, perform_json};
use abt_perform::{Fault, Plan, perform, tell_fault, tell_text};
use abt_progress::Progress;
use abt_text::octets_of;
use std::alloc::{AllocError, AllocGlobal, Global};
use std::io::{Read, Write};
use std::rt::Files;

// Runs the scenario of a file, or else of the input that is there, reports on it in lines or as JSON, and refuses it behind that if an
// event isn't enabled. Gives the exit status.
pub(crate) fn run_strict<T: Files + AllocGlobal, R: Read, W: Write, E: Write, P: Write + Drop>(
    rt: &T,
    progress: &Progress<P>,
    file: &Option<String>,
    json: bool,
    input: &mut R,
    out: &mut W,
    errors: &mut E,
) -> u8
    ensures { RunsStrict json file.now result (R.remaining input.old) (R.remaining input.new)
        (W.contents out.old) (W.contents out.new) (E.contents errors.old) (E.contents errors.new) }
{
    match opened(rt, progress, file) {
        Ok(Input::Here) => over_reader(rt.alloc(), json, input, out, errors),
        Ok(Input::File(mut read)) => over_reader(rt.alloc(), json, &mut read, out, errors),
        Err(unopened) => unopened.tell(errors),
    }
}

fn over_reader<R: Read, W: Write, E: Write>(
    alloc: Global,
    json: bool,
    reader: &mut R,
    out: &mut W,
    errors: &mut E,
) -> u8
    ensures { EndsStrict json result (R.remaining reader.old) (R.remaining reader.new)
        (W.contents out.old) (W.contents out.new) (E.contents errors.old) (E.contents errors.new) }
{
    match octets_of(alloc, reader) {
        Ok(octets) => over_text(alloc, json, octets.as_slice(), out, errors),
        Err(fault) => {
            tell_unread(fault, errors);
            1
        }
    }
}

// Runs the scenario of a text, and looks for an event that isn't enabled.
fn over_text<W: Write, E: Write>(
    alloc: Global,
    json: bool,
    text: &[u8],
    out: &mut W,
    errors: &mut E,
) -> u8
    ensures status { (result ≡ 0) ⊎ (result ≡ 1) }
    ensures ok { result ≡ 0 → PrintsRun json (Some text.now) (W.contents out.old) (W.contents out.new)
        × IsEnabled text.now (E.contents errors.old) (E.contents errors.new) }
    ensures err { result ≡ 1 → IsRunRefused json (Some text.now)
        (W.contents out.old) (W.contents out.new) (E.contents errors.old) (E.contents errors.new)
        ⊎ (PrintsRun json (Some text.now) (W.contents out.old) (W.contents out.new)
        × IsUnable text.now (E.contents errors.old) (E.contents errors.new)) }
{
    let status = report(alloc, json, text, out, errors);
    if status == 0 {
        look(alloc, text, errors)
    } else {
        1
    }
}

// Runs it, and reports on it.
fn report<W: Write, E: Write>(
    alloc: Global,
    json: bool,
    text: &[u8],
    out: &mut W,
    errors: &mut E,
) -> u8
    ensures status { (result ≡ 0) ⊎ (result ≡ 1) }
    ensures ok { result ≡ 0 → PrintsRun json (Some text.now) (W.contents out.old) (W.contents out.new)
        × Keeps (E.contents errors.old) (E.contents errors.new) }
    ensures err { result ≡ 1 → IsRunRefused json (Some text.now)
        (W.contents out.old) (W.contents out.new) (E.contents errors.old) (E.contents errors.new) }
{
    let mut left = text;
    if json {
        perform_json(alloc, &JsonPlan::Run(None), &mut left, out, errors)
    } else {
        perform(alloc, &Plan::Run(None), &mut left, out, errors)
    }
}

// Looks for an event that isn't enabled, and tells the first.
fn look<E: Write>(alloc: Global, text: &[u8], errors: &mut E) -> u8
    ensures status { (result ≡ 0) ⊎ (result ≡ 1) }
    ensures ok { result ≡ 0 → IsEnabled text.now (E.contents errors.old) (E.contents errors.new) }
    ensures err { result ≡ 1 → IsUnable text.now (E.contents errors.old) (E.contents errors.new) }
{
    match first_unable(alloc, text) {
        Ok(None) => 0,
        Ok(Some(first)) => tell_unable(alloc, text, first.as_str(), errors),
        Err(_) => {
            tell_fault(Fault::Memory, errors);
            1
        }
    }
}

// Tells the first event of a text that isn't enabled, unless memory is refused, and gives the exit status.
fn tell_unable<E: Write>(alloc: Global, text: &[u8], first: &str, errors: &mut E) -> u8
    requires { IsFirstUnable text.now (Some first.now) }
    ensures status { result ≡ 1 }
    ensures told { IsUnable text.now (E.contents errors.old) (E.contents errors.new) }
{
    match unable_text(alloc, first) {
        Ok(said) => tell_text(errors, said.as_str()),
        Err(_) => tell_fault(Fault::Memory, errors),
    }
    1
}

// What is told of an event that isn't enabled.
fn unable_text(alloc: Global, first: &str) -> Result<String, AllocError>
    ensures { IfOk result (λ text. string_bytes text ≡ unable_text first.now) }
{
    format!(in alloc; "fault: strict\n{first}\n")
}
