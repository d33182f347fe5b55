//! Runs of which something is told besides.
ghost use Rattle.std.specs.Prelude.{◌≡◌, ◌⊎◌, Some, string_bytes};
ghost use Rattle.std.specs.Option.{option_map};
ghost use Rattle.abt_perform.specs.Plans.{IsRefused, Prints};
ghost use Rattle.abt_commands.specs.Besides.{IsOfText};
ghost use Rattle.abt_commands.specs.Checked.{EndsBesides, RunsAdvised, RunsChecked, TellsBesides, TellsCheck, TellsCheckFirst, the_run};
ghost use Rattle.abt_commands.specs.Ends.{Quietly};

use crate::advice::{Runs, advise, advise_of_nothing};
use crate::input::{Input, opened};
use crate::unread::tell_unread;
use abt_check::answer_of;
use abt_perform::{Fault, Plan, perform, tell_fault, tell_text};
use abt_progress::Progress;
use abt_text::octets_of;
use std::alloc::{AllocGlobal, Global};
use std::io::{Read, Write};
use std::rt::Files;

// What is told besides.
#[derive(Clone, Copy, Debug, PartialEq, Eq)]
pub(crate) enum Besides {
    // A check of the scenario, and advice of one that has nothing to run.
    Check,
    // Advice alone.
    Advice,
}

// Runs the scenario of a file, or else of the input that is there, tells a check of that text besides, and gives the run's exit status.
pub(crate) fn run_checked<T: Files + AllocGlobal, R: Read, W: Write, E: Write, P: Write + Drop>(
    rt: &T,
    progress: &Progress<P>,
    file: &Option<String>,
    input: &mut R,
    out: &mut W,
    errors: &mut E,
) -> u8
    ensures { RunsChecked file.now result (R.remaining input.old) (R.remaining input.new)
        (W.contents out.old) (W.contents out.new) (E.contents errors.old) (E.contents errors.new) }
{
    let besides = Besides::Check;
    match opened(rt, progress, file) {
        Ok(Input::Here) => over_reader(rt.alloc(), besides, file, input, out, errors),
        Ok(Input::File(mut read)) => over_reader(rt.alloc(), besides, file, &mut read, out, errors),
        Err(unopened) => unopened.tell(errors),
    }
}

// Runs it, tells advice besides, and gives the run's exit status. Of a file that isn't opened the fault alone is told.
pub(crate) fn run_advised<T: Files + AllocGlobal, R: Read, W: Write, E: Write, P: Write + Drop>(
    rt: &T,
    progress: &Progress<P>,
    file: &Option<String>,
    input: &mut R,
    out: &mut W,
    errors: &mut E,
) -> u8
    ensures { RunsAdvised file.now result (R.remaining input.old) (R.remaining input.new)
        (W.contents out.old) (W.contents out.new) (E.contents errors.old) (E.contents errors.new) }
{
    let besides = Besides::Advice;
    match opened(rt, progress, file) {
        Ok(Input::Here) => over_reader(rt.alloc(), besides, file, input, out, errors),
        Ok(Input::File(mut read)) => over_reader(rt.alloc(), besides, file, &mut read, out, errors),
        Err(unopened) => unopened.tell_fault(errors),
    }
}

// Runs the scenario of the text that a reader has left, and tells something of it besides.
fn over_reader<R: Read, W: Write, E: Write>(
    alloc: Global,
    besides: Besides,
    file: &Option<String>,
    reader: &mut R,
    out: &mut W,
    errors: &mut E,
) -> u8
    ensures { EndsBesides besides (option_map string_bytes file.now) result
        (R.remaining reader.old) (R.remaining reader.new)
        (W.contents out.old) (W.contents out.new) (E.contents errors.old) (E.contents errors.new) }
{
    match octets_of(alloc, reader) {
        Ok(octets) => over_text(alloc, besides, file, octets.as_slice(), out, errors),
        Err(fault) => {
            tell_unread(fault, errors);
            1
        }
    }
}

// Runs the scenario of a text, and tells something of it besides.
fn over_text<W: Write, E: Write>(
    alloc: Global,
    besides: Besides,
    file: &Option<String>,
    text: &[u8],
    out: &mut W,
    errors: &mut E,
) -> u8
    ensures status { (result ≡ 0) ⊎ (result ≡ 1) }
    ensures ok { result ≡ 0 → IsOfText (Quietly (Prints the_run))
        (TellsBesides besides (option_map string_bytes file.now)) text.now
        (W.contents out.old) (W.contents out.new) (E.contents errors.old) (E.contents errors.new) }
    ensures err { result ≡ 1 → IsOfText (IsRefused the_run)
        (TellsBesides besides (option_map string_bytes file.now)) text.now
        (W.contents out.old) (W.contents out.new) (E.contents errors.old) (E.contents errors.new) }
{
    let mut left = text;
    let plan = Plan::Run(None);
    let status = perform(alloc, &plan, &mut left, out, errors);
    tell_besides(alloc, besides, file, text, errors);
    status
}

fn tell_besides<E: Write>(
    alloc: Global,
    besides: Besides,
    file: &Option<String>,
    text: &[u8],
    errors: &mut E,
)
    ensures { TellsBesides besides (option_map string_bytes file.now) text.now
        (E.contents errors.old) (E.contents errors.new) }
{
    match besides {
        Besides::Check => tell_check_first(alloc, Runs::Events, text, errors),
        Besides::Advice => advise(alloc, Runs::Events, file, text, errors),
    }
}

// Tells a check of a text, and then advice of one that has nothing to run.
pub(crate) fn tell_check_first<E: Write>(alloc: Global, runs: Runs, text: &[u8], errors: &mut E)
    ensures { TellsCheckFirst runs text.now (E.contents errors.old) (E.contents errors.new) }
{
    tell_check(alloc, text, errors);
    advise_of_nothing(alloc, runs, text, errors);
}

// Tells a check of a text, if it is UTF-8, or want of memory for it.
fn tell_check<E: Write>(alloc: Global, text: &[u8], errors: &mut E)
    ensures { TellsCheck text.now (E.contents errors.old) (E.contents errors.new) }
{
    let Ok(text) = std::str::from_utf8(text) else {
        return;
    };
    match answer_of(alloc, text) {
        Ok(answer) => tell_text(errors, answer.text.as_str()),
        Err(_) => tell_fault(Fault::Memory, errors),
    }
}
