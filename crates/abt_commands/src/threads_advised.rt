//! `abt threads`, with advice behind what is shown.
ghost use Rattle.std.specs.Prelude.{◌≡◌, ◌⊎◌, string_bytes};
ghost use Rattle.std.specs.Option.{option_map};
ghost use Rattle.abt_perform_threads.specs.Performing.{IsRefused, IsShown};
ghost use Rattle.abt_commands.specs.Advice.{TellsAdvice};
ghost use Rattle.abt_commands.specs.Besides.{IsOfText};
ghost use Rattle.abt_commands.specs.Ends.{Quietly};
ghost use Rattle.abt_commands.specs.Threads.{EndsAdvised, ShowsAdvised};
ghost use Rattle.abt_commands.specs.declared.advice.Runs.TheVariants.{Scripts};

use crate::advice::{Runs, advise};
use crate::input::{Input, opened};
use crate::unread::tell_unread;
use abt_cli::ThreadsCommand;
use abt_perform::Plan;
use abt_perform_threads::perform_threads;
use abt_progress::Progress;
use abt_text::octets_of;
use std::alloc::AllocGlobal;
use std::io::{Read, Write};
use std::rt::Files;
use std::sync::Wait;
use std::thread::Threads;

// Shows the run of a file's scenario, or else of that of the input that is there, and tells advice behind that. Of a file that isn't
// opened the fault alone is told.
pub(crate) fn show_advised<T, R: Read, W: Write, E: Write, P: Write + Drop>(
    rt: &T,
    progress: &Progress<P>,
    command: &ThreadsCommand,
    input: &mut R,
    out: &mut W,
    errors: &mut E,
) -> u8
where
    T: Files + AllocGlobal + Threads + Wait + Sync,
    ensures { ShowsAdvised command.now result (R.remaining input.old) (R.remaining input.new)
        (W.contents out.old) (W.contents out.new) (E.contents errors.old) (E.contents errors.new) }
{
    match opened(rt, progress, &command.file) {
        Ok(Input::Here) => over_reader(rt, command, input, out, errors),
        Ok(Input::File(mut file)) => over_reader(rt, command, &mut file, out, errors),
        Err(unopened) => unopened.tell_fault(errors),
    }
}

// Shows the run of the text that a reader has left, and tells advice.
fn over_reader<T, R: Read, W: Write, E: Write>(
    rt: &T,
    command: &ThreadsCommand,
    reader: &mut R,
    out: &mut W,
    errors: &mut E,
) -> u8
where
    T: AllocGlobal + Threads + Wait + Sync,
    ensures { EndsAdvised command.now result (R.remaining reader.old) (R.remaining reader.new)
        (W.contents out.old) (W.contents out.new) (E.contents errors.old) (E.contents errors.new) }
{
    match octets_of(rt.alloc(), reader) {
        Ok(octets) => over_text(rt, command, octets.as_slice(), out, errors),
        Err(fault) => {
            tell_unread(fault, errors);
            1
        }
    }
}

// Shows the run of a text, and tells advice.
fn over_text<T, W: Write, E: Write>(
    rt: &T,
    command: &ThreadsCommand,
    text: &[u8],
    out: &mut W,
    errors: &mut E,
) -> u8
where
    T: AllocGlobal + Threads + Wait + Sync,
    ensures status { (result ≡ 0) ⊎ (result ≡ 1) }
    ensures ok { result ≡ 0 → IsOfText (Quietly (IsShown command.now.workers))
        (TellsAdvice Scripts (option_map string_bytes command.now.file)) text.now
        (W.contents out.old) (W.contents out.new) (E.contents errors.old) (E.contents errors.new) }
    ensures err { result ≡ 1 → IsOfText (IsRefused command.now.workers)
        (TellsAdvice Scripts (option_map string_bytes command.now.file)) text.now
        (W.contents out.old) (W.contents out.new) (E.contents errors.old) (E.contents errors.new) }
{
    let mut left = text;
    let plan = Plan::Threads {
        file: None,
        workers: command.workers,
    };
    let status = perform_threads(rt, rt.alloc(), &plan, &mut left, out, errors);
    advise(rt.alloc(), Runs::Scripts, &command.file, text, errors);
    status
}
