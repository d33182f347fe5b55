//! `abt source`.
ghost use Rattle.abt_commands.specs.Processes.{Sources};

use crate::opening::open_named;
use abt_live_files::{SourcePlan, Stores, perform_source};
use std::alloc::AllocGlobal;
use std::io::{Read, Write};
use std::rt::{Clock, Files};

// Answers the lines of the input by the source of a connection of the net of a file, over a store and a journal, and gives the exit status.
pub(crate) fn source<T: Files + AllocGlobal + Clock + Stores, R: Read, W: Write, E: Write>(
    rt: &T,
    plan: &SourcePlan,
    input: &mut R,
    out: &mut W,
    errors: &mut E,
) -> u8
    ensures { Sources T.Store.content T.File.contents plan.now result (R.remaining input.old) (R.remaining input.new)
        (W.contents out.old) (W.contents out.new) (E.contents errors.old) (E.contents errors.new) }
{
    match open_named(rt, plan.file.as_str()) {
        Ok(mut net) => perform_source(rt, &mut net, plan, input, out, errors),
        Err(unopened) => unopened.tell(errors),
    }
}
