//! `abt switch`.
ghost use Rattle.abt_commands.specs.Processes.{Switches};

use crate::opening::open_named;
use abt_live_files::{SwitchPlan, perform_switch};
use std::alloc::AllocGlobal;
use std::io::{Read, Write};
use std::rt::Files;

// Answers the lines of the input by ports of the net of a file, over a journal, and gives the exit status.
pub(crate) fn switch<T: Files + AllocGlobal, R: Read, W: Write, E: Write>(
    rt: &T,
    plan: &SwitchPlan,
    input: &mut R,
    out: &mut W,
    errors: &mut E,
) -> u8
    ensures { Switches T.File.contents plan.now result (R.remaining input.old) (R.remaining input.new)
        (W.contents out.old) (W.contents out.new) (E.contents errors.old) (E.contents errors.new) }
{
    match open_named(rt, plan.file.as_str()) {
        Ok(mut net) => perform_switch(rt, &mut net, plan, input, out, errors),
        Err(unopened) => unopened.tell(errors),
    }
}
