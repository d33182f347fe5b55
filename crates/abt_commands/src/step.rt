//! `abt step`.
ghost use Rattle.abt_commands.specs.Steps.{Steps};

use crate::opening::open_named;
use abt_step::{AnswerForm, perform_step_as};
use std::alloc::AllocGlobal;
use std::io::{Read, Write};
use std::rt::Files;

// Answers the lines of the input by the net of a file, in a form, and gives the exit status.
pub(crate) fn step<T: Files + AllocGlobal, R: Read, W: Write, E: Write>(
    rt: &T,
    file: &str,
    form: AnswerForm,
    input: &mut R,
    out: &mut W,
    errors: &mut E,
) -> u8
    ensures { Steps file.now form result (R.remaining input.old) (R.remaining input.new)
        (W.contents out.old) (W.contents out.new) (E.contents errors.old) (E.contents errors.new) }
{
    match open_named(rt, file) {
        Ok(mut net) => perform_step_as(rt.alloc(), form, &mut net, input, out, errors),
        Err(unopened) => unopened.tell(errors),
    }
}
