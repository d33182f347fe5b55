//! `abt code` and `abt write`.
ghost use Rattle.abt_commands.specs.Single.{SaysCodes};

use abt_codes::{CodesPlan, perform_codes};
use std::alloc::Global;
use std::io::{Read, Write};

// Says codes, or writes a cell, in words or as JSON, and gives the exit status. The input is left as it is.
pub(crate) fn say_codes<R: Read, W: Write, E: Write>(
    alloc: Global,
    plan: CodesPlan,
    json: bool,
    _input: &mut R,
    out: &mut W,
    errors: &mut E,
) -> u8
    ensures { SaysCodes json plan result (R.remaining _input.old) (R.remaining _input.new)
        (W.contents out.old) (W.contents out.new) (E.contents errors.old) (E.contents errors.new) }
{
    perform_codes(alloc, &plan, json, out, errors)
}
