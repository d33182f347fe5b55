//! `abt rate`.
ghost use Rattle.abt_commands.specs.Single.{SaysRate};

use abt_json::{JsonPlan, perform_json};
use abt_perform::{Plan, perform};
use std::alloc::Global;
use std::io::{Read, Write};

// Says what a rate code means, in a line or as JSON, and gives the exit status.
pub(crate) fn rate<R: Read, W: Write, E: Write>(
    alloc: Global,
    code: String,
    json: bool,
    input: &mut R,
    out: &mut W,
    errors: &mut E,
) -> u8
    ensures { SaysRate json code result (R.remaining input.old) (R.remaining input.new)
        (W.contents out.old) (W.contents out.new) (E.contents errors.old) (E.contents errors.new) }
{
    if json {
        perform_json(alloc, &JsonPlan::Rate(code), input, out, errors)
    } else {
        perform(alloc, &Plan::Rate(code), input, out, errors)
    }
}
