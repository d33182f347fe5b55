//! `abt police` and `abt shape`.
ghost use Rattle.abt_parts.specs.Answered.{IsAllowedPlan};
ghost use Rattle.abt_commands.specs.Single.{AnswersLines};

use abt_parts::{PartsPlan, perform_parts};
use std::alloc::Global;
use std::io::{Read, Write};

// Answers each line of the input, in words or as JSON, and gives the exit status.
pub(crate) fn answer_lines<R: Read, W: Write, E: Write>(
    alloc: Global,
    plan: PartsPlan,
    json: bool,
    input: &mut R,
    out: &mut W,
    errors: &mut E,
) -> u8
    requires { IsAllowedPlan plan }
    ensures { AnswersLines json plan result (R.remaining input.old) (R.remaining input.new)
        (W.contents out.old) (W.contents out.new) (E.contents errors.old) (E.contents errors.new) }
{
    perform_parts(alloc, &plan, json, input, out, errors)
}
