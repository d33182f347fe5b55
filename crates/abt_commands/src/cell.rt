//! `abt cell`.
ghost use Rattle.abt_perform.specs.declared.plan.Plan.TheVariants.{Cell};
ghost use Rattle.abt_commands.specs.Single.{PerformsAdvised, SaysCell};

use abt_json::{JsonPlan, perform_json};
use abt_parts::{PartsPlan, perform_parts};
use abt_perform::{Plan, perform, tell_text};
use std::alloc::Global;
use std::io::{Read, Write};

// What is told of 53 octets, as a whole cell has.
const WITH_HEC: &str =
    "a cell has 52 octets here: of 53, the fifth may be the HEC octet, which is left out\n";

// Says what an RM cell says, in a line or as JSON, or else what each line of the input says, gives advice of 53 octets besides, and gives
// the exit status.
pub(crate) fn cell<R: Read, W: Write, E: Write>(
    alloc: Global,
    cell: Option<String>,
    json: bool,
    advised: bool,
    input: &mut R,
    out: &mut W,
    errors: &mut E,
) -> u8
    ensures { SaysCell json advised cell result (R.remaining input.old) (R.remaining input.new)
        (W.contents out.old) (W.contents out.new) (E.contents errors.old) (E.contents errors.new) }
{
    match cell {
        None => perform_parts(alloc, &PartsPlan::Cells, json, input, out, errors),
        Some(hex) if json => perform_json(alloc, &JsonPlan::Cell(hex), input, out, errors),
        Some(hex) if advised && hex.len() == 106 => advised_of_hec(alloc, hex, input, out, errors),
        Some(hex) => perform(alloc, &Plan::Cell(hex), input, out, errors),
    }
}

// Says that a text of 53 octets is no cell, and which octet may be too many.
fn advised_of_hec<R: Read, W: Write, E: Write>(
    alloc: Global,
    hex: String,
    input: &mut R,
    out: &mut W,
    errors: &mut E,
) -> u8
    ensures { PerformsAdvised (Cell hex) result (R.remaining input.old) (R.remaining input.new)
        (W.contents out.old) (W.contents out.new) (E.contents errors.old) (E.contents errors.new) }
{
    let status = perform(alloc, &Plan::Cell(hex), input, out, errors);
    tell_text(errors, WITH_HEC);
    status
}
