//! `abt port`.
ghost use Rattle.std.specs.Prelude.{◌≤◌};
ghost use Rattle.abt_rate.specs.Limits.{capacity_max};
ghost use Rattle.abt_commands.specs.Single.{ServesPort};

use abt_parts::{PartsPlan, perform_parts, perform_port_objects};
use abt_perform::{Plan, perform};
use std::alloc::Global;
use std::io::{Read, Write};

// Serves cells at a port of this capacity, or else those of the lines of the input, in words or as JSON, and gives the exit status.
pub(crate) fn port<R: Read, W: Write, E: Write>(
    alloc: Global,
    capacity: u64,
    cells: Option<Vec<String>>,
    json: bool,
    input: &mut R,
    out: &mut W,
    errors: &mut E,
) -> u8
    requires { capacity ≤ capacity_max }
    ensures { ServesPort json capacity cells result (R.remaining input.old) (R.remaining input.new)
        (W.contents out.old) (W.contents out.new) (E.contents errors.old) (E.contents errors.new) }
{
    match cells {
        None => perform_parts(
            alloc,
            &PartsPlan::Port { capacity },
            json,
            input,
            out,
            errors,
        ),
        Some(cells) if json => perform_port_objects(alloc, capacity, cells.as_slice(), out, errors),
        Some(cells) => perform(alloc, &Plan::Port { capacity, cells }, input, out, errors),
    }
}
