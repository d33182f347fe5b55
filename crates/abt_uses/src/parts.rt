//! A policer, asked line by line.
ghost use Rattle.std.specs.Prelude.{◌≡◌, ◌≤◌, false, true};
ghost use Rattle.abt_parts.specs.Answered.{IsAnswered};
ghost use Rattle.abt_rate.specs.Limits.{tau_max};

use abt_parts::{PartsPlan, perform_parts};
use abt_rate::Rate;
use std::alloc::Global;
use std::io::{Read, Write};

/// Polices the moments on the lines that a reader has left, and says whether all answers went out.
pub fn is_policed<R: Read, W: Write, E: Write>(
    alloc: Global,
    tau: u64,
    rate: Rate,
    reader: &mut R,
    writer: &mut W,
    errors: &mut E,
) -> bool
    requires { tau ≤ tau_max }
    ensures { result ≡ true → IsAnswered false (PartsPlan.Police tau rate) (R.remaining reader.old)
        (W.contents writer.old) (W.contents writer.new) }
{
    let plan = PartsPlan::Police { tau, rate };
    let status = perform_parts(alloc, &plan, false, reader, writer, errors);
    status == 0
}
