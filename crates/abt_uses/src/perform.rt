//! A plan of the program, carried out over any streams.
ghost use Rattle.std.specs.Prelude.{◌≡◌, true, IsOkAnd, string_bytes};
ghost use Rattle.std.specs.Io.KnownBytes.{Appends};
ghost use Rattle.abt_perform.specs.RateText.{rate_text};

use abt_perform::{Plan, perform};
use std::alloc::Global;
use std::io::{Read, Write};

/// Does what `abt rate CODE` does, and says whether its line went out.
pub fn is_rate_told<R: Read, W: Write, E: Write>(
    alloc: Global,
    code: String,
    reader: &mut R,
    writer: &mut W,
    errors: &mut E,
) -> bool
    ensures { result ≡ true →
        IsOkAnd (rate_text (string_bytes code)) (Appends (W.contents writer.old) (W.contents writer.new)) }
{
    let plan = Plan::Rate(code);
    let status = perform(alloc, &plan, reader, writer, errors);
    status == 0
}
