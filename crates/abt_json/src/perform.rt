//! Plans for JSON, carried out.
ghost use Rattle.std.specs.Prelude.{◌≡◌, ◌⊎◌, ◌+◌, Ok, IfOk, IfErr, OnOk, IsOkAnd};
ghost use Rattle.std.specs.Io.KnownBytes.{Appends, Keeps};
ghost use Rattle.abt_perform.specs.Plans.{EndsTextBy};
ghost use Rattle.abt_json.specs.Printed.{ReadsFor, Prints, EndsBy, IsRefused, text_seen};

use crate::cell::cell_json;
use crate::plan::{JsonPlan, Telling};
use crate::rate::rate_json;
use crate::scenario::scenario_json;
use abt_perform::{Fault, tell_fault};
use abt_text::put;
use std::alloc::Global;
use std::io::{Read, Write};

/// Carries a plan out, and gives the exit status: 0 if all of its objects went out to `writer`, and 1 if a line on `errors` tells
/// why not. A line that can't be written there changes no status. Only a scenario is read.
pub fn perform_json<R: Read, W: Write, E: Write>(
    alloc: Global,
    plan: &JsonPlan,
    reader: &mut R,
    writer: &mut W,
    errors: &mut E,
) -> u8
    ensures status { (result ≡ 0) ⊎ (result ≡ 1) }
    ensures reads { ReadsFor plan.now (R.remaining reader.old) (R.remaining reader.new) }
    ensures ok { result ≡ 0 →
        Prints plan.now (R.remaining reader.old) (W.contents writer.old) (W.contents writer.new) }
    ensures quiet { result ≡ 0 → Keeps (E.contents errors.old) (E.contents errors.new) }
    ensures err { result ≡ 1 →
        IsRefused plan.now (R.remaining reader.old) (W.contents writer.old) (W.contents writer.new)
        (E.contents errors.old) (E.contents errors.new) }
{
    match print(alloc, plan, reader, writer) {
        Ok(()) => 0,
        Err(fault) => {
            tell_fault(fault, errors);
            1
        }
    }
}

// Writes what a plan prints.
fn print<R: Read, W: Write>(
    alloc: Global,
    plan: &JsonPlan,
    reader: &mut R,
    writer: &mut W,
) -> Result<(), Fault>
    ensures reads { ReadsFor plan.now (R.remaining reader.old) (R.remaining reader.new) }
    ensures ok { OnOk result (Prints plan.now (R.remaining reader.old) (W.contents writer.old)
        (W.contents writer.new)) }
    ensures err { IfErr result (λ fault.
        EndsBy fault plan.now (R.remaining reader.old) (W.contents writer.old) (W.contents writer.new)) }
{
    match plan {
        JsonPlan::Rate(code) => put_text(rate_json(alloc, code.as_str()), writer),
        JsonPlan::Cell(hex) => put_text(cell_json(alloc, hex.as_str()), writer),
        JsonPlan::Run(_) => Ok(scenario_json(alloc, Telling::Report, reader, writer)?),
        JsonPlan::Explain(_) => Ok(scenario_json(alloc, Telling::Explanation, reader, writer)?),
    }
}

// Writes a text, if there is one.
fn put_text<W: Write>(text: Result<Vec<u8>, Fault>, writer: &mut W) -> Result<(), Fault>
    ensures ok { OnOk result (IsOkAnd (text_seen text)
        (Appends (W.contents writer.old) (W.contents writer.new))) }
    ensures err { IfErr result (λ fault.
        EndsTextBy fault (text_seen text) (W.contents writer.old) (W.contents writer.new)) }
{
    let text = text?;
    match put(writer, text.as_slice()) {
        Ok(()) => Ok(()),
        Err(_) => Err(Fault::Write),
    }
}
