//! Lines of any reader, answered by what a plan asks for.
ghost use Rattle.std.specs.Prelude.{◌≡◌, ◌⊎◌, OnOk, OnErr};
ghost use Rattle.std.specs.Io.KnownBytes.{IsAtEnd, Keeps};
ghost use Rattle.abt_lines.specs.Served.{IsServed, IsServedPart};
ghost use Rattle.abt_parts.specs.Answered.{IsAllowedPlan, IsAnswered, IsRefused, fault_of_lines, said_to};

use crate::by_objects::answer_by_objects;
use crate::in_words::answer_in_words;
use crate::plan::PartsPlan;
use abt_lines::LinesFault;
use abt_perform::{Fault, tell_fault};
use std::alloc::Global;
use std::io::{Read, Write};

/// Answers all lines of a reader, in words or as JSON, and gives the exit status: 0 if all answers went out to `writer`, also those that are faults of lines,
/// and 1 if a line on `errors` tells why not. A line that can't be written there changes no status.
///
/// What a read of the input ends is answered, and the answers written, before the next read.
pub fn perform_parts<R: Read, W: Write, E: Write>(
    alloc: Global,
    plan: &PartsPlan,
    json: bool,
    reader: &mut R,
    writer: &mut W,
    errors: &mut E,
) -> u8
    requires { IsAllowedPlan plan.now }
    ensures status { (result ≡ 0) ⊎ (result ≡ 1) }
    ensures end { result ≡ 0 → IsAtEnd (R.remaining reader.new) }
    ensures ok { result ≡ 0 →
        IsAnswered json plan.now (R.remaining reader.old) (W.contents writer.old) (W.contents writer.new) }
    ensures quiet { result ≡ 0 → Keeps (E.contents errors.old) (E.contents errors.new) }
    ensures err { result ≡ 1 →
        IsRefused json plan.now (R.remaining reader.old) (W.contents writer.old) (W.contents writer.new)
        (E.contents errors.old) (E.contents errors.new) }
{
    match answer_lines(alloc, plan, json, reader, writer) {
        Ok(()) => 0,
        Err(fault) => {
            tell_fault(fault_of_lines(fault), errors);
            1
        }
    }
}

// Answers all lines of a reader.
fn answer_lines<R: Read, W: Write>(
    alloc: Global,
    plan: &PartsPlan,
    json: bool,
    reader: &mut R,
    writer: &mut W,
) -> Result<(), LinesFault>
    requires { IsAllowedPlan plan.now }
    ensures end { OnOk result (IsAtEnd (R.remaining reader.new)) }
    ensures ok { OnOk result (IsServed (said_to json plan.now) (R.remaining reader.old)
        (W.contents writer.old) (W.contents writer.new)) }
    ensures err { OnErr result (IsServedPart (said_to json plan.now) (R.remaining reader.old)
        (W.contents writer.old) (W.contents writer.new)) }
{
    if json {
        answer_by_objects(alloc, plan, reader, writer)
    } else {
        answer_in_words(alloc, plan, reader, writer)
    }
}

// The program's fault for one of the lines.
fn fault_of_lines(fault: LinesFault) -> Fault
    ensures { result ≡ fault_of_lines fault }
{
    match fault {
        LinesFault::Read => Fault::Read,
        LinesFault::TooLong => Fault::TooLong,
        LinesFault::Write => Fault::Write,
        LinesFault::Memory => Fault::Memory,
    }
}
