//! Scenarios from any reader, checks to any writer.
ghost use Rattle.std.specs.Prelude.{◌≡◌, ◌⊎◌, ◌+◌, true, false, IfOk, IfErr, IfSome, OnOk};
ghost use Rattle.std.specs.Io.KnownBytes.{Keeps, Appends};
ghost use Rattle.abt_text.specs.Streams.{ConsumesAtMost, text_max};
ghost use Rattle.abt_check.specs.Performed.{Answers, IsSaidOf, IsFaulty, Leaves};

use crate::checking::check;
use crate::objects::push_objects;
use crate::telling::{Answer, answer_of, has_some};
use abt_perform::{Fault, tell_fault};
use abt_scenario::EngineFault;
use abt_text::{TextFault, octets_of, put};
use std::alloc::{AllocError, Global};
use std::io::{Read, Write};

// What is told of a check, and whether that has a fault.
#[derive(Drop)]
struct Said {
    octets: Vec<u8>,
    is_faulty: bool,
}

// Checks the text that a reader has left, and writes the check. Nothing is written before the whole check is made; if the writer fails,
// or takes no octet, a part of it went out.
fn check_from<R: Read, W: Write>(
    alloc: Global,
    as_json: bool,
    reader: &mut R,
    writer: &mut W,
) -> Result<bool, EngineFault>
    ensures ok { IfOk result (λ faulty.
        Answers as_json faulty (R.remaining reader.old) (W.contents writer.old) (W.contents writer.new)) }
    ensures err { IfErr result (λ fault.
        Leaves fault as_json (R.remaining reader.old) (W.contents writer.old) (W.contents writer.new)) }
    ensures stops { ConsumesAtMost (R.remaining reader.old) (R.remaining reader.new) (text_max + 1) }
{
    let said = said_from(alloc, as_json, reader)?;
    match put(writer, said.octets.as_slice()) {
        Ok(()) => Ok(said.is_faulty),
        Err(_) => Err(EngineFault::Write),
    }
}

// The check of the text that a reader has left.
fn said_from<R: Read>(alloc: Global, as_json: bool, reader: &mut R) -> Result<Said, EngineFault>
    ensures ok { IfOk result
        (λ said. IfSome (R.remaining reader.old) (IsSaidOf as_json said.is_faulty said.octets.items)) }
    ensures err { IfErr result
        (λ fault. (old : _) → Keeps old old → Leaves fault as_json (R.remaining reader.old) old old) }
    ensures stops { ConsumesAtMost (R.remaining reader.old) (R.remaining reader.new) (text_max + 1) }
{
    let octets = match octets_of(alloc, reader) {
        Ok(octets) => octets,
        Err(TextFault::Read) => return Err(EngineFault::Read),
        Err(TextFault::TooLong) => return Err(EngineFault::TooLong),
        Err(TextFault::Memory) => return Err(EngineFault::Memory),
    };
    let Ok(text) = std::str::from_utf8(octets.as_slice()) else {
        return Err(EngineFault::NotUtf8);
    };
    match said_of(alloc, as_json, text) {
        Ok(said) => Ok(said),
        Err(_) => Err(EngineFault::Memory),
    }
}

// The check of a text, in lines or in objects.
fn said_of(alloc: Global, as_json: bool, source: &str) -> Result<Said, AllocError>
    ensures { IfOk result (λ said. IsSaidOf as_json said.is_faulty said.octets.items source.now) }
{
    if as_json {
        objects_of(alloc, source)
    } else {
        lines_of(alloc, source)
    }
}

fn lines_of(alloc: Global, source: &str) -> Result<Said, AllocError>
    ensures { IfOk result (λ said. IsSaidOf false said.is_faulty said.octets.items source.now) }
{
    let Answer { text, is_faulty } = answer_of(alloc, source)?;
    let octets = text.into_bytes();
    Ok(Said { octets, is_faulty })
}

fn objects_of(alloc: Global, source: &str) -> Result<Said, AllocError>
    ensures { IfOk result (λ said. IsSaidOf true said.is_faulty said.octets.items source.now) }
{
    let checked = check(alloc, source)?;
    let mut octets = Vec::new(alloc);
    push_objects(alloc, &mut octets, None, source, &checked)?;
    let is_faulty = has_some(checked.faults.as_slice());
    Ok(Said { octets, is_faulty })
}

/// Checks the scenario that a reader has left, in lines or as JSON, and gives the exit status: 0 if the whole check went out to `writer`
/// and tells no fault, 1 if it tells one, or if a line on `errors` tells why there is no check. A line that can't be written there changes no status.
pub fn perform_check<R: Read, W: Write, E: Write>(
    alloc: Global,
    as_json: bool,
    reader: &mut R,
    writer: &mut W,
    errors: &mut E,
) -> u8
    ensures status { (result ≡ 0) ⊎ (result ≡ 1) }
    ensures reads { ConsumesAtMost (R.remaining reader.old) (R.remaining reader.new) (text_max + 1) }
    ensures ok { result ≡ 0 →
        Answers as_json false (R.remaining reader.old) (W.contents writer.old)
        (W.contents writer.new) }
    ensures quiet { result ≡ 0 → Keeps (E.contents errors.old) (E.contents errors.new) }
    ensures err { result ≡ 1 →
        IsFaulty as_json (R.remaining reader.old) (W.contents writer.old) (W.contents writer.new)
        (E.contents errors.old) (E.contents errors.new) }
{
    match check_from(alloc, as_json, reader, writer) {
        Ok(false) => 0,
        Ok(true) => 1,
        Err(fault) => {
            tell_fault(Fault::from(fault), errors);
            1
        }
    }
}
