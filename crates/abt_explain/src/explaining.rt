//! Scenarios from any reader, explanations to any writer.
ghost use Rattle.std.specs.Prelude.{◌≡◌, ◌≢◌, ◌⊎◌, ◌+◌, Some, IfOk, IfErr, IfSome, OnOk, string_bytes};
ghost use Rattle.std.specs.Io.KnownBytes.{Keeps};
ghost use Rattle.abt_reason.specs.Explanation.{IsExplanation};
ghost use Rattle.abt_text.specs.Streams.{ConsumesAtMost, text_max};
ghost use Rattle.abt_scenario.specs.Engine.{Explains, IsOfLength};
ghost use Rattle.abt_explain.specs.Explained.{IsExplanationOf, IsExplained, IsRefused, IsWrittenBehind, Leaves};

use crate::written::push_written;
use abt_perform::{Fault, tell_fault};
use abt_places::{Placed, read_placed};
use abt_reason::explanation_of;
use abt_scenario::EngineFault;
use abt_text::{TextFault, octets_of, put};
use std::alloc::{AllocError, Global};
use std::io::{Read, Write};

/// Reads a scenario, runs it and writes its explanation, with the line of each event (docs/EXPLAIN.md). Nothing is written before the
/// whole explanation is made; if the writer fails, or takes no octet, a part of it went out.
pub fn explain_text<R: Read, W: Write>(
    alloc: Global,
    reader: &mut R,
    writer: &mut W,
) -> Result<(), EngineFault>
    ensures ok { OnOk result (IsExplained (R.remaining reader.old) (W.contents writer.old)
        (W.contents writer.new)) }
    ensures err { IfErr result (λ fault. Leaves fault (R.remaining reader.old)
        (W.contents writer.old) (W.contents writer.new)) }
    ensures stops { ConsumesAtMost (R.remaining reader.old) (R.remaining reader.new) (text_max + 1) }
{
    let text = explained_from(alloc, reader)?;
    match put(writer, text.as_bytes()) {
        Ok(()) => Ok(()),
        Err(_) => Err(EngineFault::Write),
    }
}

// The explanation of the scenario that a reader has left.
fn explained_from<R: Read>(alloc: Global, reader: &mut R) -> Result<String, EngineFault>
    ensures ok { IfOk result (λ text. IsExplanationOf (R.remaining reader.old) (string_bytes text)) }
    ensures err { IfErr result (λ fault. IfSome (R.remaining reader.old) (Explains fault)) }
    ensures reads { IfErr result (λ fault. fault ≢ EngineFault.Write) }
    ensures stops { ConsumesAtMost (R.remaining reader.old) (R.remaining reader.new) (text_max + 1) }
{
    match octets_of(alloc, reader) {
        Ok(octets) => explained_in(alloc, octets.as_slice()),
        Err(TextFault::Read) => Err(EngineFault::Read),
        Err(TextFault::TooLong) => Err(EngineFault::TooLong),
        Err(TextFault::Memory) => Err(EngineFault::Memory),
    }
}

// The explanation of the scenario of a text.
fn explained_in(alloc: Global, octets: &[u8]) -> Result<String, EngineFault>
    requires { IsOfLength octets.now }
    ensures ok { IfOk result (λ text. IsExplanationOf (Some octets.now) (string_bytes text)) }
    ensures err { IfErr result (λ fault. Explains fault octets.now) }
    ensures reads { IfErr result (λ fault. fault ≢ EngineFault.Write) }
{
    let Ok(source) = std::str::from_utf8(octets) else {
        return Err(EngineFault::NotUtf8);
    };
    let mut left = octets;
    let placed = read_placed(alloc, &mut left)?;
    match written_in(alloc, &placed, source) {
        Ok(text) => Ok(text),
        Err(_) => Err(EngineFault::Memory),
    }
}

// The explanation of a scenario's run, and behind it the asks that its text writes by another code.
fn written_in(alloc: Global, placed: &Placed, source: &str) -> Result<String, AllocError>
    ensures { IfOk result (λ text. IsWrittenBehind placed.now source.now (string_bytes text)) }
{
    let mut text = explanation_in(alloc, placed)?;
    let events = placed.scenario.events.as_slice();
    push_written(alloc, &mut text, source, events)?;
    Ok(text)
}

// The explanation of a scenario's run, with the lines of its events.
fn explanation_in(alloc: Global, placed: &Placed) -> Result<String, AllocError>
    ensures { IfOk result
        (λ text. IsExplanation placed.now.scenario.net placed.now.lines.items placed.now.scenario.events
        (string_bytes text)) }
{
    let scenario = &placed.scenario;
    explanation_of(
        alloc,
        &scenario.net,
        scenario.events.as_slice(),
        placed.lines.as_slice(),
    )
}

/// Explains the scenario that a reader has left, and gives the exit status: 0 if the whole explanation went out to `writer`, and 1 if a
/// line on `errors` tells why not. A line that can't be written there changes no status.
pub fn perform_explain<R: Read, W: Write, E: Write>(
    alloc: Global,
    reader: &mut R,
    writer: &mut W,
    errors: &mut E,
) -> u8
    ensures status { (result ≡ 0) ⊎ (result ≡ 1) }
    ensures reads { ConsumesAtMost (R.remaining reader.old) (R.remaining reader.new) (text_max + 1) }
    ensures ok { result ≡ 0 →
        IsExplained (R.remaining reader.old) (W.contents writer.old) (W.contents writer.new) }
    ensures quiet { result ≡ 0 → Keeps (E.contents errors.old) (E.contents errors.new) }
    ensures err { result ≡ 1 →
        IsRefused (R.remaining reader.old) (W.contents writer.old) (W.contents writer.new)
        (E.contents errors.old) (E.contents errors.new) }
{
    match explain_text(alloc, reader, writer) {
        Ok(()) => 0,
        Err(fault) => {
            tell_fault(Fault::from(fault), errors);
            1
        }
    }
}
