//! Scenarios from any reader, what is said of their runs to any writer.
ghost use Rattle.std.specs.Prelude.{◌≡◌, ◌≢◌, ◌+◌, IfOk, IfErr, IfSome, OnOk};
ghost use Rattle.abt_text.specs.Streams.{ConsumesAtMost, text_max};
ghost use Rattle.abt_json.specs.Explained.{IsExplainedJson};
ghost use Rattle.abt_scenario.specs.Engine.{Explains};
ghost use Rattle.abt_json.specs.Printed.{IsRunJson, IsReportOf, IsExplanationOf, SaysOf, Reports, Leaves};

use crate::explain::explanation_json;
use crate::plan::Telling;
use crate::report::report_json;
use abt_places::{Placed, read_placed};
use abt_scenario::{EngineFault, Scenario, read_from, trace_of};
use abt_text::put;
use std::alloc::{AllocError, Global};
use std::io::{Read, Write};

/// Reads a scenario, runs it and writes its report or its explanation, an object a line. Nothing is written before the whole of it is
/// made; if the writer fails, or takes no octet, a part of it went out.
pub fn scenario_json<R: Read, W: Write>(
    alloc: Global,
    telling: Telling,
    reader: &mut R,
    writer: &mut W,
) -> Result<(), EngineFault>
    ensures ok { OnOk result (Reports telling (R.remaining reader.old) (W.contents writer.old)
        (W.contents writer.new)) }
    ensures err { IfErr result (λ fault. Leaves fault telling (R.remaining reader.old)
        (W.contents writer.old) (W.contents writer.new)) }
    ensures stops { ConsumesAtMost (R.remaining reader.old) (R.remaining reader.new) (text_max + 1) }
{
    let text = said_from(alloc, telling, reader)?;
    match put(writer, text.as_slice()) {
        Ok(()) => Ok(()),
        Err(_) => Err(EngineFault::Write),
    }
}

// What is said of the scenario that a reader has left.
fn said_from<R: Read>(
    alloc: Global,
    telling: Telling,
    reader: &mut R,
) -> Result<Vec<u8>, EngineFault>
    ensures ok { IfOk result (λ text. SaysOf telling (R.remaining reader.old) text.items) }
    ensures err { IfErr result (λ fault. IfSome (R.remaining reader.old) (Explains fault)) }
    ensures reads { IfErr result (λ fault. fault ≢ EngineFault.Write) }
    ensures stops { ConsumesAtMost (R.remaining reader.old) (R.remaining reader.new) (text_max + 1) }
{
    match telling {
        Telling::Report => report_from(alloc, reader),
        Telling::Explanation => explanation_from(alloc, reader),
    }
}

// The report of the run of such a scenario.
fn report_from<R: Read>(alloc: Global, reader: &mut R) -> Result<Vec<u8>, EngineFault>
    ensures ok { IfOk result (λ text. IsReportOf (R.remaining reader.old) text.items) }
    ensures err { IfErr result (λ fault. IfSome (R.remaining reader.old) (Explains fault)) }
    ensures reads { IfErr result (λ fault. fault ≢ EngineFault.Write) }
    ensures stops { ConsumesAtMost (R.remaining reader.old) (R.remaining reader.new) (text_max + 1) }
{
    let scenario = read_from(alloc, reader)?;
    match json_of_run(alloc, scenario) {
        Ok(text) => Ok(text),
        Err(_) => Err(EngineFault::Memory),
    }
}

// The explanation of the run of such a scenario.
fn explanation_from<R: Read>(alloc: Global, reader: &mut R) -> Result<Vec<u8>, EngineFault>
    ensures ok { IfOk result (λ text. IsExplanationOf (R.remaining reader.old) text.items) }
    ensures err { IfErr result (λ fault. IfSome (R.remaining reader.old) (Explains fault)) }
    ensures reads { IfErr result (λ fault. fault ≢ EngineFault.Write) }
    ensures stops { ConsumesAtMost (R.remaining reader.old) (R.remaining reader.new) (text_max + 1) }
{
    let placed = read_placed(alloc, reader)?;
    match explanation_in(alloc, &placed) {
        Ok(text) => Ok(text),
        Err(_) => Err(EngineFault::Memory),
    }
}

// The report of a scenario's run.
fn json_of_run(alloc: Global, scenario: Scenario) -> Result<Vec<u8>, AllocError>
    ensures { IfOk result (λ text. IsRunJson scenario text.items) }
{
    let trace = trace_of(alloc, scenario)?;
    report_json(alloc, &trace)
}

// The explanation of a scenario's run, with the lines of its events.
fn explanation_in(alloc: Global, placed: &Placed) -> Result<Vec<u8>, AllocError>
    ensures { IfOk result
        (λ text. IsExplainedJson placed.now.scenario.net placed.now.lines.items placed.now.scenario.events
        text.items) }
{
    let scenario = &placed.scenario;
    explanation_json(
        alloc,
        &scenario.net,
        scenario.events.as_slice(),
        placed.lines.as_slice(),
    )
}
