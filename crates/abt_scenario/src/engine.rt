//! Scenarios from any reader, reports to any writer.
ghost use Rattle.std.specs.Prelude.{◌≡◌, ◌≤◌, ◌≢◌, ◌+◌, Ok, true, IfOk, IfErr, IfSome, OnOk, length, string_bytes};
ghost use Rattle.abt_text.specs.Streams.{ConsumesAtMost, text_max};
ghost use Rattle.abt_model.specs.Traces.{IsTrace};
ghost use Rattle.abt_scenario.specs.Scenarios.{Reads};
ghost use Rattle.abt_scenario.specs.Engine.{Explains, IsReportText, Reports, Leaves, told};

use crate::fault::ScenarioFault;
use crate::scenario::Scenario;
use crate::text::{scenario_in, table_of};
use abt_format::report_text;
use abt_model::Trace;
use abt_text::{TextFault, octets_of, put};
use abt_world::run;
use std::alloc::{AllocError, Global};
use std::io::{Read, Write};
use thiserror::Error;

/// Why the scenario of a reader isn't read, run and reported.
#[derive(Clone, Copy, Debug, PartialEq, Eq, Error)]
pub enum EngineFault {
    /// The reader failed.
    #[error("the input can't be read")]
    Read,
    /// There are more than [`TEXT_MAX`](abt_text::TEXT_MAX) octets.
    #[error("the text is too long")]
    TooLong,
    /// The octets are no UTF-8 text.
    #[error("the text is not UTF-8")]
    NotUtf8,
    /// The text is no scenario.
    #[error("{0}")]
    Scenario(ScenarioFault),
    /// The writer failed, or took no octet.
    #[error("the output can't be written")]
    Write,
    /// No memory was found.
    #[error("out of memory")]
    Memory,
}

/// The scenario of the text that a reader has left. At most one octet more than [`TEXT_MAX`](abt_text::TEXT_MAX) is taken,
/// which shows that the text is too long; a failure of the reader ends the reading at once.
pub fn read_from<R: Read>(alloc: Global, reader: &mut R) -> Result<Scenario, EngineFault>
    ensures ok { IfOk result
        (λ scenario. IfSome (R.remaining reader.old) (λ text. Reads text (Ok scenario))) }
    ensures limit { IfOk result (λ _. IfSome (R.remaining reader.old) (λ text. length text ≤ text_max)) }
    ensures err { IfErr result (λ fault. IfSome (R.remaining reader.old) (Explains fault)) }
    ensures reads { IfErr result (λ fault. fault ≢ EngineFault.Write) }
    ensures stops { ConsumesAtMost (R.remaining reader.old) (R.remaining reader.new) (text_max + 1) }
{
    let octets = match octets_of(alloc, reader) {
        Ok(octets) => octets,
        Err(TextFault::Read) => return Err(EngineFault::Read),
        Err(TextFault::TooLong) => return Err(EngineFault::TooLong),
        Err(TextFault::Memory) => return Err(EngineFault::Memory),
    };
    let Ok(text) = std::str::from_utf8(octets.as_slice()) else {
        return Err(EngineFault::NotUtf8);
    };
    let table = match table_of(alloc, text) {
        Ok(table) => table,
        Err(fault) => return Err(told(fault)),
    };
    // The table has its own copies of the texts: a long text isn't kept beside them while the events are read.
    drop(octets);
    match scenario_in(alloc, &table) {
        Ok(scenario) => Ok(scenario),
        Err(fault) => Err(told(fault)),
    }
}

// How a scenario's fault is told of a reader's text.
fn told(fault: ScenarioFault) -> EngineFault
    ensures { result ≡ told fault }
{
    match fault {
        ScenarioFault::Memory => EngineFault::Memory,
        _ => EngineFault::Scenario(fault),
    }
}

/// Reads a scenario, runs it and writes its report. Nothing is written before the whole report is made; if the writer
/// fails, or takes no octet, a part of the report went out.
pub fn run_text<R: Read, W: Write>(
    alloc: Global,
    reader: &mut R,
    writer: &mut W,
) -> Result<(), EngineFault>
    ensures ok { OnOk result (Reports (R.remaining reader.old) (W.contents writer.old)
        (W.contents writer.new)) }
    ensures limit { OnOk result (IfSome (R.remaining reader.old) (λ text. length text ≤ text_max)) }
    ensures err { IfErr result (λ fault. Leaves fault (R.remaining reader.old)
        (W.contents writer.old) (W.contents writer.new)) }
    ensures stops { ConsumesAtMost (R.remaining reader.old) (R.remaining reader.new) (text_max + 1) }
{
    let scenario = read_from(alloc, reader)?;
    let Ok(text) = report_of_run(alloc, scenario) else {
        return Err(EngineFault::Memory);
    };
    match put(writer, text.as_bytes()) {
        Ok(()) => Ok(()),
        Err(_) => Err(EngineFault::Write),
    }
}

// The report of a scenario's run.
fn report_of_run(alloc: Global, scenario: Scenario) -> Result<String, AllocError>
    ensures { IfOk result (λ text. IsReportText scenario (string_bytes text)) }
{
    let trace = trace_of(alloc, scenario)?;
    report_text(alloc, &trace)
}

/// The trace of a scenario's run, which is safe. It says all that a report says, so the scenario is let go: a long list of events isn't kept
/// beside the report.
///
/// # Errors
/// If memory is refused there is no trace.
pub fn trace_of(alloc: Global, scenario: Scenario) -> Result<Trace, AllocError>
    ensures trace { IfOk result (IsTrace scenario.net scenario.events) }
    ensures safe { IfOk result (λ trace. trace.safe ≡ true) }
{
    run(alloc, &scenario.net, scenario.events.as_slice())
}
