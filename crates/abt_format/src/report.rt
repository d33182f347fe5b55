//! The reports of traces.
ghost use Rattle.std.specs.Prelude.{◌≡◌, ◌++◌, IfOk, OnOk, string_bytes};
ghost use Rattle.abt_format.specs.Report.{report_of, outcome_lines, conn_lines, port_lines};

use crate::lines::{conn_line, count_line, port_line, push_outcome_line, safe_line};
use abt_model::{Outcome, Sequence, Trace};
use abt_rate::Rate;
use std::alloc::{AllocError, Global};

/// The report of a run (docs/FORMATS.md, "Report"): how many events there were, the outcome of each, then each
/// connection with its rate and what its hops hold, each port with its total and the capacity that it has in the end,
/// and whether all that is safe.
pub fn report_text(alloc: Global, trace: &Trace) -> Result<String, AllocError>
    ensures { IfOk result (λ text. string_bytes text ≡ report_of trace.now) }
{
    let mut text = count_line(alloc, trace.outcomes.len())?;
    push_outcomes(&mut text, trace.outcomes.as_slice())?;
    push_conns(
        alloc,
        &mut text,
        trace.rates.as_slice(),
        trace.held.as_slice(),
    )?;
    push_ports(
        alloc,
        &mut text,
        trace.totals.as_slice(),
        trace.capacities.as_slice(),
    )?;
    text.push_str(safe_line(trace.safe))?;
    Ok(text)
}

fn push_outcomes(text: &mut String, outcomes: &[Outcome]) -> Result<(), AllocError>
    ensures { OnOk result (string_bytes text.new ≡ string_bytes text.old ++ outcome_lines 1 outcomes.now) }
{
    for (index, outcome) in outcomes.iter().enumerate() {
        push_outcome_line(text, index as u64 + 1, outcome)?;
    }
    Ok(())
}

fn push_conns(
    alloc: Global,
    text: &mut String,
    rates: &[Rate],
    held: &[Sequence<Rate>],
) -> Result<(), AllocError>
    ensures { OnOk result (string_bytes text.new ≡ string_bytes text.old ++ conn_lines 0 rates.now held.now) }
{
    for index in 0..rates.len().min(held.len()) {
        let line = conn_line(alloc, index as u64, rates[index], held[index].as_slice())?;
        text.push_str(line.as_str())?;
    }
    Ok(())
}

fn push_ports(
    alloc: Global,
    text: &mut String,
    totals: &[u64],
    capacities: &[u64],
) -> Result<(), AllocError>
    ensures { OnOk result (string_bytes text.new ≡ string_bytes text.old ++
        port_lines 0 totals.now capacities.now) }
{
    for index in 0..totals.len().min(capacities.len()) {
        let line = port_line(alloc, index as u64, totals[index], capacities[index])?;
        text.push_str(line.as_str())?;
    }
    Ok(())
}
