//! The lines of reports.
ghost use Rattle.std.specs.Prelude.{◌≡◌, ◌++◌, IfOk, OnOk, string_bytes};
ghost use Rattle.abt_format.specs.Report.{count_line, outcome_line, rates_text, conn_line, port_line, safe_line};

use crate::outcome::push_outcome;
use crate::pieces::push_number;
use abt_model::Outcome;
use abt_rate::Rate;
use abt_text::HexCode;
use std::alloc::{AllocError, Global};

// How many events there were.
pub(crate) fn count_line(alloc: Global, count: usize) -> Result<String, AllocError>
    ensures { IfOk result (λ text. string_bytes text ≡ count_line count) }
{
    format!(in alloc; "events {count}\n")
}

// The outcome of the event of a number. It is written into the report at once, as there are many such lines.
pub(crate) fn push_outcome_line(
    text: &mut String,
    number: u64,
    outcome: &Outcome,
) -> Result<(), AllocError>
    ensures { OnOk result (string_bytes text.new ≡ string_bytes text.old ++ outcome_line number outcome.now) }
{
    push_number(text, number)?;
    text.push_str(" ")?;
    push_outcome(text, outcome)?;
    text.push_str("\n")
}

// The rate of a connection, and what each of its hops holds for it.
pub(crate) fn conn_line(
    alloc: Global,
    conn: u64,
    rate: Rate,
    held: &[Rate],
) -> Result<String, AllocError>
    ensures { IfOk result (λ text. string_bytes text ≡ conn_line conn rate held.now) }
{
    let code = HexCode(rate.code());
    let held = rates_text(alloc, held)?;
    format!(in alloc; "connection {conn} rate {code} held{held}\n")
}

fn rates_text(alloc: Global, rates: &[Rate]) -> Result<String, AllocError>
    ensures { IfOk result (λ text. string_bytes text ≡ rates_text rates.now) }
{
    let mut text = String::new(alloc);
    for rate in rates {
        let code = HexCode(rate.code());
        let code = format!(in alloc; " {code}")?;
        text.push_str(code.as_str())?;
    }
    Ok(text)
}

// The rate reserved on a port, and its capacity.
pub(crate) fn port_line(
    alloc: Global,
    port: u64,
    total: u64,
    capacity: u64,
) -> Result<String, AllocError>
    ensures { IfOk result (λ text. string_bytes text ≡ port_line port total capacity) }
{
    format!(in alloc; "port {port} total {total} capacity {capacity}\n")
}

/// The line that tells whether a run is safe (docs/FORMATS.md, "Report").
pub fn safe_line(is_safe: bool) -> &'static str
    ensures { result.now ≡ safe_line is_safe }
{
    if is_safe { "safe\n" } else { "unsafe\n" }
}
