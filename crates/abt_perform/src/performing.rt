//! Plans, carried out.
ghost use Rattle.std.specs.Prelude.{◌≡◌, ◌≢◌, ◌⊎◌, ◌≤◌, ◌+◌, Ok, Err, IfOk, IfErr, OnOk, IsOkAnd, string_bytes};
ghost use Rattle.abt_rate.specs.Limits.{capacity_max};
ghost use Rattle.std.specs.Io.KnownBytes.{Appends, Keeps};
ghost use Rattle.abt_perform.specs.Names.{fault_line};
ghost use Rattle.abt_perform.specs.Plans.{IsWithinLimits, NeedsNoThreads, Prints, EndsBy, EndsTextBy, EndsRunBy, ReadsFor, IsRefused, text_seen, texts_of};
ghost use Rattle.abt_perform.specs.PortText.{port_text};
ghost use Rattle.abt_perform.specs.declared.fault.Fault.TheVariants.{Memory};
ghost use Rattle.abt_scenario.specs.Engine.{Reports};
ghost use Rattle.abt_text.specs.Streams.{ConsumesAtMost, text_max};

use crate::cell::cell_text;
use crate::fault::Fault;
use crate::plan::Plan;
use crate::port::port_text;
use crate::rate::rate_text;
use crate::telling::tell_fault;
use abt_scenario::run_text;
use abt_text::put;
use std::alloc::Global;
use std::io::{Read, Write};

/// Carries a plan out that needs no threads, and gives the exit status: 0 if its whole text went out to `writer`, and 1
/// if a line on `errors` tells why not. A line that can't be written changes no status. Only a scenario is read.
pub fn perform<R: Read, W: Write, E: Write>(
    alloc: Global,
    plan: &Plan,
    reader: &mut R,
    writer: &mut W,
    errors: &mut E,
) -> u8
    requires limits { IsWithinLimits plan.now }
    requires kind { NeedsNoThreads plan.now }
    ensures status { (result ≡ 0) ⊎ (result ≡ 1) }
    ensures reads { ReadsFor plan.now (R.remaining reader.old) (R.remaining reader.new) }
    ensures ok { result ≡ 0 →
        Prints plan.now (R.remaining reader.old) (W.contents writer.old) (W.contents writer.new) }
    ensures quiet { result ≡ 0 → Keeps (E.contents errors.old) (E.contents errors.new) }
    ensures err { result ≡ 1 →
        IsRefused plan.now (R.remaining reader.old) (W.contents writer.old) (W.contents writer.new)
        (E.contents errors.old) (E.contents errors.new) }
{
    match print(alloc, plan, reader, writer) {
        Ok(()) => 0,
        Err(fault) => {
            tell_fault(fault, errors);
            1
        }
    }
}

// Writes what a plan prints.
fn print<R: Read, W: Write>(
    alloc: Global,
    plan: &Plan,
    reader: &mut R,
    writer: &mut W,
) -> Result<(), Fault>
    requires limits { IsWithinLimits plan.now }
    requires kind { NeedsNoThreads plan.now }
    ensures reads { ReadsFor plan.now (R.remaining reader.old) (R.remaining reader.new) }
    ensures ok { OnOk result (Prints plan.now (R.remaining reader.old) (W.contents writer.old)
        (W.contents writer.new)) }
    ensures err { IfErr result (λ fault.
        EndsBy fault plan.now (R.remaining reader.old) (W.contents writer.old) (W.contents writer.new)) }
{
    match plan {
        Plan::Rate(code) => put_text(rate_text(alloc, code.as_str()), writer),
        Plan::Cell(hex) => put_text(cell_text(alloc, hex.as_str()), writer),
        Plan::Port { capacity, cells } => put_text(
            port_lines(alloc, *capacity, cells.as_slice()),
            writer,
        ),
        Plan::Run(_) => run(alloc, reader, writer),
        Plan::Threads { .. } => unreachable!(),
    }
}

// Writes a text, if there is one.
fn put_text<W: Write>(text: Result<String, Fault>, writer: &mut W) -> Result<(), Fault>
    ensures ok { OnOk result (IsOkAnd (text_seen text)
        (Appends (W.contents writer.old) (W.contents writer.new))) }
    ensures err { IfErr result (λ fault.
        EndsTextBy fault (text_seen text) (W.contents writer.old) (W.contents writer.new)) }
{
    let text = text?;
    put(writer, text.as_bytes()).map_err(|_| Fault::Write)
}

// The lines of some cells at a new port.
fn port_lines(alloc: Global, capacity: u64, cells: &[String]) -> Result<String, Fault>
    requires { capacity ≤ capacity_max }
    ensures ok { IfOk result (λ text. string_bytes text ≡ port_text capacity (texts_of cells.now)) }
    ensures err { IfErr result (λ fault. fault ≡ Memory) }
{
    Ok(port_text(alloc, capacity, cells)?)
}

// Writes the report of the scenario that the reader has.
fn run<R: Read, W: Write>(alloc: Global, reader: &mut R, writer: &mut W) -> Result<(), Fault>
    ensures reads { ConsumesAtMost (R.remaining reader.old) (R.remaining reader.new) (text_max + 1) }
    ensures ok { OnOk result (Reports (R.remaining reader.old) (W.contents writer.old)
        (W.contents writer.new)) }
    ensures err { IfErr result (λ fault.
        EndsRunBy fault (R.remaining reader.old) (W.contents writer.old) (W.contents writer.new)) }
{
    Ok(run_text(alloc, reader, writer)?)
}
