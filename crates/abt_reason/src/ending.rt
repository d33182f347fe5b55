//! Who holds what in the end.
ghost use Rattle.std.specs.Prelude.{◌≡◌, ◌++◌, IfOk, OnOk, string_bytes};
ghost use Rattle.abt_reason.specs.Ending as spec;

use abt_format::{cells_text, safe_line};
use abt_model::{Sequence, Trace};
use abt_net::{Conn, Net};
use abt_rate::Rate;
use std::alloc::{AllocError, Global};

// A line for each connection and each port, and whether all that is safe.
pub(crate) fn push_ending(
    alloc: Global,
    text: &mut String,
    net: &Net,
    trace: &Trace,
) -> Result<(), AllocError>
    ensures { OnOk result (string_bytes text.new ≡ string_bytes text.old ++
        spec.ending_text net.now.conns trace.now) }
{
    push_conns(
        alloc,
        text,
        net.conns(),
        trace.rates.as_slice(),
        trace.held.as_slice(),
    )?;
    push_ports(
        alloc,
        text,
        trace.totals.as_slice(),
        trace.capacities.as_slice(),
    )?;
    text.push_str(safe_line(trace.safe))
}

// A line for each connection.
fn push_conns(
    alloc: Global,
    text: &mut String,
    conns: &[Conn],
    rates: &[Rate],
    held: &[Sequence<Rate>],
) -> Result<(), AllocError>
    ensures { OnOk result (string_bytes text.new ≡ string_bytes text.old ++
        spec.conn_lines 0 conns.now rates.now held.now) }
{
    for index in 0..conns.len().min(rates.len()).min(held.len()) {
        let hops = held[index].as_slice();
        push_conn(alloc, text, index as u64, &conns[index], rates[index], hops)?;
    }
    Ok(())
}

// The line of a connection.
fn push_conn(
    alloc: Global,
    text: &mut String,
    place: u64,
    conn: &Conn,
    rate: Rate,
    held: &[Rate],
) -> Result<(), AllocError>
    ensures { OnOk result (string_bytes text.new ≡ string_bytes text.old ++
        spec.conn_line place conn.now rate held.now) }
{
    let vpi = conn.vc.vpi();
    let vci = conn.vc.vci();
    let rate = cells_text(alloc, rate.units())?;
    let hops = held_text(alloc, conn.path.as_slice(), held)?;
    write!(
        text,
        "connection {place} ({vpi}/{vci}): its source shapes at {rate} cells/s{hops}\n"
    )
}

// The rate that each port of a path holds, as a text of its own.
fn held_text(alloc: Global, path: &[u16], held: &[Rate]) -> Result<String, AllocError>
    ensures { IfOk result (λ text. string_bytes text ≡ spec.held_text path.now held.now) }
{
    let mut text = String::new(alloc);
    push_held(alloc, &mut text, path, held)?;
    Ok(text)
}

// The rate that each port of a path holds.
fn push_held(
    alloc: Global,
    text: &mut String,
    path: &[u16],
    held: &[Rate],
) -> Result<(), AllocError>
    ensures { OnOk result (string_bytes text.new ≡ string_bytes text.old ++
        spec.held_text path.now held.now) }
{
    let Some((port, path)) = path.split_first() else {
        return Ok(());
    };
    let Some((rate, held)) = held.split_first() else {
        return Ok(());
    };
    let rate = cells_text(alloc, rate.units())?;
    write!(text, ", port {port} holds {rate}")?;
    push_held(alloc, text, path, held)
}

// A line for each port.
fn push_ports(
    alloc: Global,
    text: &mut String,
    totals: &[u64],
    capacities: &[u64],
) -> Result<(), AllocError>
    ensures { OnOk result (string_bytes text.new ≡ string_bytes text.old ++
        spec.port_lines 0 totals.now capacities.now) }
{
    for index in 0..totals.len().min(capacities.len()) {
        push_port(alloc, text, index as u64, totals[index], capacities[index])?;
    }
    Ok(())
}

// The line of a port.
fn push_port(
    alloc: Global,
    text: &mut String,
    port: u64,
    total: u64,
    capacity: u64,
) -> Result<(), AllocError>
    ensures { OnOk result (string_bytes text.new ≡ string_bytes text.old ++
        spec.port_line port total capacity) }
{
    let rates = cells_text(alloc, total)?;
    let limit = cells_text(alloc, capacity)?;
    write!(
        text,
        "port {port}: {total} of {capacity} units, {rates} of {limit} cells/s\n"
    )
}
