//! The reports of traces, an object a line.
ghost use Rattle.std.specs.Prelude.{◌≡◌, ◌++◌, IfOk, OnOk};
ghost use Rattle.abt_entry.specs.ObjectMembers.{Adds};
ghost use Rattle.abt_json.specs.Objects.{trace_objects, end_objects, outcome_object, outcome_objects, conn_object, conn_objects, held_member, rate_strings, port_object, port_objects, safe_object};

use crate::exact::push_exact;
use crate::object::begin_kind_behind;
use crate::outcome::push_outcome;
use abt_entry::{end, push_code, push_number, push_rate};
use abt_model::{Outcome, Sequence, Trace};
use abt_rate::Rate;
use json::Writer;
use std::alloc::{AllocError, Global};

/// The report of a run, an object a line: the outcome of each event, then each connection with its rate and what its
/// hops hold, each port with its total and the capacity that it has in the end, and whether all that is safe.
pub fn report_json(alloc: Global, trace: &Trace) -> Result<Vec<u8>, AllocError>
    ensures { IfOk result (λ text. text.items ≡ trace_objects trace.now) }
{
    let mut text = Vec::new(alloc);
    push_outcomes(alloc, &mut text, trace.outcomes.as_slice())?;
    push_end(alloc, &mut text, trace)?;
    Ok(text)
}

/// Adds how the net stands in the end: each connection, each port, and whether all that is safe.
pub(crate) fn push_end(alloc: Global, text: &mut Vec<u8>, trace: &Trace) -> Result<(), AllocError>
    ensures { OnOk result (text.new.items ≡ text.old.items ++ end_objects trace.now) }
{
    push_conns(alloc, text, trace.rates.as_slice(), trace.held.as_slice())?;
    push_ports(
        alloc,
        text,
        trace.totals.as_slice(),
        trace.capacities.as_slice(),
    )?;
    push_safe(alloc, text, trace.safe)
}

fn push_outcomes(alloc: Global, text: &mut Vec<u8>, outcomes: &[Outcome]) -> Result<(), AllocError>
    ensures { OnOk result (text.new.items ≡ text.old.items ++ outcome_objects 1 outcomes.now) }
{
    for (index, outcome) in outcomes.iter().enumerate() {
        push_outcome_object(alloc, text, index as u64 + 1, outcome)?;
    }
    Ok(())
}

fn push_outcome_object(
    alloc: Global,
    text: &mut Vec<u8>,
    number: u64,
    outcome: &Outcome,
) -> Result<(), AllocError>
    ensures { OnOk result (text.new.items ≡ text.old.items ++ outcome_object number outcome.now) }
{
    // A writer makes room ahead, and more of it behind a long text: so the line is made by itself. Most have fewer octets.
    let mut line = Vec::with_capacity(alloc, 256)?;
    let mut object = begin_kind_behind(alloc, &mut line, "event")?;
    push_number(&mut object, "event", number)?;
    push_outcome(alloc, &mut object, outcome)?;
    end(object, &mut line)?;
    text.extend_from_slice(line.as_slice())
}

fn push_conns(
    alloc: Global,
    text: &mut Vec<u8>,
    rates: &[Rate],
    held: &[Sequence<Rate>],
) -> Result<(), AllocError>
    ensures { OnOk result (text.new.items ≡ text.old.items ++ conn_objects 0 rates.now held.now) }
{
    for index in 0..rates.len().min(held.len()) {
        push_conn_object(
            alloc,
            text,
            index as u64,
            rates[index],
            held[index].as_slice(),
        )?;
    }
    Ok(())
}

fn push_conn_object(
    alloc: Global,
    text: &mut Vec<u8>,
    conn: u64,
    rate: Rate,
    held: &[Rate],
) -> Result<(), AllocError>
    ensures { OnOk result (text.new.items ≡ text.old.items ++ conn_object conn rate held.now) }
{
    let mut object = begin_kind_behind(alloc, text, "connection")?;
    push_number(&mut object, "connection", conn)?;
    push_rate(alloc, &mut object, "rate", rate)?;
    push_held(alloc, &mut object, held)?;
    end(object, text)
}

// Adds what the hops of a path hold.
fn push_held(alloc: Global, object: &mut Writer, held: &[Rate]) -> Result<(), AllocError>
    ensures { OnOk result (Adds (held_member held.now) object.old object.new) }
{
    object.key("held")?;
    object.begin_array()?;
    push_codes(alloc, object, held)?;
    object.end_array()
}

/// Adds the codes of rates to an array.
///
/// # Errors
/// If memory is refused.
pub fn push_codes(alloc: Global, object: &mut Writer, rates: &[Rate]) -> Result<(), AllocError>
    ensures { OnOk result (Adds (rate_strings rates.now) object.old object.new) }
{
    for rate in rates {
        push_code(alloc, object, *rate)?;
    }
    Ok(())
}

fn push_ports(
    alloc: Global,
    text: &mut Vec<u8>,
    totals: &[u64],
    capacities: &[u64],
) -> Result<(), AllocError>
    ensures { OnOk result (text.new.items ≡ text.old.items ++ port_objects 0 totals.now capacities.now) }
{
    for index in 0..totals.len().min(capacities.len()) {
        push_port_object(alloc, text, index as u64, totals[index], capacities[index])?;
    }
    Ok(())
}

fn push_port_object(
    alloc: Global,
    text: &mut Vec<u8>,
    port: u64,
    total: u64,
    capacity: u64,
) -> Result<(), AllocError>
    ensures { OnOk result (text.new.items ≡ text.old.items ++ port_object port total capacity) }
{
    let mut object = begin_kind_behind(alloc, text, "port")?;
    push_number(&mut object, "port", port)?;
    push_exact(&mut object, "total", "total_text", total)?;
    push_exact(&mut object, "capacity", "capacity_text", capacity)?;
    end(object, text)
}

fn push_safe(alloc: Global, text: &mut Vec<u8>, is_safe: bool) -> Result<(), AllocError>
    ensures { OnOk result (text.new.items ≡ text.old.items ++ safe_object is_safe) }
{
    let mut object = begin_kind_behind(alloc, text, "end")?;
    object.key("safe")?;
    object.boolean(is_safe)?;
    end(object, text)
}
