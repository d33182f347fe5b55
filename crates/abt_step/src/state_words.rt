//! The state of a net in words.
ghost use Rattle.std.specs.Prelude.{◌≡◌, OnOk, string_bytes};
ghost use Rattle.abt_format.specs.Report.{rates_text};
ghost use Rattle.abt_text.specs.Text.{◌⋅◌, decimal};
ghost use Rattle.abt_step.specs.StateWords as spec;

use crate::net_state::NetState;
use abt_model::Sequence;
use abt_rate::Rate;
use abt_text::HexCode;
use itoa::Buffer;
use std::alloc::AllocError;

// Adds the line of a state to a text.
pub(crate) fn push_state_line(text: &mut String, state: &NetState) -> Result<(), AllocError>
    ensures { OnOk result (string_bytes text.new ≡ string_bytes text.old ⋅ spec.state_line state.now) }
{
    text.push_str("state")?;
    push_state(text, "; ", "", state)?;
    text.push_str("\n")
}

// Adds the state and all that is safe, as a report ends, to a text.
pub(crate) fn push_report(text: &mut String, state: &NetState) -> Result<(), AllocError>
    ensures { OnOk result (string_bytes text.new ≡ string_bytes text.old ⋅ spec.report_lines state.now) }
{
    push_state(text, "", "\n", state)?;
    text.push_str("safe\n")
}

// Adds the words of each connection and each port, between two texts, to a text.
fn push_state(
    text: &mut String,
    before: &str,
    after: &str,
    state: &NetState,
) -> Result<(), AllocError>
    ensures { OnOk result (string_bytes text.new ≡ string_bytes text.old
        ⋅ spec.state_between before.now after.now state.now) }
{
    push_conns(
        text,
        before,
        after,
        state.rates.as_slice(),
        state.held.as_slice(),
    )?;
    push_ports(
        text,
        before,
        after,
        state.totals.as_slice(),
        state.capacities.as_slice(),
    )
}

fn push_conns(
    text: &mut String,
    before: &str,
    after: &str,
    rates: &[Rate],
    held: &[Sequence<Rate>],
) -> Result<(), AllocError>
    ensures { OnOk result (string_bytes text.new ≡ string_bytes text.old
        ⋅ spec.conns_between before.now after.now 0 rates.now held.now) }
{
    for index in 0..rates.len().min(held.len()) {
        let hops = held[index].as_slice();
        push_conn(text, before, after, index as u64, rates[index], hops)?;
    }
    Ok(())
}

fn push_conn(
    text: &mut String,
    before: &str,
    after: &str,
    conn: u64,
    rate: Rate,
    held: &[Rate],
) -> Result<(), AllocError>
    ensures { OnOk result (string_bytes text.new ≡ string_bytes text.old
        ⋅ (before.now ⋅ spec.conn_words conn rate held.now ⋅ after.now)) }
{
    text.push_str(before)?;
    push_conn_words(text, conn, rate, held)?;
    text.push_str(after)
}

fn push_conn_words(
    text: &mut String,
    conn: u64,
    rate: Rate,
    held: &[Rate],
) -> Result<(), AllocError>
    ensures { OnOk result (string_bytes text.new ≡ string_bytes text.old ⋅ spec.conn_words conn rate held.now) }
{
    text.push_str("connection ")?;
    push_number(text, conn)?;
    push_rate(text, rate)?;
    text.push_str(" held")?;
    push_rates(text, held)
}

fn push_rate(text: &mut String, rate: Rate) -> Result<(), AllocError>
    ensures { OnOk result (string_bytes text.new ≡ string_bytes text.old ⋅ spec.rate_words rate) }
{
    text.push_str(" rate ")?;
    HexCode(rate.code()).push_to(text)
}

// Adds the code of each rate, behind a space.
fn push_rates(text: &mut String, rates: &[Rate]) -> Result<(), AllocError>
    ensures { OnOk result (string_bytes text.new ≡ string_bytes text.old ⋅ rates_text rates.now) }
{
    for rate in rates {
        text.push_str(" ")?;
        HexCode(rate.code()).push_to(text)?;
    }
    Ok(())
}

fn push_ports(
    text: &mut String,
    before: &str,
    after: &str,
    totals: &[u64],
    capacities: &[u64],
) -> Result<(), AllocError>
    ensures { OnOk result (string_bytes text.new ≡ string_bytes text.old
        ⋅ spec.ports_between before.now after.now 0 totals.now capacities.now) }
{
    for index in 0..totals.len().min(capacities.len()) {
        let total = totals[index];
        let capacity = capacities[index];
        push_port(text, before, after, index as u64, total, capacity)?;
    }
    Ok(())
}

fn push_port(
    text: &mut String,
    before: &str,
    after: &str,
    port: u64,
    total: u64,
    capacity: u64,
) -> Result<(), AllocError>
    ensures { OnOk result (string_bytes text.new ≡ string_bytes text.old
        ⋅ (before.now ⋅ spec.port_words port total capacity ⋅ after.now)) }
{
    text.push_str(before)?;
    push_port_words(text, port, total, capacity)?;
    text.push_str(after)
}

fn push_port_words(
    text: &mut String,
    port: u64,
    total: u64,
    capacity: u64,
) -> Result<(), AllocError>
    ensures { OnOk result (string_bytes text.new ≡ string_bytes text.old ⋅ spec.port_words port total capacity) }
{
    text.push_str("port ")?;
    push_number(text, port)?;
    text.push_str(" total ")?;
    push_number(text, total)?;
    text.push_str(" capacity ")?;
    push_number(text, capacity)
}

// A number in decimal digits.
pub(crate) fn push_number(text: &mut String, number: u64) -> Result<(), AllocError>
    ensures { OnOk result (string_bytes text.new ≡ string_bytes text.old ⋅ decimal number) }
{
    let mut digits = Buffer::new();
    text.push_str(digits.format(number))
}
