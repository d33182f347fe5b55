//! The text of a scenario.
ghost use Rattle.std.specs.Prelude.{◌≡◌, ◌++◌, IfOk, OnOk, string_bytes};
ghost use Rattle.abt_scenario.specs.ScenarioText as spec;

use abt_format::push_event;
use abt_model::Event;
use abt_net::{Conn, Net};
use std::alloc::{AllocError, Global};

/// The text of a scenario that has this net and these events, and no scripts (docs/FORMATS.md, "Scenario"): an event a line, its codes
/// canonical, its numbers without zeros in front.
///
/// # Errors
/// If memory is refused.
pub fn scenario_text(alloc: Global, net: &Net, events: &[Event]) -> Result<String, AllocError>
    ensures { IfOk result (λ text. string_bytes text ≡ spec.scenario_text net.now events.now) }
{
    let mut text = String::new(alloc);
    text.push_str("ports = [")?;
    push_capacities(&mut text, net.capacities())?;
    text.push_str("]\nevents = [\n")?;
    push_events(&mut text, events)?;
    text.push_str("]\n")?;
    push_connections(&mut text, net.conns())?;
    Ok(text)
}

// The capacities of ports, in units.
fn push_capacities(text: &mut String, capacities: &[u64]) -> Result<(), AllocError>
    ensures { OnOk result (string_bytes text.new ≡ string_bytes text.old ++
        spec.numbers_from 0 capacities.now) }
{
    for (index, capacity) in capacities.iter().enumerate() {
        push_item(text, index, *capacity)?;
    }
    Ok(())
}

// The ports of a path.
fn push_path(text: &mut String, path: &[u16]) -> Result<(), AllocError>
    ensures { OnOk result (string_bytes text.new ≡ string_bytes text.old ++ spec.numbers_from 0 path.now) }
{
    for (index, port) in path.iter().enumerate() {
        push_item(text, index, u64::from(*port))?;
    }
    Ok(())
}

// A number of an array, and before it what parts it from the number before.
fn push_item(text: &mut String, index: usize, number: u64) -> Result<(), AllocError>
    ensures { OnOk result (string_bytes text.new ≡ string_bytes text.old ++ spec.item_text index number) }
{
    if index > 0 {
        text.push_str(", ")?;
    }
    write!(text, "{number}")
}

// A line for each event.
fn push_events(text: &mut String, events: &[Event]) -> Result<(), AllocError>
    ensures { OnOk result (string_bytes text.new ≡ string_bytes text.old ++ spec.event_lines events.now) }
{
    for event in events {
        push_line(text, event)?;
    }
    Ok(())
}

// The line of an event.
fn push_line(text: &mut String, event: &Event) -> Result<(), AllocError>
    ensures { OnOk result (string_bytes text.new ≡ string_bytes text.old ++ spec.event_line event.now) }
{
    text.push_str("  \"")?;
    push_event(text, event)?;
    text.push_str("\",\n")
}

// The tables of connections.
fn push_connections(text: &mut String, conns: &[Conn]) -> Result<(), AllocError>
    ensures { OnOk result (string_bytes text.new ≡ string_bytes text.old ++
        spec.connection_tables conns.now) }
{
    for conn in conns {
        push_connection(text, conn)?;
    }
    Ok(())
}

// The table of a connection.
fn push_connection(text: &mut String, conn: &Conn) -> Result<(), AllocError>
    ensures { OnOk result (string_bytes text.new ≡ string_bytes text.old ++ spec.connection_table conn.now) }
{
    push_head(text, conn)?;
    push_path(text, conn.path.as_slice())?;
    push_tail(text, conn)?;
    Ok(())
}

// What stands before the ports of a connection's path.
fn push_head(text: &mut String, conn: &Conn) -> Result<(), AllocError>
    ensures { OnOk result (string_bytes text.new ≡ string_bytes text.old ++ spec.table_head conn.now) }
{
    let vpi = conn.vc.vpi();
    let vci = conn.vc.vci();
    write!(text, "\n[[connection]]\nvpi = {vpi}\nvci = {vci}\npath = [")
}

// What stands behind them.
fn push_tail(text: &mut String, conn: &Conn) -> Result<(), AllocError>
    ensures { OnOk result (string_bytes text.new ≡ string_bytes text.old ++ spec.table_tail conn.now) }
{
    let delay = conn.delay;
    let tau = conn.tau;
    write!(text, "]\ndelay = {delay}\ntau = {tau}\n")
}
