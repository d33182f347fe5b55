//! The walk of the keys.
ghost use Rattle.toml.specs.View.{table_view, items_view, view};
ghost use Rattle.std.specs.Prelude.{◌≡◌, map};
ghost use Rattle.abt_scenario.specs.Reading.{Gives};
ghost use Rattle.abt_scenario.specs.Walk.{draft_in, tables_at, tables_in, connections_in, conn_in, draft_seen, connections_seen, tables_seen};

use crate::fault::ScenarioFault;
use crate::key::Key;
use crate::value::{
    WHOLE_LIMIT, member_at, numbers_of, short_of, shorts_of, text_values_at, texts_at, value_at,
    whole_of,
};
use abt_cell::Vc;
use abt_net::{Conn, Path};
use std::alloc::Global;
use toml::{Table, Value};

/// What stands at the keys of a scenario, before anybody asks whether it is a net, and what its texts say. All values of its events, and
/// of its operator, are texts; there may be very many, so they are read where they lie.
#[derive(Drop)]
pub struct Draft<'a> {
    pub capacities: Vec<u64>,
    pub connections: Connections<'a>,
    pub events: &'a [Value],
    pub operations: &'a [Value],
}

/// The connections of a draft, and beside each the texts of its script.
#[derive(Drop)]
pub struct Connections<'a> {
    pub conns: Vec<Conn>,
    pub scripts: Vec<Vec<&'a str>>,
}

// What stands at the keys, which are looked for in their order.
pub(crate) fn draft_in<'a>(alloc: Global, table: &'a Table) -> Result<Draft<'a>, ScenarioFault>
    ensures { Gives draft_seen (draft_in (table_view table.entry.now)) result }
{
    let capacities = numbers_of(alloc, member_at(table, Key::Ports)?, Key::Ports)?;
    let tables = tables_at(alloc, table)?;
    let connections = connections_in(alloc, tables.as_slice())?;
    let events = text_values_at(table, Key::Events)?;
    let operations = text_values_at(table, Key::Operator)?;
    Ok(Draft {
        capacities,
        connections,
        events,
        operations,
    })
}

// The tables of the connections, none if the key is missing.
fn tables_at<'a>(alloc: Global, table: &'a Table) -> Result<Vec<&'a Table>, ScenarioFault>
    ensures { Gives tables_seen (tables_at (table_view table.entry.now)) result }
{
    match value_at(table, Key::Connection) {
        Some(value) => match value.as_array() {
            Some(values) => tables_in(alloc, values.as_slice()),
            None => Err(ScenarioFault::WrongType(Key::Connection)),
        },
        None => Ok(Vec::new(alloc)),
    }
}

fn tables_in<'a>(alloc: Global, values: &'a [Value]) -> Result<Vec<&'a Table>, ScenarioFault>
    ensures { Gives tables_seen (tables_in (items_view values.entry.now)) result }
{
    let mut tables = Vec::new(alloc);
    for value in values {
        match value.as_table() {
            Some(table) => tables.push(table)?,
            None => return Err(ScenarioFault::WrongType(Key::Connection)),
        }
    }
    Ok(tables)
}

fn connections_in<'a>(alloc: Global, tables: &[&'a Table]) -> Result<Connections<'a>, ScenarioFault>
    ensures { Gives connections_seen (connections_in (map (λ table. table_view table.now) tables.entry.now))
        result }
{
    let mut conns = Vec::new(alloc);
    let mut scripts = Vec::new(alloc);
    for table in tables {
        conns.push(conn_in(alloc, table)?)?;
        scripts.push(texts_at(alloc, table, Key::Script)?)?;
    }
    Ok(Connections { conns, scripts })
}

// The connection of a table, but for its script.
fn conn_in(alloc: Global, table: &Table) -> Result<Conn, ScenarioFault>
    ensures { Gives (λ conn. conn) (conn_in (table_view table.now)) result }
{
    let vpi = short_of(member_at(table, Key::Vpi)?, Key::Vpi, 4096)?;
    let vci = short_of(member_at(table, Key::Vci)?, Key::Vci, 65536)?;
    let path = shorts_of(alloc, member_at(table, Key::Path)?, Key::Path)?;
    let delay = whole_of(member_at(table, Key::Delay)?, Key::Delay, WHOLE_LIMIT)?;
    let tau = whole_of(member_at(table, Key::Tau)?, Key::Tau, WHOLE_LIMIT)?;
    let Some(vc) = Vc::new(vpi, vci) else {
        return Err(ScenarioFault::WrongType(Key::Vpi));
    };
    Ok(Conn {
        vc,
        path: Path::from(path),
        delay,
        tau,
    })
}
