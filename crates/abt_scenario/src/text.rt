//! Scenarios from text.
ghost use Rattle.std.specs.Prelude.{◌≡◌, ◌⊎◌, ◌+◌, Ok, Err, map, IfOk, IfErr};
ghost use Rattle.toml.specs.Parse.{parse_document};
ghost use Rattle.toml.specs.View.{table_view, items_view};
ghost use Rattle.abt_scenario.specs.Values.{texts_among};
ghost use Rattle.abt_scenario.specs.Reading.{Gives};
ghost use Rattle.abt_scenario.specs.Walk.{draft_seen, scripts_seen, read_document};
ghost use Rattle.abt_net.specs.Topology.{Topology, IsWithinRules};
ghost use Rattle.abt_scenario.specs.Scenarios.{Reads, ReadsTable, ReadsDraft, IsNetFault, events_from, scripts_from, commands_from, operations_from};

use crate::draft::{Connections, Draft, draft_in};
use crate::fault::ScenarioFault;
use crate::scenario::Scenario;
use abt_format::{command_of, event_of, operation_of};
use abt_model::{Event, Operation, Script, Sequence};
use abt_net::{Conn, Net, NetFault};
use std::alloc::Global;
use toml::{Table, Value};

/// The scenario that a text says, or the first fault (docs/FORMATS.md, "Scenario").
///
/// Keys that a scenario doesn't have are passed over.
pub fn read(alloc: Global, text: &str) -> Result<Scenario, ScenarioFault>
    ensures ok { IfOk result (λ scenario. Reads text.now (Ok scenario)) }
    ensures err { IfErr result (λ fault. (fault ≡ ScenarioFault.Memory) ⊎ Reads text.now (Err fault)) }
{
    let table = table_of(alloc, text)?;
    scenario_in(alloc, &table)
}

// The table of a text.
pub(crate) fn table_of(alloc: Global, text: &str) -> Result<Table, ScenarioFault>
    ensures { Gives table_view (read_document (parse_document text.now)) result }
{
    match toml::table_from_str(alloc, text) {
        Ok(table) => Ok(table),
        Err(error) if error.is_memory() => Err(ScenarioFault::Memory),
        Err(_) => Err(ScenarioFault::Toml),
    }
}

// The scenario of a table, or its first fault.
pub(crate) fn scenario_in(alloc: Global, table: &Table) -> Result<Scenario, ScenarioFault>
    ensures ok { IfOk result (λ scenario. ReadsTable (table_view table.now) (Ok scenario)) }
    ensures err { IfErr result
        (λ fault. (fault ≡ ScenarioFault.Memory) ⊎ ReadsTable (table_view table.now) (Err fault)) }
{
    let draft = draft_in(alloc, table)?;
    scenario_of(alloc, draft)
}

// The scenario of a draft.
fn scenario_of(alloc: Global, draft: Draft<'_>) -> Result<Scenario, ScenarioFault>
    ensures ok { IfOk result (λ scenario. ReadsDraft (draft_seen draft.entry) (Ok scenario)) }
    ensures err { IfErr result (λ fault. (fault ≡ ScenarioFault.Memory)
        ⊎ ReadsDraft (draft_seen draft.entry) (Err fault)) }
{
    let Draft {
        capacities,
        connections,
        events,
        operations,
    } = draft;
    let Connections { conns, scripts } = connections;
    let net = net_of(alloc, capacities, conns)?;
    let events = events_in(alloc, events)?;
    let scripts = scripts_in(alloc, scripts.as_slice())?;
    let operator = operations_in(alloc, operations)?;
    Ok(Scenario {
        net,
        events,
        scripts,
        operator,
    })
}

// The net of these ports and connections.
fn net_of(alloc: Global, capacities: Vec<u64>, conns: Vec<Conn>) -> Result<Net, ScenarioFault>
    ensures ok { let drafted : Topology = record { capacities = capacities.items; conns = conns.items } in
        IfOk result (λ net. IsWithinRules drafted × (net ≡ drafted)) }
    ensures err { let drafted : Topology = record { capacities = capacities.items; conns = conns.items } in
        IfErr result (λ fault. (fault ≡ ScenarioFault.Memory) ⊎ IsNetFault drafted fault) }
{
    match Net::build(alloc, capacities, conns) {
        Ok(net) => Ok(net),
        Err(fault) => match fault {
            NetFault::Memory => Err(ScenarioFault::Memory),
            _ => Err(ScenarioFault::Net(fault)),
        },
    }
}

// The events of the texts among some values, or the first text that says none.
fn events_in(alloc: Global, values: &[Value]) -> Result<Sequence<Event>, ScenarioFault>
    ensures { Gives (λ events. events) (events_from 1 (texts_among (items_view values.now))) result }
{
    let mut events = Sequence::with_room(alloc, values.len())?;
    let mut number = 1;
    for value in values {
        let Some(text) = value.as_str() else {
            continue;
        };
        match event_of(text) {
            Some(event) => events.push(event)?,
            None => return Err(ScenarioFault::EventText { number }),
        }
        number += 1;
    }
    Ok(events)
}

// The scripts of the connections, or the first text that says no command.
fn scripts_in(alloc: Global, scripts: &[Vec<&str>]) -> Result<Sequence<Script>, ScenarioFault>
    ensures { Gives (λ scripts. scripts) (scripts_from 0 (scripts_seen scripts.now)) result }
{
    let mut read = Sequence::new(alloc);
    for (index, texts) in scripts.iter().enumerate() {
        read.push(commands_in(alloc, index as u64, texts.as_slice())?)?;
    }
    Ok(read)
}

// The commands of a connection's script, or the first text that says none.
fn commands_in(alloc: Global, connection: u64, texts: &[&str]) -> Result<Script, ScenarioFault>
    ensures { Gives
        (λ commands. commands) (commands_from connection 1 (map (λ text. text.now) texts.now)) result }
{
    let mut commands = Sequence::new(alloc);
    for (place, text) in texts.iter().enumerate() {
        match command_of(text) {
            Some(command) => commands.push(command)?,
            None => {
                return Err(ScenarioFault::ScriptText {
                    connection,
                    number: place as u64 + 1,
                });
            }
        }
    }
    Ok(commands)
}

// The operations of the texts among some values, or the first text that says none.
fn operations_in(alloc: Global, values: &[Value]) -> Result<Sequence<Operation>, ScenarioFault>
    ensures { Gives
        (λ operations. operations) (operations_from 1 (texts_among (items_view values.now))) result }
{
    let mut operations = Sequence::with_room(alloc, values.len())?;
    let mut number: u64 = 1;
    for value in values {
        let Some(text) = value.as_str() else {
            continue;
        };
        match operation_of(text) {
            Some(operation) => operations.push(operation)?,
            None => return Err(ScenarioFault::OperatorText { number }),
        }
        number += 1;
    }
    Ok(operations)
}
