//! Rules of nets that ports and connections break.
ghost use Rattle.std.specs.Prelude.{◌≡◌, ◌↔◌, IsTrue, IsSome, IfSome};
ghost use Rattle.abt_check.specs.Findings.{IsPathLength, NameChannel};

use crate::finding::{Findings, at_entry, at_item, entry_in};
use crate::keys::whole_in;
use abt_cell::Vc;
use abt_net::{DELAY_MAX, HOPS_MAX, NetFault, PORTS_MAX};
use abt_rate::{CAPACITY_MAX, CONNECTIONS_MAX, TAU_MAX};
use abt_scenario::ScenarioFault;
use std::alloc::AllocError;
use std::collections::BTreeMap;
use toml::{Table, Value};

impl Findings<'_> {
    // All rules that the ports and connections of a document break, whose keys have no fault.
    pub(crate) fn net(&mut self, table: &Table) -> Result<(), AllocError> {
        let capacities = items_at(table, "ports");
        let conns = items_at(table, "connection");
        for (index, conn) in conns.iter().enumerate() {
            self.no_port(index, path_of(conn), capacities.len())?;
        }
        for (index, conn) in conns.iter().enumerate() {
            self.path_length(index, path_of(conn).len())?;
        }
        for (index, conn) in conns.iter().enumerate() {
            self.path_repeat(index, path_of(conn))?;
        }
        self.vc_repeats(conns)?;
        self.limits(capacities, conns)
    }

    fn no_port(&mut self, index: usize, path: &[Value], ports: usize) -> Result<(), AllocError> {
        let alloc = self.alloc;
        for (hop, port) in path.iter().enumerate() {
            let Some(port) = whole_in(port) else {
                continue;
            };
            if port >= ports as u64 {
                let entry = entry_in(self.layout.sections.get(index), "path");
                let text = format!(in alloc;
                    "connection {index} visits port {port}; the net has {ports} ports, counted from 0"
                )?;
                return self.net_fault(
                    NetFault::NoPort {
                        connection: index as u64,
                    },
                    at_item(entry, hop),
                    text,
                );
            }
        }
        Ok(())
    }

    fn path_length(&mut self, index: usize, hops: usize) -> Result<(), AllocError> {
        if is_path_length(hops) {
            return Ok(());
        }
        let alloc = self.alloc;
        let entry = entry_in(self.layout.sections.get(index), "path");
        let text = format!(in alloc;
            "the path of connection {index} has {hops} hops; from 1 to {HOPS_MAX} are allowed"
        )?;
        self.net_fault(
            NetFault::PathLength {
                connection: index as u64,
            },
            at_entry(entry),
            text,
        )
    }

    fn path_repeat(&mut self, index: usize, path: &[Value]) -> Result<(), AllocError> {
        if path.len() > HOPS_MAX {
            return Ok(());
        }
        let alloc = self.alloc;
        for (hop, port) in path.iter().enumerate() {
            let Some(port) = whole_in(port) else {
                continue;
            };
            if path[..hop]
                .iter()
                .any(|earlier| whole_in(earlier) == Some(port))
            {
                let entry = entry_in(self.layout.sections.get(index), "path");
                let text = format!(in alloc; "connection {index} visits port {port} twice")?;
                return self.net_fault(
                    NetFault::PathRepeat {
                        connection: index as u64,
                    },
                    at_item(entry, hop),
                    text,
                );
            }
        }
        Ok(())
    }

    fn vc_repeats(&mut self, conns: &[Value]) -> Result<(), AllocError> {
        let alloc = self.alloc;
        let mut first: BTreeMap<Vc, u64> = BTreeMap::new(alloc);
        for (index, conn) in conns.iter().enumerate() {
            let Some(vc) = channel_at(conn) else {
                continue;
            };
            match first.get(&vc).copied() {
                Some(earlier) => {
                    let (vpi, vci) = (vc.vpi(), vc.vci());
                    let text = format!(in alloc;
                        "connection {index} has the channel {vpi}/{vci} of connection {earlier}"
                    )?;
                    let at = self.at_section(index);
                    self.net_fault(
                        NetFault::VcRepeat {
                            connection: index as u64,
                        },
                        at,
                        text,
                    )?;
                }
                None => {
                    first.insert(vc, index as u64)?;
                }
            }
        }
        Ok(())
    }

    fn limits(&mut self, capacities: &[Value], conns: &[Value]) -> Result<(), AllocError> {
        let alloc = self.alloc;
        let ports = self.layout.entry("ports");
        if capacities.len() > PORTS_MAX {
            let count = capacities.len();
            let text = format!(in alloc;
                "the net has {count} ports; at most {PORTS_MAX} are allowed"
            )?;
            self.net_fault(NetFault::Limit, at_item(ports, PORTS_MAX), text)?;
        }
        if conns.len() > CONNECTIONS_MAX {
            let count = conns.len();
            let text = format!(in alloc;
                "the net has {count} connections; at most {CONNECTIONS_MAX} are allowed"
            )?;
            let at = self.at_section(CONNECTIONS_MAX);
            self.net_fault(NetFault::Limit, at, text)?;
        }
        for (index, capacity) in capacities.iter().enumerate() {
            let units = whole_in(capacity).unwrap_or(0);
            if units > CAPACITY_MAX {
                let text = format!(in alloc;
                    "port {index} has a capacity of {units} units; at most {CAPACITY_MAX} are allowed"
                )?;
                self.net_fault(NetFault::Limit, at_item(ports, index), text)?;
            }
        }
        for (index, conn) in conns.iter().enumerate() {
            self.limit_at(index, conn, "tau", TAU_MAX)?;
            self.limit_at(index, conn, "delay", DELAY_MAX)?;
        }
        Ok(())
    }

    fn limit_at(
        &mut self,
        index: usize,
        conn: &Value,
        name: &str,
        most: u64,
    ) -> Result<(), AllocError> {
        let alloc = self.alloc;
        let number = number_at(conn, name).unwrap_or(0);
        if number <= most {
            return Ok(());
        }
        let at = at_entry(entry_in(self.layout.sections.get(index), name));
        let text = format!(in alloc;
            "connection {index} has a {name} of {number} ps; at most {most} are allowed"
        )?;
        self.net_fault(NetFault::Limit, at, text)
    }

    fn net_fault(
        &mut self,
        fault: NetFault,
        at: Option<usize>,
        text: String,
    ) -> Result<(), AllocError> {
        self.fault(ScenarioFault::Net(fault), at, text)
    }
}

// Whether a path may have so many hops.
fn is_path_length(hops: usize) -> bool
    ensures { IsTrue result ↔ IsPathLength hops }
{
    hops > 0 && hops <= HOPS_MAX
}

// The items of an array at a key, none if there is no array.
pub(crate) fn items_at<'a>(table: &'a Table, name: &str) -> &'a [Value] {
    match table.get(name) {
        Some(value) => items_of(value),
        None => &[],
    }
}

fn items_of(value: &Value) -> &[Value] {
    match value.as_array() {
        Some(items) => items.as_slice(),
        None => &[],
    }
}

// The path of a connection.
fn path_of(conn: &Value) -> &[Value] {
    match conn.as_table() {
        Some(members) => items_at(members, "path"),
        None => &[],
    }
}

// The whole number at a key of a connection.
fn number_at(conn: &Value, name: &str) -> Option<u64> {
    whole_in(conn.as_table()?.get(name)?)
}

// The channel of a connection.
fn channel_at(conn: &Value) -> Option<Vc> {
    channel_of(number_at(conn, "vpi")?, number_at(conn, "vci")?)
}

// The channel that two numbers name, the virtual path's first.
fn channel_of(vpi: u64, vci: u64) -> Option<Vc>
    ensures some { IsSome result ↔ NameChannel vpi vci }
    ensures value { IfSome result (λ vc. vc ≡ record { vpi = vpi; vci = vci }) }
{
    let vpi = u16::try_from(vpi).ok()?;
    let vci = u16::try_from(vci).ok()?;
    Vc::new(vpi, vci)
}
