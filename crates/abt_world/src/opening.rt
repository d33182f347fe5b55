//! Ports before the first event.
ghost use Rattle.std.specs.Prelude.{◌≡◌, ◌≢◌, ◌<◌, ◌≤◌, [], All, AllPairs, IfOk, OnOk, None, length, slice_index};
ghost use Rattle.abt_rate.specs.Limits.{capacity_max, net_connections_max, port_connections_max, tau_max};
ghost use Rattle.std.specs.FinMap as map;
ghost use Rattle.abt_node.specs.Table.{connection_at};
ghost use Rattle.abt_model.specs.PortTable.{port_table};
ghost use Rattle.abt_world.specs.Opening as opening;

use abt_net::{Conn, Net};
use abt_node::{AddFault, Port};
use std::alloc::{AllocError, Global};

// Adds a connection to a port that its path goes through. The port doesn't know it and has room for it, so that it is
// refused for want of memory alone.
fn join(port: &mut Port, conn: &Conn) -> Result<(), AllocError>
    requires tau { conn.now.tau ≤ tau_max }
    requires unknown { connection_at port.old conn.now.vc ≡ None }
    requires room { map.len port.old.connections < port_connections_max }
    ensures { OnOk result (port.new ≡ opening.joined port.old conn.now) }
{
    let Some(tau) = conn.policer_at(port.id()) else {
        return Ok(());
    };
    match port.add(conn.vc, tau) {
        Ok(()) => Ok(()),
        Err(AddFault::Memory) => Err(AllocError),
        Err(AddFault::Known | AddFault::Full) => unreachable!(),
    }
}

// A port with those of these connections that go through it.
fn port_with(alloc: Global, id: u16, capacity: u64, conns: &[Conn]) -> Result<Port, AllocError>
    requires capacity { capacity ≤ capacity_max }
    requires taus { All (λ conn. conn.tau ≤ tau_max) conns.now }
    requires channels { AllPairs (λ b c. b.vc ≢ c.vc) conns.now }
    requires count { length conns.now ≤ net_connections_max }
    ensures { IfOk result (λ port. port ≡ opening.opening_table id capacity conns.now) }
{
    let mut port = Port::new(alloc, id, capacity)?;
    let mut place = conns.len();
    while place > 0 {
        place -= 1;
        join(&mut port, &conns[place])?;
    }
    Ok(port)
}

// The capacity of a port of a net.
fn capacity_of(net: &Net, id: u16) -> u64
    requires { id < length net.now.capacities }
    ensures value { result ≡ slice_index net.now.capacities id }
    ensures bound { result ≤ capacity_max }
{
    net.capacities()[usize::from(id)]
}

/// A port of a net before the first event, with the connections through it. It polices those whose path begins there
/// (docs/RULES.md, "Node").
///
/// # Errors
/// If memory is refused there is no port.
pub fn opening_port(alloc: Global, net: &Net, id: u16) -> Result<Port, AllocError>
    requires { id < length net.now.capacities }
    ensures { IfOk result (λ port. port ≡ port_table net.now [] id) }
{
    port_with(alloc, id, capacity_of(net, id), net.conns())
}
