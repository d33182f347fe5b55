//! Readings of connections and ports in the end.
ghost use Rattle.std.specs.Prelude.{◌≡◌, IfOk, map};
ghost use Rattle.abt_net.specs.declared.conn.Conn.{Conn};
ghost use Rattle.abt_node.specs.Table.{sum_of};
ghost use Rattle.abt_world.specs.declared.connection_state.ConnectionState.{ConnectionState};
ghost use Rattle.abt_safety.specs.Holding.{held_by_port};

use crate::connection_state::ConnectionState;
use abt_model::Sequence;
use abt_net::Conn;
use abt_node::Port;
use abt_rate::Rate;
use abt_safety::held_along;
use std::alloc::{AllocError, Global};

// The rate of each source.
pub(crate) fn rates_of(
    alloc: Global,
    connections: &[ConnectionState],
) -> Result<Sequence<Rate>, AllocError>
    ensures { IfOk result
        (λ rates. rates ≡ map
        (λ (connection : ConnectionState). connection.actor.source.rate) connections.now) }
{
    let mut rates = Sequence::new(alloc);
    for connection in connections {
        rates.push(connection.actor.rate())?;
    }
    Ok(rates)
}

// The rate that each hop of its path holds for each connection.
pub(crate) fn held_of(
    alloc: Global,
    conns: &[Conn],
    ports: &[Port],
) -> Result<Sequence<Sequence<Rate>>, AllocError>
    ensures { IfOk result
        (λ held. held ≡ map (λ (conn : Conn). map (held_by_port conn.vc ports.now) conn.path) conns.now) }
{
    let mut held = Sequence::new(alloc);
    for conn in conns {
        held.push(held_along(alloc, conn.vc, conn.path.as_slice(), ports)?)?;
    }
    Ok(held)
}

// The sum of each port.
pub(crate) fn totals_of(alloc: Global, ports: &[Port]) -> Result<Sequence<u64>, AllocError>
    ensures { IfOk result (λ totals. totals ≡ map sum_of ports.now) }
{
    let mut totals = Sequence::new(alloc);
    for port in ports {
        totals.push(port.total())?;
    }
    Ok(totals)
}

// The capacity of each port.
pub(crate) fn capacities_of(alloc: Global, ports: &[Port]) -> Result<Sequence<u64>, AllocError>
    ensures { IfOk result (λ capacities. capacities ≡ map (λ table. table.capacity) ports.now) }
{
    let mut capacities = Sequence::new(alloc);
    for port in ports {
        capacities.push(port.capacity())?;
    }
    Ok(capacities)
}
