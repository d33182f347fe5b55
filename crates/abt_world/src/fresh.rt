//! A world before the first event.
ghost use Rattle.std.specs.Prelude.{◌≡◌, ℕ, [], IfOk, map, slice_get, option_map};
ghost use Rattle.abt_net.specs.declared.conn.Conn.{Conn};
ghost use Rattle.abt_model.specs.PortTable.{port_table};
ghost use Rattle.abt_world.specs.ConnectionStates.{connection_of};
ghost use Rattle.abt_world.specs.Seen.{seen};

use crate::connection_state::ConnectionState;
use crate::opening::opening_port;
use abt_actor::SourceActor;
use abt_index::FactIndex;
use abt_net::{Conn, Net};
use abt_node::Port;
use std::alloc::{AllocError, Global};

// Connections to which nothing happened.
pub(crate) fn fresh_connections(
    alloc: Global,
    conns: &[Conn],
) -> Result<Vec<ConnectionState>, AllocError>
    ensures { IfOk result
        (λ connections.
        map seen connections.items ≡ map (λ (conn : Conn). connection_of conn.vc []) conns.now) }
{
    let mut connections = Vec::new(alloc);
    for conn in conns {
        connections.push(ConnectionState {
            actor: SourceActor::new(conn.vc),
            log: FactIndex::new(alloc),
        })?;
    }
    Ok(connections)
}

// The ports of a net, with the connections through them.
pub(crate) fn opening_ports(alloc: Global, net: &Net) -> Result<Vec<Port>, AllocError>
    ensures { IfOk result (λ ports. (p : ℕ) → slice_get ports.items p
        ≡ option_map (λ (_ : ℕ). port_table net.now [] p) (slice_get net.now.capacities p)) }
{
    let mut ports = Vec::new(alloc);
    for id in 0..net.capacities().len() {
        ports.push(opening_port(alloc, net, id as u16)?)?;
    }
    Ok(ports)
}
