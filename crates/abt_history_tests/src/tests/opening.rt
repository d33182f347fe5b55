//! Ports before the first event.
ghost use Rattle.std.specs.Prelude.{◌≡◌, ◌<◌, [], IfOk, length};
ghost use Rattle.abt_model.specs.PortTable.{port_table};

use abt_journal::PortState;
use abt_net::Net;
use abt_world::opening_port;
use std::alloc::{AllocError, Global};

/// A port of a net, whose journal is empty.
pub(super) fn opened(alloc: Global, net: &Net, port: u16) -> Result<PortState, AllocError>
    requires { port < length net.now.capacities }
    ensures { IfOk result (λ state. state ≡ record {
      opening = port_table net.now [] port;
      table = port_table net.now [] port;
      entries = [];
    }) }
{
    let opening = opening_port(alloc, net, port)?;
    Ok(PortState::new(alloc, opening))
}
