//! Whether a list of operations fits a net.
ghost use Rattle.std.specs.Prelude.{◌<◌, ◌↔◌, IsTrue, length};
ghost use Rattle.abt_links.specs.Operations.{AreForPorts};

use abt_model::Operation;
use abt_net::Net;

/// Whether the net has each port that the operator gives a capacity.
pub fn are_for_ports(net: &Net, operations: &[Operation]) -> bool
    ensures { IsTrue result ↔ AreForPorts net.now operations.now }
{
    let ports = net.capacities().len();
    operations
        .iter()
        .all(|&(port, _)| usize::from(port) < ports)
}
