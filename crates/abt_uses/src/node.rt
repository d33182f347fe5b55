//! A port that grants and refuses.
ghost use Rattle.std.specs.Prelude.{◌≡◌, ◌+◌, ◌-◌, ◌≤◌, ◌↔◌, IsTrue, Some};
ghost use Rattle.abt_node.specs.Rule.{IsCovered};
ghost use Rattle.abt_node.specs.Table.{Connection, connection_at, held_at, sum_of};

use abt_cell::Request;
use abt_node::{Onward, Port};

/// Whether a port grants a request. A new one, whose floor is at most what its connection holds, is granted exactly if its rate fits beside
/// what all others hold.
pub fn is_granted(port: &mut Port, request: &Request) -> bool
    ensures { (connection : Connection) → connection_at port.old request.now.vc ≡ Some connection →
        IsCovered connection.reservation request.now → IsTrue result ↔
        ((sum_of port.old - held_at connection) + request.now.ask ≤ port.old.capacity) }
{
    let onward = port.request(request);
    matches!(onward, Onward::Pass)
}

/// The part of a port's capacity that no connection holds, in units of 1/512 cell/s.
pub fn spare(port: &Port) -> u64
    ensures { result + sum_of port.now ≡ port.now.capacity }
{
    let held = port.total();
    port.capacity() - held
}
