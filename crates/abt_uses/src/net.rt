//! A net of one link.
ghost use Rattle.std.specs.Prelude.{◌≡◌, [], ◌∷◌, IfOk, IfSome};

use abt_cell::Vc;
use abt_net::{Conn, Net, NetFault, Path};
use std::alloc::Global;

/// A net of one port with this capacity, and of one connection through it.
pub fn one_link(alloc: Global, capacity: u64, vc: Vc, tau: u64) -> Result<Net, NetFault>
    ensures ports { IfOk result (λ net. net.capacities ≡ capacity ∷ []) }
    ensures conns { IfOk result
        (λ net. net.conns ≡ record { vc = vc; path = 0 ∷ []; delay = 0; tau = tau } ∷ []) }
{
    let Ok(ports) = vec![in alloc; 0] else {
        return Err(NetFault::Memory);
    };
    let path = Path::from(ports);
    let conn = Conn {
        vc,
        path,
        delay: 0,
        tau,
    };
    let (Ok(capacities), Ok(conns)) = (vec![in alloc; capacity], vec![in alloc; conn]) else {
        return Err(NetFault::Memory);
    };
    Net::build(alloc, capacities, conns)
}
