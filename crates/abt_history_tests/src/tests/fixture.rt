//! The net and the plans of the tests.
use super::link::Losses;
use super::source::Errand;
use super::threads::Plan;
use abt_cell::Vc;
use abt_net::{Conn, Net, Path};
use std::alloc::Global;

/// Two ports of 1,000 cells per second, and one connection over both, with a delay of 1,000 ps and a tau of 200 ps.
pub(super) fn net(alloc: Global) -> Option<Net> {
    let conn = Conn {
        vc: Vc::new(1, 100)?,
        path: Path::from([0u16, 1].to_vec(alloc).ok()?),
        delay: 1000,
        tau: 200,
    };
    let mut conns = Vec::new(alloc);
    conns.push(conn).ok()?;
    Net::build(alloc, vec![in alloc; 512000u64; 2].ok()?, conns).ok()
}

/// A source that asks for 400 cells per second and sends 20 cells, over a link that loses each letter whose number `drop_every` divides, and
/// has each other whose number `repeat_every` divides served twice; and an operator who gives the last port these capacities.
pub(super) fn plan(drop_every: u64, repeat_every: u64, capacities: &[u64]) -> Plan {
    Plan {
        losses: Losses {
            drop_every,
            repeat_every,
        },
        errand: Errand {
            code: 0x5120,
            cells: 20,
        },
        capacities,
    }
}
