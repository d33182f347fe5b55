//! Nets, ports and calls that the tests share. If memory is refused, `None` is given, and the test asks again.
ghost use Rattle.std.specs.Prelude.{◌≡◌, ◌≤◌, IfSome};
ghost use Rattle.std.specs.Option.{ForSome};
ghost use Rattle.abt_journal.specs.Opening.{IsOpening};

use abt_cell::{Request, Vc};
use abt_journal::PortState;
use abt_net::{Conn, Net, Path};
use abt_node::Port;
use abt_rate::{CAPACITY_MAX, Rate, TAU_MAX};
use std::alloc::Global;
use std::fmt::{Debug, Display};
use std::process::Abort;
use std::test::Fail;

/// The capacity of a link of 1,000 cells per second, in units.
pub(super) const CAPACITY: u64 = 512000;

/// The tolerance of the connections, in picoseconds.
pub(super) const TAU: u64 = 200;

/// Demands that two values are equal. What calls this knows nothing of them from it, which keeps its proof short.
pub(super) fn same<T: PartialEq + Debug>(rt: &impl Abort, found: &T, expected: &T) {
    assert_eq!(rt; *found, *expected);
}

/// A channel of VPI 1.
pub(super) fn channel(vci: u16) -> Option<Vc> {
    Vc::new(1, vci)
}

/// A request of a source that has no rate yet. By docs/RULES.md, "Rates", codes 5120 and 5258 are 400 and 600 cells per
/// second.
pub(super) fn request(vci: u16, seq: u32, code: u16) -> Result<Request, Fail> {
    let vc = channel(vci).ok_or("the VPI is too great")?;
    Ok(Request::new(vc, seq, Rate::ZERO, Rate::from_code(code)).ok_or("no such request")?)
}

/// A port that is the ingress of some connections, with one tau, and that others pass through.
pub(super) fn port(
    alloc: Global,
    id: u16,
    capacity: u64,
    ingress: &[u16],
    tau: u64,
    transit: &[u16],
) -> Option<PortState> {
    if capacity > CAPACITY_MAX || tau > TAU_MAX {
        return None;
    }
    let Ok(mut port) = Port::new(alloc, id, capacity) else {
        return None;
    };
    for vci in ingress {
        port = with_connection(port, channel(*vci)?, Some(tau))?;
    }
    for vci in transit {
        port = with_connection(port, channel(*vci)?, None)?;
    }
    Some(PortState::new(alloc, port))
}

fn with_connection(mut port: Port, vc: Vc, tau: Option<u64>) -> Option<Port>
    requires opening { IsOpening port }
    requires tau { ForSome tau (λ t. t ≤ TAU_MAX) }
    ensures { IfSome result IsOpening }
{
    port.add(vc, tau).ok()?;
    Some(port)
}

/// A net of links of 1,000 cells per second, with connections along these paths.
pub(super) fn net(alloc: Global, ports: usize, conns: &[(u16, &[u16])]) -> Option<Net> {
    let capacities = vec![in alloc; CAPACITY; ports].ok()?;
    let mut listed = Vec::with_capacity(alloc, conns.len()).ok()?;
    for (vci, ports) in conns {
        let conn = Conn {
            vc: channel(*vci)?,
            path: Path::from(ports.to_vec(alloc).ok()?),
            delay: 1000,
            tau: TAU,
        };
        listed.push(conn).ok()?;
    }
    Net::build(alloc, capacities, listed).ok()
}

/// Demands the words in which a value is told; if memory was refused, they are asked for again.
pub(super) fn says<T: Display>(
    rt: &impl Abort,
    alloc: Global,
    value: &T,
    words: &str,
) -> Result<(), Fail> {
    let said = match format!(in alloc; "{value}") {
        Ok(said) => said,
        Err(_) => format!(in alloc; "{value}")?,
    };
    same(rt, &said.as_str(), &words);
    Ok(())
}
