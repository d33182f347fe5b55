//! The operator's worker.
ghost use Rattle.std.specs.Prelude.{◌≡◌, ◌<◌, ℕ, IfOk, IsErrOf};
ghost use Rattle.abt_journal.specs.declared.fault.ServeFault.{ServeFault};
ghost use Rattle.abt_links.specs.Cells.{AreCellsOf};
ghost use Rattle.abt_links.specs.Operations.{AreForPorts, AreReceiptsFor};

use crate::{Gate, PortCellOf};
use abt_history::Keeping;
use abt_journal::{Seat, ServeFault};
use abt_model::Operation;
use abt_net::Net;
use std::alloc::Global;
use std::sync::Wait;

/// Carries out the operator's list, in order: has each port that it names take the capacity, or refuse it
/// (docs/RULES.md, "Workers"). Nothing is sent after a reply. It may wait for a port.
///
/// # Errors
/// A port whose journal is shorter than what the operator has seen of it ends the worker, and so does want of memory.
pub fn operator_worker<K: Keeping, R: Wait, G: Gate>(
    rt: &R,
    alloc: Global,
    net: &Net,
    caller: u16,
    operations: &[Operation],
    cells: &[PortCellOf<K>],
    gate: &G,
) -> Result<Seat, ServeFault>
    requires cells { AreCellsOf net.now cells.now }
    requires ports { AreForPorts net.now operations.now }
    ensures caller { IfOk result (λ seat. seat.caller ≡ caller) }
    ensures receipts { IfOk result (λ seat. AreReceiptsFor operations.now seat.receipts) }
    ensures wound { (seen found : ℕ) → IsErrOf result (ServeFault.Wound seen found) → found < seen }
{
    let _ = net;
    let mut seat = Seat::new(alloc, caller);
    for operation in operations {
        let (port, capacity) = *operation;
        let cell = &cells[usize::from(port)];
        cell.set_capacity(rt, &mut seat, gate, capacity)?;
    }
    Ok(seat)
}
