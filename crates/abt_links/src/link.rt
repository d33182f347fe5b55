//! Link workers.
ghost use Rattle.std.specs.Prelude.{◌≡◌, ◌<◌, ℕ, All, IfOk, IsErrOf, length};
ghost use Rattle.abt_journal.specs.declared.fault.ServeFault.{ServeFault};
ghost use Rattle.abt_history.specs.Modes.{When};
ghost use Rattle.abt_links.specs.Cells.{AreCellsOf};
ghost use Rattle.abt_links.specs.Deliveries as deliveries;
ghost use Rattle.abt_links.specs.Messages.{IsMessage};

use crate::carrying::Carrying;
use crate::cell::CellOf;
use crate::count::CellCount;
use crate::plan::ThreadPlan;
use crate::router::RouterOf;
use crate::{Gate, PortCellOf};
use abt_journal::{Seat, ServeFault};
use abt_net::Net;
use crossbeam_channel::{Receiver, Sender};
use std::alloc::Global;
use std::collections::VecDeque;
use std::sync::{Mutex, Wait};

/// Takes parcels from the channel until one says stop, or no more can come: has each message served by its port, and
/// sends what follows the port's reply (docs/RULES.md, "Workers"). It may wait for a parcel and for a port.
///
/// Lost are parcels that the plan names, that say no message, whose port isn't in the net, or for which there is no
/// memory.
///
/// # Errors
/// A port whose journal is shorter than what the worker has seen of it ends the worker.
pub fn link_worker<K: Carrying, R: Wait, G: Gate>(
    rt: &R,
    alloc: Global,
    net: &Net,
    caller: u16,
    plan: ThreadPlan,
    cells: &[PortCellOf<K>],
    to: Sender<K::Parcel>,
    from: Receiver<K::Parcel>,
    boxes: &[Mutex<VecDeque<K::Told>>],
    gate: &G,
) -> Result<Seat, ServeFault>
    requires net { When K.kept (K.net ≡ net.now) }
    requires cells { AreCellsOf net.now cells.now }
    requires boxes { length boxes.now ≡ length net.now.conns }
    ensures caller { IfOk result (λ seat. seat.caller ≡ caller) }
    ensures messages { IfOk result (λ seat. All IsMessage seat.receipts) }
    ensures wound { (seen found : ℕ) → IsErrOf result (ServeFault.Wound seen found) → found < seen }
    ensures memory { ¬ IsErrOf result ServeFault.Memory }
{
    let router = RouterOf::<K>::new(net, to, boxes);
    let mut seat = Seat::new(alloc, caller);
    let mut count = CellCount::new();
    for _ in rt.forever() {
        let Ok(parcel) = from.recv(rt) else {
            break;
        };
        let Some(taken) = count.count::<K>(parcel) else {
            break;
        };
        for _time in 0..plan.times(taken.number) {
            relay(rt, &router, cells, gate, &mut seat, &taken.cell)?;
        }
    }
    Ok(seat)
}

// Has the message in a cell served by its port, and sends what follows the reply.
fn relay<K: Carrying, R: Wait, G: Gate>(
    rt: &R,
    router: &RouterOf<K>,
    cells: &[PortCellOf<K>],
    gate: &G,
    seat: &mut Seat,
    taken: &CellOf<K>,
) -> Result<(), ServeFault>
    requires net { When K.kept (K.net ≡ router.now.net.now) }
    requires cells { AreCellsOf router.now.net.now cells.now }
    ensures caller { seat.new.caller ≡ seat.old.caller }
    ensures messages { All IsMessage seat.old.receipts → All IsMessage seat.new.receipts }
    ensures wound { (seen found : ℕ) → IsErrOf result (ServeFault.Wound seen found) → found < seen }
    ensures memory { ¬ IsErrOf result ServeFault.Memory }
{
    let Some(cell) = cells.get(usize::from(taken.port())) else {
        return Ok(());
    };
    let Some(letter) = taken.letter() else {
        return Ok(());
    };
    let served = cell.deliver(rt, seat, gate, &letter);
    if let Some((reply, front)) = served_in(served)? {
        router.send_on(rt, letter.port(), letter.message(), &reply, front);
    }
    Ok(())
}

// What the worker goes on with, after a port's try to serve a message.
fn served_in<T: Drop>(served: Result<T, ServeFault>) -> Result<Option<T>, ServeFault>
    ensures { result ≡ deliveries.served_in served }
{
    match served {
        Ok(given) => Ok(Some(given)),
        Err(ServeFault::Memory) => Ok(None),
        Err(wound) => Err(wound),
    }
}
