//! An operator, who gives a port another capacity.
use abt_history::{Keeping, StationOf};
use abt_journal::Seat;
use std::alloc::Global;
use std::sync::{Mutex, Wait};

/// Has a port take these capacities, in units, and gives the seat.
pub(super) fn operate<K: Keeping, R: Wait>(
    rt: &R,
    alloc: Global,
    port: &Mutex<StationOf<K>>,
    capacities: &[u64],
) -> Seat {
    let mut seat = Seat::new(alloc, 2);
    for capacity in capacities {
        let mut station = port.lock(rt);
        let _ = station.set_capacity(rt, &mut seat, *capacity);
    }
    seat
}
