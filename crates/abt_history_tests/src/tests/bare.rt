//! Runs that keep no history, by the same workers.
use super::ends::{Left, ended};
use super::link::Ports;
use super::opening::opened;
use super::threads::{Plan, run};
use abt_history::{NotKept, SiteOf, StationOf};
use abt_net::Net;
use std::alloc::Global;
use std::sync::{Mutex, Wait};
use std::thread::Threads;

// A port before the first event.
fn station(alloc: Global, net: &Net, port: u16) -> Option<Mutex<StationOf<NotKept>>> {
    if usize::from(port) >= net.capacities().len() {
        return None;
    }
    let state = opened(alloc, net, port).ok()?;
    Some(Mutex::new(StationOf::not_kept(state)))
}

/// What a run of a net with two ports and one connection leaves.
pub(super) fn bare<R: Threads + Wait + Sync>(
    rt: &R,
    alloc: Global,
    net: &Net,
    plan: Plan,
) -> Option<Left> {
    let zero = station(alloc, net, 0)?;
    let one = station(alloc, net, 1)?;
    let mut site = SiteOf::not_kept(alloc, 0, net.conns().first()?.vc);
    let ports = Ports {
        zero: &zero,
        one: &one,
    };
    run(rt, alloc, net, ports, &mut site, plan)?;
    let ports = (zero.into_inner(), one.into_inner());
    ended(rt, alloc, NotKept, ports, site)
}
