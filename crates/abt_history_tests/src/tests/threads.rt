//! A source, a link worker and an operator side by side.
ghost use Rattle.std.specs.Prelude.{◌≡◌};
ghost use Rattle.abt_history.specs.Modes.{When};

use super::access::Access;
use super::link::{Losses, Ports, link};
use super::messages::{Parcel, Report};
use super::operator::operate;
use super::source::{Errand, source};
use abt_history::{Keeping, SiteOf};
use abt_net::Net;
use crossbeam_channel::{Receiver, Sender, unbounded};
use std::alloc::Global;
use std::sync::Wait;
use std::thread;
use std::thread::{Scope, Threads};

/// What workers are to do.
#[derive(Clone, Copy)]
pub(super) struct Plan<'run> {
    pub(super) losses: Losses,
    pub(super) errand: Errand,
    pub(super) capacities: &'run [u64],
}

// The ends of both channels: that of the source, and those of the link worker.
#[derive(Drop)]
struct Ends<K: Keeping> {
    to: Sender<Parcel<K>>,
    reports: Receiver<Report<K>>,
    parcels: Receiver<Parcel<K>>,
    on: Sender<Parcel<K>>,
    back: Sender<Report<K>>,
}

impl<K: Keeping> Ends<K> {
    fn new(alloc: Global) -> Option<Ends<K>> {
        let (to, parcels) = unbounded(alloc).ok()?;
        let (back, reports) = unbounded(alloc).ok()?;
        let on = to.clone().ok()?;
        Some(Ends {
            to,
            reports,
            parcels,
            on,
            back,
        })
    }
}

/// Runs the workers until all have ended.
pub(super) fn run<
    F: Drop + Send + Sync,
    T: Drop + Send + Sync,
    K: Keeping<Front = F, Tally = T> + Send + Sync,
    R: Threads + Wait + Sync,
>(rt: &R, alloc: Global, net: &Net, ports: Ports<K>, site: &mut SiteOf<K>, plan: Plan) -> Option<()>
    requires net { When K.kept (K.net ≡ net.now) }
{
    let ends = Ends::new(alloc)?;
    in_threads(rt, alloc, net, ports, site, plan, ends)
}

fn in_threads<
    F: Drop + Send + Sync,
    T: Drop + Send + Sync,
    K: Keeping<Front = F, Tally = T> + Send + Sync,
    R: Threads + Wait + Sync,
>(
    rt: &R,
    alloc: Global,
    net: &Net,
    ports: Ports<K>,
    site: &mut SiteOf<K>,
    plan: Plan,
    ends: Ends<K>,
) -> Option<()>
    requires net { When K.kept (K.net ≡ net.now) }
{
    thread::scope(
        thread::scope_env(),
        rt,
        |scope| -> Option<()>
            requires { When K.kept (K.net ≡ net.now) }
        { in_scope(scope, rt, alloc, net, ports, site, plan, ends) },
    )
}

fn in_scope<
    'run,
    E,
    F: Drop + Send + Sync + 'run,
    T: Drop + Send + Sync + 'run,
    K: Keeping<Front = F, Tally = T> + Send + Sync + 'run,
    R: Threads + Wait + Sync,
>(
    scope: &Scope<'run, E>,
    rt: &'run R,
    alloc: Global,
    net: &'run Net,
    ports: Ports<'run, K>,
    site: &mut SiteOf<K>,
    plan: Plan<'run>,
    ends: Ends<K>,
) -> Option<()>
    requires net { When K.kept (K.net ≡ net.now) }
{
    let Plan {
        losses,
        errand,
        capacities,
    } = plan;
    let Ends {
        to,
        reports,
        parcels,
        on,
        back,
    } = ends;
    let Ports { zero, one } = ports;
    let operator = scope
        .spawn(move || operate(rt, alloc, one, capacities))
        .ok()?;
    let linked = scope
        .spawn(move || link(
            rt,
            alloc,
            net,
            Ports { zero, one },
            losses,
            parcels,
            on,
            back,
        ))
        .ok()?;
    let access = Access {
        port: zero,
        to,
        from: reports,
    };
    let _own = source(rt, alloc, net, site, access, errand);
    let _linked = linked.join(rt);
    let _operator = operator.join(rt);
    Some(())
}
