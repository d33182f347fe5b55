//! Workers that are started.
ghost use Rattle.std.specs.Prelude.{◌≡◌, ◌≤◌, ◌+◌, [], false, IsTrue, length, map, vec_len, vec_capacity, IfSome, IsSome};
ghost use Rattle.abt_links.specs.Cells.{AreCellsOf};
ghost use Rattle.abt_links.specs.Lines.{HasBegun, HaveBegunFrom};
ghost use Rattle.abt_links.specs.Operations.{AreForPorts};
ghost use Rattle.abt_links.specs.Runs.{ScriptsFit};
ghost use Rattle.abt_links.specs.Promises.{AreAccessesFrom, AreLinksFrom};

use crate::access::run_script;
use crate::handles::{WorkerHandles, WorkersWithOperator};
use crate::promises::{AccessOf, LinkOf, OperatorOf};
use crate::scripts::script_of;
use crate::{Carrying, Gate, ParcelOf, PortCellOf, ThreadPlan, link_worker, operator_worker};
use abt_history::{Keeping, Kept, Naming, Place, Site, SiteOf};
use abt_model::{Operation, Script};
use abt_net::Net;
use crossbeam_channel::{Receiver, Sender};
use std::alloc::Global;
use std::collections::VecDeque;
use std::snapshot::Snapshot;
use std::sync::{Mutex, Wait};
use std::thread::{Scope, Threads};

/// The context that all workers of a run share.
#[derive(Drop)]
pub(crate) struct RunContext<'run, K: Carrying, G> {
    pub(crate) net: &'run Net,
    pub(crate) cells: &'run [PortCellOf<K>],
    pub(crate) boxes: &'run [Mutex<VecDeque<K::Told>>],
    pub(crate) gate: &'run G,
}

// Starts a link worker for each of these ends of the channel, with the callers after those of the connections. If one can't be
// started, no other one is, and the handles aren't those of all workers.
pub(crate) fn start_links<
    'run,
    E,
    N: Place + Send + Sync,
    J: Naming + Send + Sync,
    R: Threads + Wait + Sync,
    G: Gate + Sync,
>(
    mut handles: WorkerHandles<Kept<N, J>>,
    scope: &Scope<'run, E>,
    rt: &'run R,
    alloc: Global,
    context: &RunContext<'run, Kept<N, J>, G>,
    plan: ThreadPlan,
    ends: Vec<(Sender<ParcelOf<Kept<N, J>>>, Receiver<ParcelOf<Kept<N, J>>>)>,
) -> WorkerHandles<Kept<N, J>>
    requires net { N.net ≡ context.now.net.now }
    requires cells { AreCellsOf context.now.net.now context.now.cells.now }
    requires boxes { length context.now.boxes.now ≡ length context.now.net.now.conns }
    requires callers { length context.now.net.now.conns + vec_len ends ≤ 65535 }
    requires empty { handles.links.items ≡ [] }
    requires room { vec_len ends ≤ vec_capacity handles.links }
    ensures most { vec_len result.links ≤ vec_len ends }
    ensures all { IsTrue result.complete → vec_len result.links ≡ vec_len ends }
    ensures each { AreLinksFrom (length context.now.net.now.conns) (map (λ h. h.promise) result.links.items) }
    ensures sources { result.sources ≡ handles.sources }
{
    let RunContext {
        net,
        cells,
        boxes,
        gate,
    } = *context;
    let mut caller = net.conns().len() as u16;
    for (to, from) in ends {
        let Ok(handle) = scope.spawn_with(LinkOf { caller }, move || {
            link_worker(rt, alloc, net, caller, plan, cells, to, from, boxes, gate)
        }) else {
            return handles.broken_off();
        };
        handles.add_link(handle);
        caller += 1;
    }
    handles
}

// That a source is the next one and has done nothing, as a fact for the proofs: its body only looks at it.
fn has_begun<K: Keeping>(net: &Net, conn: u16, site: &SiteOf<K>)
    requires own { site.now.conn ≡ conn }
    requires begun { HasBegun net.now site.now }
    ensures own { site.now.conn ≡ conn }
    ensures begun { HasBegun net.now site.now }
{
    let _ports = net.capacities();
    let _conn = site.conn() == conn;
}

// Starts an access worker for each connection, if all workers so far could be started. If one can't be started, no other one is, and
// the handles aren't those of all workers.
pub(crate) fn start_sources<
    'run,
    E,
    N: Place + Send + Sync,
    J: Naming + Send + Sync,
    R: Threads + Wait + Sync,
    G: Gate + Sync,
>(
    mut handles: WorkerHandles<Kept<N, J>>,
    scope: &Scope<'run, E>,
    rt: &'run R,
    alloc: Global,
    context: &RunContext<'run, Kept<N, J>, G>,
    scripts: &'run [Script],
    ends: Vec<(Sender<ParcelOf<Kept<N, J>>>, Site<N, J>)>,
) -> WorkerHandles<Kept<N, J>>
    requires net { N.net ≡ context.now.net.now }
    requires begun { HaveBegunFrom context.now.net.now 0 (map (λ e. e.1) ends.items) }
    requires cells { AreCellsOf context.now.net.now context.now.cells.now }
    requires boxes { length context.now.boxes.now ≡ length context.now.net.now.conns }
    requires scripts { ScriptsFit context.now.net.now.conns scripts.now }
    requires callers { length scripts.now ≤ 65535 }
    requires ends { vec_len ends ≡ length scripts.now }
    requires empty { handles.sources.items ≡ [] }
    requires room { vec_len ends ≤ vec_capacity handles.sources }
    ensures most { vec_len result.sources ≤ length scripts.now }
    ensures all { IsTrue result.complete → (vec_len result.sources ≡ length scripts.now) ×
        IsTrue handles.complete }
    ensures each { AreAccessesFrom context.now.net.now 0 scripts.now
        (map (λ h. h.promise) result.sources.items) }
    ensures links { result.links ≡ handles.links }
    ensures none { handles.complete ≡ false → result.sources.items ≡ [] }
{
    if !handles.is_complete() {
        return handles;
    }
    let RunContext {
        net,
        cells,
        boxes,
        gate,
    } = *context;
    let mut conn = 0;
    for (to, site) in ends {
        has_begun(net, conn, &site);
        let script = script_of(net, scripts, conn);
        let promise = AccessOf {
            conn,
            net: Snapshot::of(net),
            script: Snapshot::of(script),
        };
        let Ok(handle) = scope.spawn_with(promise, move || {
            run_script(rt, alloc, net, conn, site, script, cells, to, boxes, gate)
        }) else {
            return handles.broken_off();
        };
        handles.add_source(handle);
        conn += 1;
    }
    handles
}

// Starts the operator's worker, with the caller after those of the link workers, if all workers so far could be started.
pub(crate) fn start_operator<
    'run,
    E,
    N: Place + Send + Sync,
    J: Naming + Send + Sync,
    R: Threads + Wait + Sync,
    G: Gate + Sync,
>(
    handles: WorkerHandles<Kept<N, J>>,
    scope: &Scope<'run, E>,
    rt: &'run R,
    alloc: Global,
    context: &RunContext<'run, Kept<N, J>, G>,
    caller: u16,
    operations: &'run [Operation],
) -> WorkersWithOperator<'run, Kept<N, J>>
    requires cells { AreCellsOf context.now.net.now context.now.cells.now }
    requires ports { AreForPorts context.now.net.now operations.now }
    ensures handles { (result.handles.links ≡ handles.links) × (result.handles.sources ≡ handles.sources) }
    ensures operator { IfSome result.operator (λ h. (h.promise.caller ≡ caller)
        × (h.promise.operations.now ≡ operations.now)) }
    ensures all { IsSome result.operator → IsTrue handles.complete }
{
    if !handles.is_complete() {
        return WorkersWithOperator::new(handles, None);
    }
    let RunContext {
        net,
        cells,
        boxes: _,
        gate,
    } = *context;
    let promise = OperatorOf { caller, operations };
    let Ok(handle) = scope.spawn_with(promise, move || {
        operator_worker(rt, alloc, net, caller, operations, cells, gate)
    }) else {
        return WorkersWithOperator::new(handles, None);
    };
    WorkersWithOperator::new(handles, Some(handle))
}
