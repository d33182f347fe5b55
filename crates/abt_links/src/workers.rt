//! All workers of a run, from their start to their end.
ghost use Rattle.std.specs.Prelude.{◌≡◌, ◌≤◌, ◌+◌, ◌<◌, ℕ, IfOk, IsErrOf, length, map, vec_len};
ghost use Rattle.abt_rate.specs.Limits.{net_connections_max, workers_max};
ghost use Rattle.abt_links.specs.Cells.{AreCellsOf};
ghost use Rattle.abt_links.specs.declared.fault.RunFault.{RunFault};
ghost use Rattle.abt_links.specs.Lines.{HaveBegunFrom};
ghost use Rattle.abt_links.specs.Operations.{AreForPorts};
ghost use Rattle.abt_links.specs.Runs.{ScriptsFit};
ghost use Rattle.abt_links.specs.Promises.{AreWorked, IsOwnFault};

use crate::fault::RunFault;
use crate::handles::WorkerHandles;
use crate::start::{RunContext, start_links, start_operator, start_sources};
use crate::stop::room_for_stops;
use crate::worker_results::{WorkerResults, worked_of};
use crate::{Carrying, Gate, ParcelOf, PortCellOf, ThreadPlan};
use abt_history::{Kept, Naming, Place, Site, SiteOf};
use abt_model::{Operation, Script};
use abt_net::Net;
use crossbeam_channel::{Receiver, Sender, unbounded};
use std::alloc::{AllocError, Global};
use std::collections::VecDeque;
use std::sync::{Mutex, Wait};
use std::thread;
use std::thread::{Scope, Threads};

/// What a run is of: its net with the scripts and the operator's list, its ports and its answer boxes.
#[derive(Drop)]
pub(crate) struct Task<'run, K: Carrying, G> {
    pub(crate) net: &'run Net,
    pub(crate) scripts: &'run [Script],
    pub(crate) operations: &'run [Operation],
    pub(crate) cells: &'run [PortCellOf<K>],
    pub(crate) boxes: &'run [Mutex<VecDeque<K::Told>>],
    pub(crate) gate: &'run G,
}

// Starts the workers of a run, and joins them all.
pub(crate) fn run_workers<
    N: Place + Send + Sync,
    J: Naming + Send + Sync,
    R: Threads + Wait + Sync,
    G: Gate + Sync,
>(
    rt: &R,
    alloc: Global,
    task: Task<Kept<N, J>, G>,
    plan: ThreadPlan,
    sites: Vec<Site<N, J>>,
) -> Result<WorkerResults<Kept<N, J>>, RunFault>
    requires net { N.net ≡ task.net.now }
    requires sites { length sites.items ≡ length task.net.now.conns }
    requires begun { HaveBegunFrom task.net.now 0 sites.items }
    requires workers { plan.workers ≤ workers_max }
    requires cells { AreCellsOf task.net.now task.cells.now }
    requires boxes { length task.boxes.now ≡ length task.net.now.conns }
    requires scripts { ScriptsFit task.net.now.conns task.scripts.now }
    requires ports { AreForPorts task.net.now task.operations.now }
    requires callers { length task.scripts.now ≤ net_connections_max }
    ensures worked { IfOk result (AreWorked task.entry.net.now task.entry.scripts.now
        task.entry.operations.now plan.workers) }
    ensures own { IsOwnFault result }
{
    thread::scope(
        thread::scope_env(),
        rt,
        |scope| -> Result<WorkerResults<Kept<N, J>>, RunFault>
            requires net { N.net ≡ task.net.now }
            requires sites { length sites.items ≡ length task.net.now.conns }
            requires begun { HaveBegunFrom task.net.now 0 sites.items }
            requires workers { plan.workers ≤ workers_max }
            requires cells { AreCellsOf task.net.now task.cells.now }
            requires boxes { length task.boxes.now ≡ length task.net.now.conns }
            requires scripts { ScriptsFit task.net.now.conns task.scripts.now }
            requires ports { AreForPorts task.net.now task.operations.now }
            requires callers { length task.scripts.now ≤ net_connections_max }
            ensures worked { IfOk result (AreWorked task.entry.net.now task.entry.scripts.now
                task.entry.operations.now plan.workers) }
            ensures own { IsOwnFault result }
        { run_in(scope, rt, alloc, task, plan, sites) },
    )
}

// Starts the workers of a run in a scope, and joins them all.
fn run_in<
    'run,
    E,
    N: Place + Send + Sync,
    J: Naming + Send + Sync,
    R: Threads + Wait + Sync,
    G: Gate + Sync,
>(
    scope: &Scope<'run, E>,
    rt: &'run R,
    alloc: Global,
    task: Task<'run, Kept<N, J>, G>,
    plan: ThreadPlan,
    sites: Vec<Site<N, J>>,
) -> Result<WorkerResults<Kept<N, J>>, RunFault>
    requires net { N.net ≡ task.net.now }
    requires sites { length sites.items ≡ length task.net.now.conns }
    requires begun { HaveBegunFrom task.net.now 0 sites.items }
    requires workers { plan.workers ≤ workers_max }
    requires cells { AreCellsOf task.net.now task.cells.now }
    requires boxes { length task.boxes.now ≡ length task.net.now.conns }
    requires scripts { ScriptsFit task.net.now.conns task.scripts.now }
    requires ports { AreForPorts task.net.now task.operations.now }
    requires callers { length task.scripts.now ≤ net_connections_max }
    ensures worked { IfOk result (AreWorked task.entry.net.now task.entry.scripts.now
        task.entry.operations.now plan.workers) }
    ensures own { IsOwnFault result }
{
    let Task {
        net,
        scripts,
        operations,
        cells,
        boxes,
        gate,
    } = task;
    let workers = usize::from(plan.workers);
    let (to, from) = unbounded(alloc)?;
    room_for_stops::<Kept<N, J>, R>(rt, &to, &from, workers)?;
    let source_ends = with_senders::<Kept<N, J>>(alloc, &to, sites)?;
    let link_ends = pairs::<Kept<N, J>>(alloc, &to, &from, workers)?;
    drop(from);
    let sources = Vec::with_capacity(alloc, scripts.len())?;
    let links = Vec::with_capacity(alloc, workers)?;
    let handles = WorkerHandles::new(alloc, to, workers, scripts.len())?;
    let context = RunContext {
        net,
        cells,
        boxes,
        gate,
    };
    let handles = start_links(handles, scope, rt, alloc, &context, plan, link_ends);
    let handles = start_sources(handles, scope, rt, alloc, &context, scripts, source_ends);
    let caller = net.conns().len() as u16 + plan.workers;
    let with_operator = start_operator(handles, scope, rt, alloc, &context, caller, operations);
    worked_of(alloc, with_operator.stop_and_join(rt, sources, links))
}

// Sources, each with a sender of one channel.
fn with_senders<K: Carrying>(
    alloc: Global,
    to: &Sender<K::Parcel>,
    sites: Vec<SiteOf<K>>,
) -> Result<Vec<(Sender<K::Parcel>, SiteOf<K>)>, AllocError>
    ensures { IfOk result (λ ends. map (λ e. e.1) ends.items ≡ sites.items) }
{
    let mut ends = Vec::with_capacity(alloc, sites.len())?;
    for site in sites {
        ends.push((to.clone()?, site))?;
    }
    Ok(ends)
}

// So many pairs of ends of one channel.
fn pairs<K: Carrying>(
    alloc: Global,
    to: &Sender<K::Parcel>,
    from: &Receiver<K::Parcel>,
    count: usize,
) -> Result<Vec<(Sender<K::Parcel>, Receiver<K::Parcel>)>, AllocError>
    ensures { IfOk result (λ ends. vec_len ends ≡ count) }
{
    let mut ends = Vec::with_capacity(alloc, count)?;
    for _made in 0..count {
        ends.push((to.clone()?, from.clone()?))?;
    }
    Ok(ends)
}
