//! Runs of a net.
ghost use Rattle.std.specs.Prelude.{◌≡◌, ◌↔◌, ◌<◌, ◌≤◌, ◌++◌, ◌∷◌, ◌+◌, ℕ, [], IfOk, IfErr, IsErrOf, length, vec_len, vec_capacity};
ghost use Rattle.abt_rate.specs.Limits.{workers_max};
ghost use Rattle.abt_history.specs.Ended.{CanBeWoven};
ghost use Rattle.abt_links.specs.declared.fault.RunFault.{RunFault};
ghost use Rattle.abt_links.specs.Operations.{AreForPorts};
ghost use Rattle.abt_links.specs.Promises.{IsLate};
ghost use Rattle.abt_links.specs.Runs.{HasWorkers, ScriptsFit, IsRun};

use crate::boxes::empty_boxes;
use crate::ending::{end_ports, end_sources};
use crate::fault::RunFault;
use crate::gathered::Gathered;
use crate::opening::{opening_cells, opening_sites};
use crate::scripts::scripts_fit;
use crate::worker_results::WorkerResults;
use crate::workers::{Task, run_workers};
use crate::{Gate, ThreadPlan, are_for_ports};
use abt_history::{Naming, Opened, Place};
use abt_journal::{Seat, gather};
use abt_model::{Operation, Script};
use abt_net::Net;
use abt_rate::WORKERS_MAX;
use std::alloc::{AllocError, Global};
use std::marker::Brand;
use std::sync::Wait;
use std::thread::Threads;

/// Runs a net in threads of its own: an access worker for each connection, which carries out its script, link
/// workers, which carry messages between ports, and one worker for the operator, which gives ports the capacities of
/// its list (docs/RULES.md, "Workers"). When all access workers and the operator's have ended, each link worker is
/// stopped, and what lies in the channel is lost. All threads are joined, also if some couldn't be started. Then the
/// journals are gathered. They are one list of events.
///
/// The callers are the connections by their numbers, after them the link workers, and last the operator.
pub fn run_threads<R: Threads + Wait + Sync, G: Gate + Sync>(
    rt: &R,
    alloc: Global,
    net: &Net,
    scripts: &[Script],
    operations: &[Operation],
    plan: ThreadPlan,
    gate: &G,
) -> Result<Gathered, RunFault>
    ensures ok { IfOk result (IsRun net.now scripts.now operations.now plan.workers) }
    ensures woven { IfOk result (λ run. CanBeWoven net.now run.journals run.sources.items) }
    ensures workers { IsErrOf result RunFault.Workers ↔ ¬ HasWorkers plan }
    ensures scripts { IsErrOf result RunFault.Scripts ↔
        (HasWorkers plan × ¬ ScriptsFit net.now.conns scripts.now) }
    ensures operator { IsErrOf result RunFault.Operator
        ↔ (HasWorkers plan × ScriptsFit net.now.conns scripts.now × ¬ AreForPorts net.now operations.now) }
    ensures wound { (seen found : ℕ) → IsErrOf result (RunFault.Wound seen found) → found < seen }
{
    if plan.workers == 0 || plan.workers > WORKERS_MAX {
        return Err(RunFault::Workers);
    }
    if !scripts_fit(net.conns(), scripts) {
        return Err(RunFault::Scripts);
    }
    if !are_for_ports(net, operations) {
        return Err(RunFault::Operator);
    }
    run_over::<Brand, R, G>(rt, alloc, net, scripts, operations, plan, gate)
}

// Runs a net that is named.
fn run_over<N: Place + Send + Sync, R: Threads + Wait + Sync, G: Gate + Sync>(
    rt: &R,
    alloc: Global,
    net: &Net,
    scripts: &[Script],
    operations: &[Operation],
    plan: ThreadPlan,
    gate: &G,
) -> Result<Gathered, RunFault>
    requires net { N.net ≡ net.now }
    requires workers { plan.workers ≤ workers_max }
    requires scripts { ScriptsFit net.now.conns scripts.now }
    requires ports { AreForPorts net.now operations.now }
    ensures ok { IfOk result (IsRun net.now scripts.now operations.now plan.workers) }
    ensures woven { IfOk result (λ run. CanBeWoven net.now run.journals run.sources.items) }
    ensures late { IfErr result IsLate }
{
    let opened = Opened::<N>::new(net);
    run_named::<N, Brand, R, G>(rt, alloc, net, scripts, operations, plan, gate, opened)
}

// Runs a net, and keeps the history in a book that is named.
fn run_named<
    N: Place + Send + Sync,
    J: Naming + Send + Sync,
    R: Threads + Wait + Sync,
    G: Gate + Sync,
>(
    rt: &R,
    alloc: Global,
    net: &Net,
    scripts: &[Script],
    operations: &[Operation],
    plan: ThreadPlan,
    gate: &G,
    opened: Opened<N>,
) -> Result<Gathered, RunFault>
    requires net { N.net ≡ net.now }
    requires book { opened ≡ J.book }
    requires workers { plan.workers ≤ workers_max }
    requires scripts { ScriptsFit net.now.conns scripts.now }
    requires ports { AreForPorts net.now operations.now }
    ensures ok { IfOk result (IsRun net.now scripts.now operations.now plan.workers) }
    ensures woven { IfOk result (λ run. CanBeWoven net.now run.journals run.sources.items) }
    ensures late { IfErr result IsLate }
{
    let mut book = opened.named::<J>(net);
    let cells = opening_cells(alloc, net, &mut book)?;
    let sites = opening_sites(alloc, net, &mut book)?;
    let states = Vec::with_capacity(alloc, cells.len())?;
    let sources = Vec::with_capacity(alloc, sites.len())?;
    let boxes = empty_boxes(alloc, net.conns().len())?;
    let task = Task {
        net: &*net,
        scripts: &*scripts,
        operations: &*operations,
        cells: &cells,
        boxes: &boxes,
        gate: &*gate,
    };
    let WorkerResults {
        accesses,
        sites,
        links,
        operator,
    } = run_workers(rt, alloc, task, plan, sites)?;
    let seats = together(accesses, links, operator)?;
    let (states, front) = end_ports(rt, cells, states, book.front());
    let (sources, front) = end_sources(rt, sites, sources, front);
    let _legal = front.again();
    let journals = gather(alloc, net, states, seats)?;
    Ok(Gathered { journals, sources })
}

// The seats of all workers.
fn together(mut seats: Vec<Seat>, links: Vec<Seat>, operator: Seat) -> Result<Vec<Seat>, AllocError>
    ensures { IfOk result (λ all. all.items ≡ (seats.items ++ links.items) ++ operator ∷ []) }
{
    for seat in links {
        seats.push(seat)?;
    }
    seats.push(operator)?;
    Ok(seats)
}
