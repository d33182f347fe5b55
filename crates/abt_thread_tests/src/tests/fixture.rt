//! Nets, scripts and runs that the tests share. If memory is refused, `None` is given.
ghost use Rattle.std.specs.Prelude.{◌≡◌, ◌<◌, ◌↔◌, IsTrue, IfSome, All, Some, length, vec_len};
ghost use Rattle.abt_journal.specs.Opening.{IsOpening};
ghost use Rattle.abt_net.specs.Topology.{conn_at};
ghost use Rattle.abt_net.specs.declared.conn.Conn.{Conn};
ghost use Rattle.abt_links.specs.Cells.{AreCellsOf};
ghost use Rattle.abt_links.specs.Scripts.{IsInTolerance};

use abt_cell::{Request, Vc};
use abt_journal::{Entry, PortState};
use abt_keep::StorePlan;
use abt_links::{AnswerBox, Gate, Gathered, OpenGate, PortCell, RunFault, ThreadPlan, run_threads};
use abt_model::{Command, Event, Operation, Script, SourceEntry};
use abt_net::{Conn, Net, Path};
use abt_node::Port;
use abt_rate::Rate;
use std::alloc::Global;
use std::collections::VecDeque;
use std::sync::{Mutex, Wait};
use std::test::Fail;
use std::thread::Threads;

/// How often a source looks for an answer that comes.
pub(super) const LONG: u32 = 100_000_000;

/// How often a gate looks for the call that it waits for.
pub(super) const TURNS: u64 = 100_000_000;

/// By docs/RULES.md, "Rates", codes 5120 and 5258 are 400 and 600 cells per second.
pub(super) fn ask(code: u16) -> Command {
    Command::Ask {
        rate: Rate::from_code(code),
        plan: StorePlan::Works,
    }
}

pub(super) const START: Command = Command::Start { now: 0 };

pub(super) fn listen(turns: u32) -> Command {
    Command::Listen { turns }
}

/// Connections of VPI 1 from VCI 100 on, along these paths with these delays and taus, over ports of 1,000 cells per second.
pub(super) fn net(alloc: Global, ports: usize, conns: &[(&[u16], u64, u64)]) -> Option<Net> {
    net_over(alloc, vec![in alloc; 512000u64; ports].ok()?, conns)
}

// A connection of VPI 1.
fn conn(alloc: Global, vci: u16, path: &[u16], delay: u64, tau: u64) -> Option<Conn> {
    Some(Conn {
        vc: Vc::new(1, vci)?,
        path: Path::from(path.to_vec(alloc).ok()?),
        delay,
        tau,
    })
}

/// Connections as [`net`] has them, over ports of these capacities.
pub(super) fn net_over(
    alloc: Global,
    capacities: Vec<u64>,
    conns: &[(&[u16], u64, u64)],
) -> Option<Net> {
    let mut listed = Vec::new(alloc);
    let mut vci = 100u16;
    for (path, delay, tau) in conns {
        listed.push(conn(alloc, vci, path, *delay, *tau)?).ok()?;
        vci = vci.saturating_add(1);
    }
    Net::build(alloc, capacities, listed).ok()
}

/// The net with one port and one connection through it.
pub(super) fn one_port(alloc: Global) -> Result<Net, Fail> {
    Ok(net(alloc, 1, &[(&[0], 1000, 200)]).ok_or("no net")?)
}

/// Scripts with these commands.
pub(super) fn scripts(alloc: Global, all: &[&[Command]]) -> Option<Vec<Script>> {
    let mut listed = Vec::with_capacity(alloc, all.len()).ok()?;
    for commands in all {
        listed
            .push(Script::from(commands.to_vec(alloc).ok()?))
            .ok()?;
    }
    Some(listed)
}

/// A plan by which nothing is lost or repeated.
pub(super) fn faithful(workers: u16) -> ThreadPlan {
    ThreadPlan {
        workers,
        drop_every: 0,
        repeat_every: 0,
    }
}

/// A run of these scripts with this plan, where no gate holds anybody.
pub(super) fn ran<R: Threads + Wait + Sync>(
    rt: &R,
    alloc: Global,
    net: &Net,
    all: &[&[Command]],
    plan: ThreadPlan,
) -> Result<Gathered, RunFault> {
    ran_at(rt, alloc, net, all, plan, &OpenGate)
}

/// A run of these scripts with this plan, past a gate.
pub(super) fn ran_at<R: Threads + Wait + Sync, G: Gate + Sync>(
    rt: &R,
    alloc: Global,
    net: &Net,
    all: &[&[Command]],
    plan: ThreadPlan,
    gate: &G,
) -> Result<Gathered, RunFault> {
    ran_beside(rt, alloc, net, all, &[], plan, gate)
}

/// A run of these scripts with this plan, beside an operator with this list.
pub(super) fn ran_beside<R: Threads + Wait + Sync, G: Gate + Sync>(
    rt: &R,
    alloc: Global,
    net: &Net,
    all: &[&[Command]],
    operations: &[Operation],
    plan: ThreadPlan,
    gate: &G,
) -> Result<Gathered, RunFault> {
    let Some(scripts) = scripts(alloc, all) else {
        return Err(RunFault::Memory);
    };
    run_threads(rt, alloc, net, &scripts, operations, plan, gate)
}

/// The first request that a source without a rate makes.
pub(super) fn first_request(vci: u16, code: u16) -> Result<Request, Fail> {
    request(vci, 1, code)
}

/// The request of this number that a source without a rate makes.
pub(super) fn request(vci: u16, seq: u32, code: u16) -> Result<Request, Fail> {
    let vc = Vc::new(1, vci).ok_or("the VPI is too great")?;
    Ok(Request::new(vc, seq, Rate::ZERO, Rate::from_code(code)).ok_or("no such request")?)
}

/// Whether the entry is for an event of which this holds.
pub(super) fn is_told(entry: &SourceEntry, number: u32) -> bool {
    matches!(entry, SourceEntry::Did(Event::Told { conn: 0, seq, granted: true }, _) if *seq == number)
}

/// The entries of a source.
pub(super) fn entries(run: &Gathered, conn: usize) -> &[SourceEntry] {
    match run.sources.get(conn) {
        Some(journal) => journal.entries.as_slice(),
        None => &[],
    }
}

/// The entries of a port.
pub(super) fn port(run: &Gathered, number: usize) -> &[Entry] {
    match run.journals.ports.get(number) {
        Some(entries) => entries.as_slice(),
        None => &[],
    }
}

/// A port of 1,000 cells per second with one connection, which it polices, before the first event.
fn lone_port(alloc: Global, vc: Vc) -> Option<Port>
    ensures opening { IfSome result IsOpening }
    ensures id { IfSome result (λ port. port.id ≡ 0) }
{
    let Ok(mut port) = Port::new(alloc, 0, 512000) else {
        return None;
    };
    port.add(vc, Some(200)).ok()?;
    Some(port)
}

/// The port of the net with one port, under its lock.
pub(super) fn lone_cells(alloc: Global, net: &Net) -> Option<Vec<PortCell>>
    ensures { IfSome result (λ cells. AreCellsOf net.now cells.items) }
{
    if net.capacities().len() != 1 {
        return None;
    }
    let state = PortState::new(alloc, lone_port(alloc, Vc::new(1, 100)?)?);
    let mut cells = Vec::new(alloc);
    cells.push(PortCell::new(state)).ok()?;
    Some(cells)
}

/// An empty box for each connection of the net with one.
pub(super) fn lone_boxes(alloc: Global, net: &Net) -> Option<Vec<AnswerBox>>
    ensures { IfSome result (λ boxes. vec_len boxes ≡ length net.now.conns) }
{
    if net.conns().len() != 1 {
        return None;
    }
    let mut boxes = Vec::new(alloc);
    boxes.push(Mutex::new(VecDeque::new(alloc))).ok()?;
    Some(boxes)
}

/// Whether no jitter of these commands is above a tau.
fn are_in_tolerance(commands: &[Command], tau: u64) -> bool
    ensures { IsTrue result ↔ All (IsInTolerance tau) commands.now }
{
    commands.iter().all(|command| is_in_tolerance(command, tau))
}

fn is_in_tolerance(command: &Command, tau: u64) -> bool
    ensures { IsTrue result ↔ IsInTolerance tau command.now }
{
    match *command {
        Command::Emit {
            now: _,
            jitter: Some(jitter),
        } => jitter <= tau,
        _ => true,
    }
}

/// Whether a script fits the connection of this number.
pub(super) fn fits(net: &Net, conn: u16, script: &Script) -> bool
    ensures conn { IsTrue result → conn < length net.now.conns }
    ensures jitters { IsTrue result → (line : Conn) → conn_at net.now conn ≡ Some line →
        All (IsInTolerance line.tau) script.now }
{
    match net.conns().get(usize::from(conn)) {
        Some(line) => are_in_tolerance(script.as_slice(), line.tau),
        None => false,
    }
}
