//! Access workers.
ghost use Rattle.std.specs.Prelude.{◌≡◌, ◌<◌, ◌≤◌, ℕ, All, Some, IfOk, OnOk, IsErrOf, length, map, slice_index};
ghost use Rattle.abt_rate.specs.Limits.{delay_max, tau_max};
ghost use Rattle.abt_journal.specs.declared.fault.ServeFault.{ServeFault};
ghost use Rattle.abt_net.specs.Topology.{conn_at};
ghost use Rattle.abt_net.specs.declared.conn.Conn.{Conn};
ghost use Rattle.abt_history.specs.Modes.{When};
ghost use Rattle.abt_links.specs.Cells.{AreCellsOf};
ghost use Rattle.abt_links.specs.Lines.{IsLine, HasBegun};
ghost use Rattle.abt_links.specs.Promises.{KeepsAccess};
ghost use Rattle.abt_links.specs.Scripts.{RunsScript, IsInTolerance, step_of};
ghost use Rattle.abt_links.specs.SourceWorkers.{IsGiven, Obeys, StaysHome, worked};

use crate::access_line::AccessLine;
use crate::source_worker::SourceWorker;
use crate::{AnswerBox, Carrying, Gate, Parcel, PortCell, PortCellOf, RouterOf};
use abt_actor::SourceCommand;
use abt_history::SiteOf;
use abt_journal::{Seat, ServeFault};
use abt_model::{Command, Script, SourceJournal};
use abt_net::Net;
use crossbeam_channel::Sender;
use std::alloc::Global;
use std::collections::VecDeque;
use std::sync::{Mutex, Wait};

/// Runs the script of a connection's source (docs/RULES.md, "Workers"): has the first port of the path serve each
/// request that goes out, and each cell when it arrives, and sends what follows the port's replies. It may wait for
/// the port, and for the lock of the source's answer box.
///
/// # Errors
/// A port whose journal is shorter than what the source has seen of it ends the worker, and so does want of memory.
pub fn access_worker<R: Wait, G: Gate>(
    rt: &R,
    alloc: Global,
    net: &Net,
    conn: u16,
    script: &Script,
    cells: &[PortCell],
    to: Sender<Parcel>,
    boxes: &[AnswerBox],
    gate: &G,
) -> Result<(Seat, SourceJournal), ServeFault>
    requires conn { conn < length net.now.conns }
    requires jitters { (line : Conn) → conn_at net.now conn ≡ Some line →
        All (IsInTolerance line.tau) script.now }
    requires cells { AreCellsOf net.now cells.now }
    requires boxes { length boxes.now ≡ length net.now.conns }
    ensures caller { IfOk result (λ r. r.0.caller ≡ conn) }
    ensures runs { IfOk result (λ r. (line : Conn) → conn_at net.now conn ≡ Some line →
        RunsScript line conn script.now r.1.entries (map (λ receipt. step_of receipt.entry) r.0.receipts)) }
    ensures first { IfOk result (λ r. (line : Conn) → conn_at net.now conn ≡ Some line →
        All (λ receipt. receipt.port ≡ slice_index line.path 0) r.0.receipts) }
    ensures wound { (seen found : ℕ) → IsErrOf result (ServeFault.Wound seen found) → found < seen }
{
    let vc = net.conns()[usize::from(conn)].vc;
    let site = SiteOf::not_kept(alloc, conn, vc);
    let (seat, site) = run_script(rt, alloc, net, conn, site, script, cells, to, boxes, gate)?;
    let (journal, _) = site.end(rt);
    Ok((seat, journal))
}

// The same for a source of a run that keeps its history, or keeps none. Gives the source as the script left it.
pub(crate) fn run_script<K: Carrying, R: Wait, G: Gate>(
    rt: &R,
    alloc: Global,
    net: &Net,
    conn: u16,
    site: SiteOf<K>,
    script: &Script,
    cells: &[PortCellOf<K>],
    to: Sender<K::Parcel>,
    boxes: &[Mutex<VecDeque<K::Told>>],
    gate: &G,
) -> Result<(Seat, SiteOf<K>), ServeFault>
    requires net { When K.kept (K.net ≡ net.now) }
    requires own { site.conn ≡ conn }
    requires begun { HasBegun net.now site }
    requires jitters { (line : Conn) → conn_at net.now conn ≡ Some line →
        All (IsInTolerance line.tau) script.now }
    requires cells { AreCellsOf net.now cells.now }
    requires boxes { length boxes.now ≡ length net.now.conns }
    ensures caller { IfOk result (λ r. (r.0.caller ≡ conn) × (r.1.conn ≡ conn)) }
    ensures runs { IfOk result (λ r. (line : Conn) → conn_at net.now conn ≡ Some line →
        RunsScript line conn script.now r.1.entries
        (map (λ receipt. step_of receipt.entry) r.0.receipts)) }
    ensures first { IfOk result (λ r. (line : Conn) → conn_at net.now conn ≡ Some line →
        All (λ receipt. receipt.port ≡ slice_index line.path 0) r.0.receipts) }
    ensures wound { (seen found : ℕ) → IsErrOf result (ServeFault.Wound seen found) → found < seen }
    ensures keeps { KeepsAccess net.now conn script.now result }
{
    let place = usize::from(conn);
    let line = &net.conns()[place];
    let first = line.path.as_slice()[0];
    let line = AccessLine {
        conn: line,
        cell: &cells[usize::from(first)],
        answers: &boxes[place],
        router: RouterOf::<K>::new(net, to, boxes),
        gate,
    };
    let mut worker = SourceWorker::new(alloc, site);
    for command in script.as_slice() {
        worker.obey(rt, &line, command)?;
    }
    let SourceWorker { site, seat } = worker;
    Ok((seat, site))
}

impl<K: Carrying> SourceWorker<K> {
    // Obeys a command of the script.
    fn obey<R: Wait, G: Gate>(
        &mut self,
        rt: &R,
        line: &AccessLine<K, G>,
        command: &Command,
    ) -> Result<(), ServeFault>
        requires given { IsGiven self.old.site.vc self.old.site.actor }
        requires vc { self.old.site.vc ≡ line.now.conn.now.vc }
        requires delay { line.now.conn.now.delay ≤ delay_max }
        requires tau { line.now.conn.now.tau ≤ tau_max }
        requires jitter { IsInTolerance line.now.conn.now.tau command.now }
        requires net { When K.kept (K.net ≡ line.now.router.net.now) }
        requires line { When K.kept
            (IsLine K.net self.old.site.conn line.now.conn.now line.now.cell.now.port) }
        ensures ok { OnOk result (Obeys line.now.conn.now self.old.site.conn line.now.cell.now.port
            command.now (worked self.old) (worked self.new)) }
        ensures home { OnOk result (StaysHome self.old.site self.new.site) }
        ensures wound { (seen found : ℕ) → IsErrOf result (ServeFault.Wound seen found) → found < seen }
    {
        match *command {
            Command::Start { now } => {
                let seen = self.site.front();
                self.carry_out(rt, &seen, &SourceCommand::Start { now })?;
            }
            Command::Ask { rate, plan } => {
                let _units = rate.units();
                self.request(rt, line, &SourceCommand::Ask { rate, plan })?;
            }
            Command::Again => self.request(rt, line, &SourceCommand::Again)?,
            Command::Crash => {
                let seen = self.site.front();
                self.carry_out(rt, &seen, &SourceCommand::Crash)?;
            }
            Command::Emit { now, jitter } => self.emit(rt, line, now, jitter)?,
            Command::Listen { turns } => self.listen(rt, line, turns)?,
        }
        Ok(())
    }
}
