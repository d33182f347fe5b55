//! Cells of a source.
ghost use Rattle.std.specs.Prelude.{◌≡◌, ◌≤◌, ◌<◌, ◌∷◌, ℕ, List, IfSome, OnOk, IsErrOf};
ghost use Rattle.abt_rate.specs.Limits.{delay_max, emit_max, tau_max};
ghost use Rattle.std.specs.Option.{ForSome};
ghost use Rattle.abt_journal.specs.declared.fault.ServeFault.{ServeFault};
ghost use Rattle.abt_model.specs.declared.outcome.Outcome.TheVariants.{Emitted};
ghost use Rattle.abt_model.specs.declared.script_command.Command.TheVariants.{Emit};
ghost use Rattle.abt_history.specs.Modes.{When};
ghost use Rattle.abt_links.specs.CommandEffects as effects;
ghost use Rattle.abt_links.specs.Lines.{IsLine};
ghost use Rattle.abt_links.specs.SourceWorkers.{IsGiven, Obeys, StaysHome, worked};

use crate::access_line::AccessLine;
use crate::source_worker::SourceWorker;
use crate::{Carrying, Gate};
use abt_actor::{Outcome, SourceCommand};
use abt_history::Brought;
use abt_journal::ServeFault;
use abt_net::Conn;
use std::sync::Wait;

// When a cell arrives that left at `now` and is later by its jitter than its line's delay: not before the last arrival.
fn arrival_of(conn: &Conn, arrived: u64, now: u64, jitter: u64) -> u64
    requires now { now ≤ emit_max }
    requires delay { conn.now.delay ≤ delay_max }
    requires jitter { jitter ≤ tau_max }
    ensures { result ≡ effects.arrival_of conn.now arrived now jitter }
{
    (now + conn.delay + jitter).max(arrived)
}

// The cell that leaves, if one does.
fn cell_in(outcome: &Outcome) -> Option<u64>
    ensures value { result ≡ effects.cell_in outcome.now }
    ensures shape { IfSome result (λ cell. (next : ℕ) × (outcome.now ≡ Emitted cell next)) }
{
    match *outcome {
        Outcome::Emitted { cell, next: _ } => Some(cell),
        _ => None,
    }
}

impl<K: Carrying> SourceWorker<K> {
    // Has the source send a cell, and has the first port serve it when it arrives.
    pub(crate) fn emit<R: Wait, G: Gate>(
        &mut self,
        rt: &R,
        line: &AccessLine<K, G>,
        now: u64,
        jitter: Option<u64>,
    ) -> Result<(), ServeFault>
        requires given { IsGiven self.old.site.vc self.old.site.actor }
        requires vc { self.old.site.vc ≡ line.now.conn.now.vc }
        requires delay { line.now.conn.now.delay ≤ delay_max }
        requires tau { line.now.conn.now.tau ≤ tau_max }
        requires jitter { ForSome jitter (λ j. j ≤ line.now.conn.now.tau) }
        requires line { When K.kept
            (IsLine K.net self.old.site.conn line.now.conn.now line.now.cell.now.port) }
        ensures ok { OnOk result (Obeys line.now.conn.now self.old.site.conn line.now.cell.now.port
            (Emit now jitter) (worked self.old) (worked self.new)) }
        ensures home { OnOk result (StaysHome self.old.site self.new.site) }
        ensures wound { (seen found : ℕ) → IsErrOf result (ServeFault.Wound seen found) → found < seen }
    {
        let seen = self.site.front();
        let outcome = self.carry_out(rt, &seen, &SourceCommand::Emit { now })?;
        let Some(cell) = cell_in(&outcome) else {
            return Ok(());
        };
        let Some(jitter) = jitter else {
            return Ok(());
        };
        let at = arrival_of(line.conn, self.site.arrived(), now, jitter);
        let brought = Brought::Cell { cell, at };
        line.cell
            .receive(rt, &mut self.site, &mut self.seat, line.gate, &brought)?;
        Ok(())
    }
}
