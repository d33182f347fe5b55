//! A scenario before its scripts have run, and what they left.
ghost use Rattle.std.specs.Prelude.{◌≡◌, ◌≢◌, ◌<◌, ◌≤◌, ◌+◌, ◌↔◌, ℕ, Ok, IfOk, IfErr, IfSome, IsErrOf};
ghost use Rattle.abt_text.specs.Streams.{ConsumesAtMost, text_max};
ghost use Rattle.abt_scenario.specs.Engine.{Explains};
ghost use Rattle.abt_scenario.specs.Scenarios.{Reads};
ghost use Rattle.abt_links.specs.declared.fault.RunFault.{RunFault};
ghost use Rattle.abt_history.specs.Ended.{CanBeWoven};
ghost use Rattle.abt_links.specs.Runs.{IsRun, ScriptsFit};
ghost use Rattle.abt_links.specs.Operations.{AreForPorts};
ghost use Rattle.abt_perform_threads.specs.Shown.{IsRanFrom};
ghost use Rattle.abt_rate.specs.Limits.{AreWorkers};

use abt_links::{Gate, Gathered, RunFault, ThreadPlan, run_threads};
use abt_net::Net;
use abt_scenario::{EngineFault, Scenario, read_from};
use std::alloc::Global;
use std::io::Read;
use std::marker::Model;
use std::sync::Wait;
use std::thread::Threads;

/// A scenario whose scripts haven't run. They run once: [`Unrun::run`] takes the value, and nothing hands the scenario out again.
/// Contracts see it as its scenario.
#[derive(Debug, Drop)]
pub struct Unrun {
    scenario: Scenario,
}

impl Model for Unrun {
    ghost use Rattle.abt_scenario.specs.declared.scenario.Scenario as declared;

    ghost Value = { declared.Scenario };

    ghost view = { λ unrun. unrun.scenario };
}

/// A run of a scenario's scripts in its net.
#[derive(Debug, Drop)]
pub struct Ran {
    /// The net of the scenario.
    pub net: Net,
    /// The journals of its ports and sources.
    pub gathered: Gathered,
}

impl Unrun {
    /// The scenario of the text that a reader has left, as [`read_from`] reads it.
    pub fn read_from<R: Read>(alloc: Global, reader: &mut R) -> Result<Unrun, EngineFault>
        ensures ok { IfOk result (λ unrun. IfSome (R.remaining reader.old) (λ text. Reads text (Ok unrun))) }
        ensures err { IfErr result (λ fault. IfSome (R.remaining reader.old) (Explains fault)) }
        ensures reads { IfErr result (λ fault. fault ≢ EngineFault.Write) }
        ensures stops { ConsumesAtMost (R.remaining reader.old) (R.remaining reader.new) (text_max + 1) }
    {
        let scenario = read_from(alloc, reader)?;
        Ok(Unrun { scenario })
    }

    /// Runs the scripts and the operator's list in threads, with so many link workers, which lose and repeat nothing.
    pub fn run<T: Threads + Wait + Sync, G: Gate + Sync>(
        self,
        rt: &T,
        alloc: Global,
        workers: u16,
        gate: &G,
    ) -> Result<Ran, RunFault>
        ensures ok { IfOk result (IsRanFrom self workers) }
        ensures workers { IsErrOf result RunFault.Workers ↔ ¬ AreWorkers workers }
        ensures scripts { IsErrOf result RunFault.Scripts
            ↔ (AreWorkers workers × ¬ ScriptsFit self.net.conns self.scripts) }
        ensures operator { IsErrOf result RunFault.Operator
            ↔ (AreWorkers workers × ScriptsFit self.net.conns self.scripts ×
            ¬ AreForPorts self.net self.operator) }
        ensures wound { (seen found : ℕ) → IsErrOf result (RunFault.Wound seen found) → found < seen }
    {
        let gathered = run_scripts(rt, alloc, &self.scenario, workers, gate)?;
        let Unrun { scenario } = self;
        let Scenario { net, .. } = scenario;
        Ok(Ran { net, gathered })
    }
}

// Runs a scenario's scripts and its operator's list in threads, as [`Unrun::run`] says.
fn run_scripts<T: Threads + Wait + Sync, G: Gate + Sync>(
    rt: &T,
    alloc: Global,
    scenario: &Scenario,
    workers: u16,
    gate: &G,
) -> Result<Gathered, RunFault>
    ensures ok { IfOk result (IsRun scenario.now.net scenario.now.scripts scenario.now.operator workers) }
    ensures woven { IfOk result (λ run. CanBeWoven scenario.now.net run.journals run.sources.items) }
    ensures workers { IsErrOf result RunFault.Workers ↔ ¬ AreWorkers workers }
    ensures scripts { IsErrOf result RunFault.Scripts
        ↔ (AreWorkers workers × ¬ ScriptsFit scenario.now.net.conns scenario.now.scripts) }
    ensures operator { IsErrOf result RunFault.Operator
        ↔ (AreWorkers workers × ScriptsFit scenario.now.net.conns scenario.now.scripts
        × ¬ AreForPorts scenario.now.net scenario.now.operator) }
    ensures wound { (seen found : ℕ) → IsErrOf result (RunFault.Wound seen found) → found < seen }
{
    run_threads(
        rt,
        alloc,
        &scenario.net,
        scenario.scripts.as_slice(),
        scenario.operator.as_slice(),
        faithful(workers),
        gate,
    )
}

// The plan of so many workers that lose and repeat nothing.
fn faithful(workers: u16) -> ThreadPlan
    ensures { result ≡ record { workers = workers; drop_every = 0; repeat_every = 0 } }
{
    ThreadPlan {
        workers,
        drop_every: 0,
        repeat_every: 0,
    }
}
