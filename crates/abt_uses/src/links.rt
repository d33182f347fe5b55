//! A net, run in threads.
ghost use Rattle.std.specs.Prelude.{◌≡◌, IfOk, IsErrOf, ◌↔◌};
ghost use Rattle.abt_links.specs.Runs.{IsRun, ScriptsFit};
ghost use Rattle.abt_journal.specs.Foreign.{AreHistories};

use abt_links::{Gathered, OpenGate, RunFault, ThreadPlan, run_threads};
use abt_model::Script;
use abt_net::Net;
use std::alloc::Global;
use std::sync::Wait;
use std::thread::Threads;

/// The journals of a run of scripts with two link workers, which lose every tenth parcel and serve none twice. Each port's is one of one
/// thread, whatever the threads did.
pub fn lossy_run<R: Threads + Wait + Sync>(
    rt: &R,
    alloc: Global,
    net: &Net,
    scripts: &[Script],
) -> Result<Gathered, RunFault>
    ensures histories { IfOk result (λ run. AreHistories net.now run.journals) }
    ensures scripts { IsErrOf result RunFault.Scripts → ¬ ScriptsFit net.now.conns scripts.now }
{
    let plan = ThreadPlan {
        workers: 2,
        drop_every: 10,
        repeat_every: 0,
    };
    run_threads(rt, alloc, net, scripts, &[], plan, &OpenGate)
}
