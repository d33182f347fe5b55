//! A run in threads, judged by its journals.
ghost use Rattle.std.specs.Prelude.{◌≡◌, true, length, IfOk, IfErr};
ghost use Rattle.abt_perform_threads.specs.Judging.{journals_of};
ghost use Rattle.abt_weave.specs.Faults.{SaysNoneIsWoven};
ghost use Rattle.abt_weave.specs.Woven.{IsWoven};

use abt_links::Gathered;
use abt_net::Net;
use abt_perform_threads::{Judged, judge};
use abt_weave::WeaveFault;
use std::alloc::Global;

/// The events that the journals of a run are, with a trace that is safe. Otherwise there are no such events, but if memory was refused.
pub fn judged(alloc: Global, net: &Net, run: &Gathered) -> Result<Judged, WeaveFault>
    requires ports { length run.now.journals ≡ length net.now.capacities }
    requires sources { length run.now.sources.items ≡ length net.now.conns }
    ensures woven { IfOk result
        (λ judged. IsWoven net.now run.now.journals run.now.sources.items judged.events) }
    ensures safe { IfOk result (λ judged. judged.trace.safe ≡ true) }
    ensures none { IfErr result (SaysNoneIsWoven net.now (journals_of run.now)) }
{
    let judged = judge(alloc, net, run)?;
    Ok(judged)
}
