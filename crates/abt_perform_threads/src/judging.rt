//! What a run left, judged.
ghost use Rattle.std.specs.Prelude.{◌≡◌, length, IfOk, IfErr};
ghost use Rattle.abt_weave.specs.Faults.{IsWeaveFault, SaysNoneIsWoven};
ghost use Rattle.abt_weave.specs.declared.fault.WeaveFault.{WeaveFault};
ghost use Rattle.abt_history.specs.Ended.{CanBeWoven};
ghost use Rattle.abt_perform_threads.specs.Judging.{IsJudged, IsVerdict, journals_of};

use abt_links::Gathered;
use abt_model::{Event, Sequence, Trace};
use abt_net::Net;
use abt_weave::{WeaveFault, weave};
use abt_world::run;
use std::alloc::{AllocError, Global};

/// The one list of events that the journals of a run are, and its trace.
#[derive(Debug, Drop)]
pub struct Judged {
    /// The events, in an order in which they can have happened.
    pub events: Sequence<Event>,
    /// Their outcomes, and what they leave.
    pub trace: Trace,
}

/// Weaves the journals that a run left into events, and runs these.
///
/// # Errors
/// As [`weave`] has them; also [`WeaveFault::Memory`] if memory is refused for the trace.
pub fn judge(alloc: Global, net: &Net, gathered: &Gathered) -> Result<Judged, WeaveFault>
    requires ports { length gathered.now.journals ≡ length net.now.capacities }
    requires sources { length gathered.now.sources.items ≡ length net.now.conns }
    ensures ok { IfOk result (IsJudged net.now gathered.now) }
    ensures err { IfErr result (IsWeaveFault net.now (journals_of gathered.now)) }
    ensures none { IfErr result (SaysNoneIsWoven net.now (journals_of gathered.now)) }
    ensures memory { CanBeWoven net.now gathered.now.journals gathered.now.sources.items →
        IfErr result (λ fault. fault ≡ WeaveFault.Memory) }
{
    let events = weave(alloc, net, &gathered.journals, gathered.sources.as_slice())?;
    Ok(judge_events(alloc, net, events)?)
}

// Runs events, and keeps them beside their trace.
pub(crate) fn judge_events(
    alloc: Global,
    net: &Net,
    events: Sequence<Event>,
) -> Result<Judged, AllocError>
    ensures { IfOk result (IsVerdict net.now events) }
{
    let trace = run(alloc, net, events.as_slice())?;
    Ok(Judged { events, trace })
}
