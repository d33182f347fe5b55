//! Journals, woven into the events that they are.
ghost use Rattle.std.specs.Prelude.{◌≡◌, true, length, IfOk, IfErr};
ghost use Rattle.abt_model.specs.Traces.{IsTrace};
ghost use Rattle.abt_weave.specs.Faults.{SaysNoneIsWoven};
ghost use Rattle.abt_weave.specs.Woven.{IsWoven};

use abt_journal::Journals;
use abt_model::{Event, Sequence, SourceJournal, Trace};
use abt_net::Net;
use abt_weave::{WeaveFault, weave};
use abt_world::run;
use std::alloc::Global;

/// The events that journals are, and their trace, which is safe. Otherwise there are no such events, but if memory was refused.
pub fn events_of(
    alloc: Global,
    net: &Net,
    journals: &Journals,
    sources: &[SourceJournal],
) -> Result<(Sequence<Event>, Trace), WeaveFault>
    requires ports { length journals.now ≡ length net.now.capacities }
    requires sources { length sources.now ≡ length net.now.conns }
    ensures woven { IfOk result (λ r. IsWoven net.now journals.now sources.now r.0) }
    ensures trace { IfOk result (λ r. IsTrace net.now r.0 r.1) }
    ensures safe { IfOk result (λ r. r.1.safe ≡ true) }
    ensures none { IfErr result (SaysNoneIsWoven net.now
        (record { ports = journals.now; sources = sources.now })) }
{
    let events = weave(alloc, net, journals, sources)?;
    let trace = run(alloc, net, events.as_slice())?;
    Ok((events, trace))
}
