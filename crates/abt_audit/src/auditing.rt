//! The journals of a run, judged.
ghost use Rattle.std.specs.Prelude.{◌≡◌, IfOk, IfErr, length};
ghost use Rattle.abt_weave.specs.Faults.{IsWeaveFault, SaysNoneIsWoven};
ghost use Rattle.abt_audit.specs.Audits.{IsAudited, IsVerdict};

use abt_journal_text::Run;
use abt_model::{Event, Sequence, Trace};
use abt_net::Net;
use abt_weave::{WeaveFault, weave};
use abt_world::run;
use std::alloc::{AllocError, Global};

/// The events of journals, and their trace.
#[derive(Debug, Drop)]
pub struct Audited {
    /// The events, in an order in which they can have happened.
    pub events: Sequence<Event>,
    /// Their outcomes, and what they leave.
    pub trace: Trace,
}

/// A net, and the events of journals over it.
#[derive(Debug, Drop)]
pub struct AuditedRun {
    /// The net.
    pub net: Net,
    /// The events of the journals, and their trace.
    pub audited: Audited,
}

/// Weaves the journals of a run into events, and runs these.
///
/// # Errors
/// As [`weave`] has them; also [`WeaveFault::Memory`] if memory is refused for the trace.
pub fn audit(alloc: Global, told: &Run) -> Result<Audited, WeaveFault>
    requires ports { length told.now.journals ≡ length told.now.net.capacities }
    requires sources { length told.now.sources.items ≡ length told.now.net.conns }
    ensures ok { IfOk result (IsAudited told.now.net
        (record { ports = told.now.journals; sources = told.now.sources.items })) }
    ensures err { IfErr result (IsWeaveFault told.now.net
        (record { ports = told.now.journals; sources = told.now.sources.items })) }
    ensures none { IfErr result (SaysNoneIsWoven told.now.net
        (record { ports = told.now.journals; sources = told.now.sources.items })) }
{
    let events = weave(alloc, &told.net, &told.journals, told.sources.as_slice())?;
    Ok(audit_events(alloc, &told.net, events)?)
}

// Runs events, and keeps them beside their trace.
fn audit_events(alloc: Global, net: &Net, events: Sequence<Event>) -> Result<Audited, AllocError>
    ensures { IfOk result (IsVerdict net.now events) }
{
    let trace = run(alloc, net, events.as_slice())?;
    Ok(Audited { events, trace })
}
