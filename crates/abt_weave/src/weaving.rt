//! Journals woven into events.
ghost use Rattle.std.specs.Prelude.{◌≡◌, ◌++◌, List, length, reverse, IfOk, IfErr};
ghost use Rattle.abt_model.specs.declared.event.Event.{Event as EventSpec};
ghost use Rattle.abt_model.specs.Run.{facts_after};
ghost use Rattle.abt_weave.specs.Woven.{IsWoven};
ghost use Rattle.abt_weave.specs.Progress.{run_journals};
ghost use Rattle.abt_weave.specs.Faults.{IsWeaveFault, SaysNoneIsWoven};
ghost use Rattle.abt_weave.specs.Leaving.{LeavesAsJournaled};
ghost use Rattle.abt_weave.specs.Shown.{AreShown};
ghost use Rattle.abt_world.specs.Headline.{HeadlineHolds};

use crate::Stuck;
use crate::fault::WeaveFault;
use crate::left::actors_left;
use crate::mismatch::first_mismatch;
use crate::progress::Progress;
use crate::settle::settle;
use crate::weave_input::WeaveInput;
use abt_journal::Journals;
use abt_model::{Event, Sequence, SourceJournal};
use abt_net::Net;
use std::alloc::Global;

/// Weaves the journals of the ports and of the sources of a net into one list of events, which are just these
/// journals to each port and each source (docs/THREADS.md). The Turn of a yes stands in no journal, and is added if
/// the yes needs it; no other event is added.
///
/// # Errors
/// If entries are left that no event can be: see [`WeaveFault`]. [`WeaveFault::Memory`] wherever a growth is refused.
pub fn weave(
    alloc: Global,
    net: &Net,
    journals: &Journals,
    sources: &[SourceJournal],
) -> Result<Sequence<Event>, WeaveFault>
    requires ports { length journals.now ≡ length net.now.capacities }
    requires sources { length sources.now ≡ length net.now.conns }
    ensures ok { IfOk result (λ events. IsWoven net.now journals.now sources.now events) }
    ensures shown { IfOk result
        (λ events.
        AreShown net.now (record { ports = journals.now; sources = sources.now }) (reverse events)) }
    ensures leaves { IfOk result
        (λ events. LeavesAsJournaled net.now journals.now sources.now (facts_after net.now events)) }
    ensures headline { IfOk result (λ events. (before after : List EventSpec) → before ++ after ≡ events →
        HeadlineHolds net.now (facts_after net.now before)) }
    ensures err { IfErr result (IsWeaveFault net.now
        (record { ports = journals.now; sources = sources.now })) }
    ensures none { IfErr result (SaysNoneIsWoven net.now
        (record { ports = journals.now; sources = sources.now })) }
{
    let given = WeaveInput {
        net,
        ports: journals.ports.as_slice(),
        sources,
    };
    weave_given(alloc, &given)
}

fn weave_given(alloc: Global, given: &WeaveInput) -> Result<Sequence<Event>, WeaveFault>
    requires conns { length given.now.sources.now ≡ length given.now.net.now.conns }
    requires ports { length given.now.ports.now ≡ length given.now.net.now.capacities }
    ensures ok { let journals = run_journals given.now in
        IfOk result (λ events. IsWoven given.now.net.now journals.ports journals.sources events) }
    ensures shown { let journals = run_journals given.now in
        IfOk result (λ events. AreShown given.now.net.now journals (reverse events)) }
    ensures leaves { let journals = run_journals given.now in
        IfOk result
        (λ events.
        LeavesAsJournaled given.now.net.now journals.ports journals.sources
        (facts_after given.now.net.now events)) }
    ensures headline { IfOk result (λ events. (before after : List EventSpec) → before ++ after ≡ events →
        HeadlineHolds given.now.net.now (facts_after given.now.net.now before)) }
    ensures err { IfErr result (IsWeaveFault given.now.net.now
        (run_journals given.now)) }
    ensures none { IfErr result (SaysNoneIsWoven given.now.net.now
        (run_journals given.now)) }
{
    let mut progress = Progress::new(alloc, given)?;
    let marks = settle(alloc, given, &mut progress)?;
    if let Some(Stuck { actor, place }) = first_mismatch(given, &progress, &marks) {
        return Err(WeaveFault::Mismatch { actor, place });
    }
    let left = actors_left(alloc, given, &progress)?;
    if !left.is_empty() {
        return Err(WeaveFault::NoOrder(left));
    }
    Ok(Sequence::from(progress.events))
}
