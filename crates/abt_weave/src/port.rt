//! The next entry of a port.
ghost use Rattle.std.specs.Prelude.{◌≡◌, ◌<◌, ◌+◌, ◌^◌, slice_get, slice_index, length, reverse, false, Some, IfOk, IfSome, IsNone};
ghost use Rattle.abt_model.specs.declared.event.Event.{Event as EventSpec};
ghost use Rattle.abt_journal.specs.declared.input.PortInput.TheVariants.{Capacity as CapacityIn};
ghost use Rattle.abt_model.specs.Outcomes.{outcome_of};
ghost use Rattle.abt_net.specs.Topology.{IsWithinRules};
ghost use Rattle.abt_weave.specs.Candidates as candidates;
ghost use Rattle.abt_weave.specs.Comes.{Comes, IsComing, IsExpected};
ghost use Rattle.abt_weave.specs.Projections as woven;
ghost use Rattle.abt_weave.specs.Projections.{step_of};
ghost use Rattle.abt_weave.specs.Stuck.{next_step};
ghost use Rattle.abt_model.specs.Run.{facts_after};
ghost use Rattle.abt_weave.specs.Progress.{IsAfterLook, IsPortSettled, run_journals, IsProgressOf};

use crate::asked::rates_for;
use crate::candidate::{event_of, own_turn, stop_of};
use crate::look::Look;
use crate::progress::{Progress, world_after};
use crate::trying::{Tried, try_turn, try_visit};
use crate::weave_input::WeaveInput;
use abt_journal::{Entry, PortInput};
use abt_model::{Event, HopEvent, SourceEntry, Target};
use std::alloc::{AllocError, Global};

/// An event that comes to a port, and its connection.
#[derive(Clone, Copy)]
pub(crate) struct Coming {
    pub conn: u16,
    pub event: Event,
}

// The entry at a place, if there is one.
fn entry_at(entries: &[SourceEntry], place: usize) -> Option<SourceEntry>
    ensures { result ≡ slice_get entries.now place }
{
    entries.get(place).copied()
}

// The event of a connection that an entry of a port can be.
fn candidate(
    given: &WeaveInput,
    progress: &Progress,
    port: u16,
    place: usize,
    entry: &Entry,
) -> Option<Coming>
    requires conns { length given.now.sources.now ≡ length given.now.net.now.conns }
    requires port { port < length given.now.ports.now }
    requires place { place ≡ slice_index progress.now.port_places.items port }
    requires progress { IsProgressOf given.now progress.now }
    ensures rules { IsWithinRules given.now.net.now }
    ensures some { IfSome result
        (λ coming. IsComing given.now.net.now (run_journals given.now)
        (reverse progress.now.events.items) port entry.now.place entry.now.input coming.conn coming.event) }
    ensures only { (event : EventSpec) →
        (comes : Comes given.now.net.now (run_journals given.now)
        (reverse progress.now.events.items) port entry.now.place entry.now.input event) →
        result ≡ Some (record { conn = comes.c; event = event }) }
{
    let stop = stop_of(given.net, &entry.input, port)?;
    if entry.place != place as u64 {
        return None;
    }
    let c = usize::from(stop.conn);
    let entries = given.sources[c].entries.as_slice();
    let come = progress.source_places[c];
    let rates = rates_for(&progress.world, stop.conn, &entry.input);
    let next = entry_at(entries, come);
    let event = event_of(stop, entry.place, &entry.input, rates, next)?;
    Some(Coming {
        conn: stop.conn,
        event,
    })
}

// Whether what comes to a hop makes its step stand in its source's journal.
fn is_beside_by(event: &HopEvent) -> bool
    ensures { result ≡ candidates.is_beside_by event.now }
{
    match *event {
        HopEvent::Arrive { .. } => true,
        HopEvent::Request { hop, .. } => hop == 1,
        HopEvent::Answer { .. } => false,
    }
}

fn is_beside(event: &Event) -> bool
    ensures { result ≡ candidates.is_beside event.now }
{
    match event.target() {
        Target::Hop { event, .. } => is_beside_by(&event),
        Target::Source { .. } | Target::End { .. } | Target::Port { .. } => false,
    }
}

// The place behind one of so many entries.
fn behind(place: usize, count: usize) -> usize
    requires { place < count }
    ensures { result ≡ place + 1 }
{
    place + 1
}

/// The one event of a connection that can be a port's next entry, that connection, and how many entries of its source are placed then.
#[derive(Clone, Copy)]
pub(crate) struct Expected {
    pub conn: u16,
    pub event: Event,
    pub reached: usize,
}

// The event of a connection that the next entry of a port can be, if there is one.
fn expect_event(
    given: &WeaveInput,
    progress: &Progress,
    port: u16,
    place: usize,
    entry: &Entry,
) -> Option<Expected>
    requires conns { length given.now.sources.now ≡ length given.now.net.now.conns }
    requires port { port < length given.now.ports.now }
    requires place { place ≡ slice_index progress.now.port_places.items port }
    requires progress { IsProgressOf given.now progress.now }
    requires next { next_step given.now.net.now (run_journals given.now)
        (reverse progress.now.events.items) port ≡ Some (step_of entry.now) }
    ensures rules { IsWithinRules given.now.net.now }
    ensures some { IfSome result
        (λ it. IsExpected given.now.net.now (run_journals given.now)
        (reverse progress.now.events.items) progress.now.source_places.items port entry.now.place
        entry.now.input entry.now.reply it.conn it.reached it.event) }
    ensures none { IsNone result → (event : EventSpec) →
        Comes given.now.net.now (run_journals given.now)
        (reverse progress.now.events.items) port entry.now.place entry.now.input event → ⊥ }
{
    let Coming { conn, event } = candidate(given, progress, port, place, entry)?;
    let c = usize::from(conn);
    let entries = given.sources[c].entries.as_slice();
    let come = progress.source_places[c];
    let reached = if is_beside(&event) {
        behind(come, entries.len())
    } else {
        come
    };
    Some(Expected {
        conn,
        event,
        reached,
    })
}

/// Places the next entry of a port, and that of a source that is the same event, if the event can have happened now.
/// If it is a yes at the last hop that wasn't sent yet, its Turn is placed before it.
pub(crate) fn look_at_port<'run>(
    alloc: Global,
    given: &WeaveInput<'run>,
    progress: &mut Progress<'run>,
    port: u16,
) -> Result<Look, AllocError>
    requires conns { length given.now.sources.now ≡ length given.now.net.now.conns }
    requires port { port < length given.now.ports.now }
    requires progress { IsProgressOf given.now progress.old }
    ensures { let journals = run_journals given.now in
        IfOk result (IsAfterLook given.now.net.now journals
        (λ earlier mismatches. IsPortSettled given.now.net.now journals earlier port mismatches)
        progress.old progress.new) }
{
    let p = usize::from(port);
    let entries = given.ports[p].as_slice();
    let place = progress.port_places[p];
    if place >= entries.len() {
        return Ok(Look::Waits);
    }
    let entry = &entries[place];
    if let PortInput::Capacity(capacity) = entry.input {
        return look_at_capacity(alloc, given, progress, port, entry, capacity);
    }
    let Some(it) = expect_event(given, progress, port, place, entry) else {
        return Ok(Look::Waits);
    };
    progress.events.reserve(2)?;
    match try_visit(&mut progress.world, &it.event, &entry.reply)? {
        Tried::Agrees => {
            progress.events.push(it.event)?;
            progress.source_places[usize::from(it.conn)] = it.reached;
            progress.port_places[p] = place + 1;
            Ok(Look::Placed(it.event))
        }
        Tried::Differs => {
            progress.world = world_after(alloc, given, &progress.events)?;
            Ok(Look::Mismatches)
        }
        Tried::Absent => look_after_turn(alloc, given, progress, port, entry, it),
    }
}

// Places an event that can't happen at once: it may be a yes at the last hop that needs its Turn.
fn look_after_turn<'run>(
    alloc: Global,
    given: &WeaveInput<'run>,
    progress: &mut Progress<'run>,
    port: u16,
    entry: &Entry,
    it: Expected,
) -> Result<Look, AllocError>
    requires port { port < length progress.old.port_places.items }
    requires progress { IsProgressOf given.now progress.old }
    requires expected { IsExpected given.now.net.now (run_journals given.now)
        (reverse progress.old.events.items) progress.old.source_places.items port entry.now.place
        entry.now.input entry.now.reply it.conn it.reached it.event }
    requires place { slice_index progress.old.port_places.items port + 1 < 2 ^ 64 }
    requires absent { woven.is_enabled
        (outcome_of given.now.net.now (facts_after given.now.net.now progress.old.events.items) it.event) ≡
        false }
    ensures { let journals = run_journals given.now in
        IfOk result (IsAfterLook given.now.net.now journals
        (λ earlier mismatches. IsPortSettled given.now.net.now journals earlier port mismatches)
        progress.old progress.new) }
{
    let Some(turn) = own_turn(given.net, &it.event) else {
        return Ok(Look::Waits);
    };
    if !try_turn(&mut progress.world, &turn)? {
        return Ok(Look::Waits);
    }
    progress.events.reserve(2)?;
    match try_visit(&mut progress.world, &it.event, &entry.reply)? {
        Tried::Agrees => {
            progress.events.push(turn)?;
            progress.events.push(it.event)?;
            progress.source_places[usize::from(it.conn)] = it.reached;
            progress.port_places[usize::from(port)] += 1;
            Ok(Look::Placed(it.event))
        }
        _ => {
            progress.world = world_after(alloc, given, &progress.events)?;
            Ok(Look::Mismatches)
        }
    }
}

// Places a capacity that the port's link is to have: that is an event of the port alone.
fn look_at_capacity<'run>(
    alloc: Global,
    given: &WeaveInput<'run>,
    progress: &mut Progress<'run>,
    port: u16,
    entry: &Entry,
    capacity: u64,
) -> Result<Look, AllocError>
    requires port { port < length progress.old.port_places.items }
    requires progress { IsProgressOf given.now progress.old }
    requires next { next_step given.now.net.now (run_journals given.now)
        (reverse progress.old.events.items) port ≡ Some (step_of entry.now) }
    requires input { entry.now.input ≡ CapacityIn capacity }
    requires place { slice_index progress.old.port_places.items port + 1 < 2 ^ 64 }
    ensures { let journals = run_journals given.now in
        IfOk result (IsAfterLook given.now.net.now journals
        (λ earlier mismatches. IsPortSettled given.now.net.now journals earlier port mismatches)
        progress.old progress.new) }
{
    let p = usize::from(port);
    let placed = progress.port_places[p];
    if entry.place != placed as u64 {
        return Ok(Look::Waits);
    }
    let event = Event::Capacity { port, capacity };
    progress.events.reserve(1)?;
    match try_visit(&mut progress.world, &event, &entry.reply)? {
        Tried::Agrees => {
            progress.events.push(event)?;
            progress.port_places[p] = placed + 1;
            Ok(Look::Placed(event))
        }
        Tried::Differs => {
            progress.world = world_after(alloc, given, &progress.events)?;
            Ok(Look::Mismatches)
        }
        Tried::Absent => Ok(Look::Waits),
    }
}
