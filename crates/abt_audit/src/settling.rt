//! Writes that journals leave open, settled by what their sources did next.
ghost use Rattle.std.specs.Prelude.{◌≡◌, ◌↔◌, ◌<◌, length, take, IsTrue, IfOk};
ghost use Rattle.abt_audit.specs.Settling as spec;
ghost use Rattle.abt_audit.specs.Settling.{AreSettled, IsFarthest, IsReach, IsSettledRun, Prefers, SettlesAt, SettlesSource, places_on, planned, with_plan};

use crate::deciding::plan_shown;
use crate::obeying::go_on;
use abt_actor::SourceActor;
use abt_cell::Vc;
use abt_journal_text::{OpenWrite, Run};
use abt_keep::StorePlan;
use abt_model::{Event, Outcome, Sequence, SourceEntry, SourceJournal};
use abt_net::Net;
use std::alloc::{AllocError, Global};

/// How many open writes behind one are tried with it.
const AHEAD: usize = 7;

// The outcome that an entry says its source had.
fn told_in(entry: &SourceEntry) -> Option<Outcome>
    ensures { result ≡ spec.told_in entry.now }
{
    match entry {
        SourceEntry::Did(_, told) => Some(*told),
        SourceEntry::Sent { .. } | SourceEntry::Arrived { .. } => None,
    }
}

fn is_same(one: Option<Outcome>, other: Option<Outcome>) -> bool
    ensures { IsTrue result ↔ (one ≡ other) }
{
    one == other
}

// How many entries, from the first on, have the outcomes that the source of a connection gives.
pub(crate) fn reach(vc: Vc, entries: &[SourceEntry]) -> usize
    ensures { IsReach vc entries.now result }
{
    let mut actor = SourceActor::new(vc);
    for (place, entry) in entries.iter().enumerate() {
        let answer = go_on(&mut actor, entry);
        if !is_same(answer, told_in(entry)) {
            return place;
        }
    }
    entries.len()
}

// The plan of an ask; for any other entry it doesn't matter.
pub(crate) fn plan_of(entry: &SourceEntry) -> StorePlan
    ensures { result ≡ spec.plan_of entry.now }
{
    match entry {
        SourceEntry::Did(Event::Ask { plan, .. }, _) => *plan,
        _ => StorePlan::Works,
    }
}

// Puts an ask under a plan.
fn put_under(entry: &mut SourceEntry, plan: StorePlan)
    ensures { entry.new ≡ with_plan plan entry.old }
{
    if let SourceEntry::Did(Event::Ask { plan: kept, .. }, _) = entry {
        *kept = plan;
    }
}

// Puts the entry of a place under a plan.
pub(crate) fn plan_at(entries: &mut [SourceEntry], place: usize, plan: StorePlan)
    requires { place < length entries.old }
    ensures { entries.new ≡ planned plan place entries.old }
{
    put_under(&mut entries[place], plan);
}

// How many entries fit at most, however the writes of these places are settled. Behind an entry that doesn't fit none is tried otherwise.
fn farthest(vc: Vc, entries: &mut [SourceEntry], places: &[u64]) -> usize
    ensures same { entries.new ≡ entries.old }
    ensures value { IsFarthest vc places.now entries.old result }
{
    let Some((first, rest)) = places.split_first() else {
        return reach(vc, entries);
    };
    let place = *first as usize;
    if place >= entries.len() {
        return farthest(vc, entries, rest);
    }
    let kept = plan_of(&entries[place]);
    plan_at(entries, place, StorePlan::FailsBefore);
    let before = farthest(vc, entries, rest);
    plan_at(entries, place, kept);
    if before == entries.len() {
        return before;
    }
    if before < place {
        return before;
    }
    plan_at(entries, place, StorePlan::FailsAfter);
    let after = farthest(vc, entries, rest);
    plan_at(entries, place, kept);
    if after > before {
        return after;
    }
    before
}

// How the write of a place is settled, with those of the next ones tried: it wasn't stored, unless more entries fit
// if it was.
fn plan_for(vc: Vc, entries: &mut [SourceEntry], place: usize, next: &[u64]) -> StorePlan
    requires { place < length entries.old }
    ensures same { entries.new ≡ entries.old }
    ensures value { Prefers vc place next.now entries.old result }
{
    let kept = plan_of(&entries[place]);
    plan_at(entries, place, StorePlan::FailsBefore);
    let before = farthest(vc, entries, next);
    plan_at(entries, place, kept);
    if before == entries.len() {
        return StorePlan::FailsBefore;
    }
    if before < place {
        return StorePlan::FailsBefore;
    }
    plan_at(entries, place, StorePlan::FailsAfter);
    let after = farthest(vc, entries, next);
    plan_at(entries, place, kept);
    if after > before {
        return StorePlan::FailsAfter;
    }
    StorePlan::FailsBefore
}

// The same, where it is looked first whether entries show it at once.
fn plan_of_write(vc: Vc, entries: &mut [SourceEntry], place: usize, next: &[u64]) -> StorePlan
    requires { place < length entries.old }
    ensures same { entries.new ≡ entries.old }
    ensures value { Prefers vc place next.now entries.old result }
{
    if let Some(plan) = plan_shown(vc, entries, place, next) {
        return plan;
    }
    plan_for(vc, entries, place, next)
}

// The first of the next ones.
fn ahead(rest: &[u64]) -> &[u64]
    ensures { result.now ≡ take 7 rest.now }
{
    &rest[..rest.len().min(AHEAD)]
}

// Settles the writes of these places, which the journal of the source of a connection leaves open.
fn settle(vc: Vc, entries: &mut [SourceEntry], places: &[u64])
    ensures { SettlesSource vc places.now entries.old entries.new }
{
    let mut left = places;
    while let Some((first, rest)) = left.split_first() {
        let place = *first as usize;
        if place < entries.len() {
            let plan = plan_of_write(vc, entries, place, ahead(rest));
            plan_at(entries, place, plan);
        }
        left = rest;
    }
}

// The places of the writes that a source leaves open.
fn places_of(
    alloc: Global,
    open_writes: &[OpenWrite],
    source: usize,
) -> Result<Vec<u64>, AllocError>
    ensures { IfOk result (λ places. places.items ≡ places_on source open_writes.now) }
{
    let mut places = Vec::new(alloc);
    for write in open_writes {
        if usize::from(write.source) == source {
            places.push(write.place)?;
        }
    }
    Ok(places)
}

// The journal of the source of a connection, with the writes of these places settled.
fn settled_journal(
    alloc: Global,
    vc: Vc,
    journal: SourceJournal,
    places: &[u64],
) -> Result<SourceJournal, AllocError>
    ensures { IfOk result
        (λ settled. SettlesSource vc places.now journal.entries settled.entries) }
{
    if places.is_empty() {
        return Ok(journal);
    }
    let mut entries = Vec::new(alloc);
    entries.extend_from_slice(journal.entries.as_slice())?;
    settle(vc, entries.as_mut_slice(), places);
    Ok(SourceJournal {
        entries: Sequence::from(entries),
    })
}

// The journal of the source of a number, what it leaves open settled.
fn settled_at(
    alloc: Global,
    net: &Net,
    open_writes: &[OpenWrite],
    number: usize,
    journal: SourceJournal,
) -> Result<SourceJournal, AllocError>
    ensures { IfOk result (SettlesAt net.now open_writes.now number journal) }
{
    let Some(conn) = net.conns().get(number) else {
        return Ok(journal);
    };
    let places = places_of(alloc, open_writes, number)?;
    settled_journal(alloc, conn.vc, journal, places.as_slice())
}

// The journals of all sources, what they leave open settled.
fn settled_sources(
    alloc: Global,
    net: &Net,
    open_writes: &[OpenWrite],
    sources: Vec<SourceJournal>,
) -> Result<Vec<SourceJournal>, AllocError>
    ensures { IfOk result (λ settled. AreSettled net.now open_writes.now sources.items settled.items) }
{
    let mut settled = Vec::with_capacity(alloc, sources.len())?;
    for journal in sources {
        let number = settled.len();
        settled.push(settled_at(alloc, net, open_writes, number, journal)?)?;
    }
    Ok(settled)
}

/// What a run leaves open, settled by what its sources did next.
pub(crate) fn settled_run(alloc: Global, told: Run) -> Result<Run, AllocError>
    ensures { IfOk result (IsSettledRun told) }
{
    let Run {
        net,
        journals,
        sources,
        port_spots,
        source_spots,
        open_writes,
        cuts,
    } = told;
    let sources = settled_sources(alloc, &net, open_writes.as_slice(), sources)?;
    Ok(Run {
        net,
        journals,
        sources,
        port_spots,
        source_spots,
        open_writes,
        cuts,
    })
}
