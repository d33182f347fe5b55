//! Open writes whose entries show at once whether they were stored.
ghost use Rattle.std.specs.Prelude.{◌≡◌, ◌<◌, IfSome, IsTrue, length};
ghost use Rattle.abt_keep.specs.declared.plan.StorePlan.TheVariants.{FailsBefore};
ghost use Rattle.abt_audit.specs.Deciding as spec;
ghost use Rattle.abt_audit.specs.Deciding.{AreAbove, IsWay};
ghost use Rattle.abt_audit.specs.Settling.{IsSettled, Prefers, planned, with_plan};

use crate::settling::{plan_at, plan_of, reach};
use abt_cell::Vc;
use abt_keep::StorePlan;
use abt_model::{Event, SourceEntry};

/// How many entries fit if no open write ahead was stored.
#[derive(Clone, Copy, Debug)]
pub(crate) struct Way {
    pub count: usize,
    /// Whether no more fit, however the writes ahead are settled.
    pub is_farthest: bool,
}

// Whether an entry is an ask whose write wasn't stored.
fn is_unstored(entry: &SourceEntry) -> bool
    ensures { IsTrue result → with_plan FailsBefore entry.now ≡ entry.now }
{
    match entry {
        SourceEntry::Did(Event::Ask { plan, .. }, _) => *plan == StorePlan::FailsBefore,
        _ => false,
    }
}

// Whether the writes of these places are taken as not stored.
fn are_unstored(entries: &[SourceEntry], places: &[u64]) -> bool
    ensures { IsTrue result → IsSettled places.now entries.now entries.now }
{
    let Some((first, rest)) = places.split_first() else {
        return true;
    };
    let Some(entry) = entries.get(*first as usize) else {
        return false;
    };
    if !is_unstored(entry) {
        return false;
    }
    are_unstored(entries, rest)
}

// Whether all these places stand behind an entry.
fn are_above(places: &[u64], count: usize) -> bool
    ensures { IsTrue result → AreAbove count places.now }
{
    let Some((first, rest)) = places.split_first() else {
        return true;
    };
    let place = *first as usize;
    if place <= count {
        return false;
    }
    are_above(rest, count)
}

// How many entries fit as they stand, if no write ahead is taken as stored.
fn way_of(vc: Vc, entries: &[SourceEntry], ahead: &[u64]) -> Option<Way>
    ensures { IfSome result (IsWay vc ahead.now entries.now) }
{
    if !are_unstored(entries, ahead) {
        return None;
    }
    let count = reach(vc, entries);
    let is_farthest = are_above(ahead, count);
    Some(Way { count, is_farthest })
}

// How many entries fit if the write of a place went so, and no write ahead was stored.
fn way_under(
    vc: Vc,
    entries: &mut [SourceEntry],
    place: usize,
    plan: StorePlan,
    ahead: &[u64],
) -> Option<Way>
    requires { place < length entries.old }
    ensures same { entries.new ≡ entries.old }
    ensures value { IfSome result (IsWay vc ahead.now (planned plan place entries.old)) }
{
    let kept = plan_of(&entries[place]);
    plan_at(entries, place, plan);
    let way = way_of(vc, entries, ahead);
    plan_at(entries, place, kept);
    way
}

// How a write is settled, if that shows by how many entries fit if it wasn't stored, and if it was.
fn shown_by(before: Way, after: Way) -> Option<StorePlan>
    ensures { result ≡ spec.shown_by before after }
{
    if before.count < after.count {
        if before.is_farthest {
            Some(StorePlan::FailsAfter)
        } else {
            None
        }
    } else if after.is_farthest {
        Some(StorePlan::FailsBefore)
    } else {
        None
    }
}

// How the write of a place is settled, if that shows before any write ahead matters.
pub(crate) fn plan_shown(
    vc: Vc,
    entries: &mut [SourceEntry],
    place: usize,
    ahead: &[u64],
) -> Option<StorePlan>
    requires { place < length entries.old }
    ensures same { entries.new ≡ entries.old }
    ensures value { IfSome result (Prefers vc place ahead.now entries.old) }
{
    let before = way_under(vc, entries, place, StorePlan::FailsBefore, ahead)?;
    let after = way_under(vc, entries, place, StorePlan::FailsAfter, ahead)?;
    shown_by(before, after)
}
