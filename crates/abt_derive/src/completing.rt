//! Journals of sources, completed by entries that were derived.
ghost use Rattle.std.specs.Prelude.{◌≡◌, ◌++◌, ◌∷◌, [], slice_get, option_to_list, IfOk, OnOk};
ghost use Rattle.abt_derive.specs.Completes as spec;
ghost use Rattle.abt_derive.specs.Completes.{Completes, Grows, HasMore, derived_lines, entries_of, full_lines, line_of, spots_in, stands_by};
ghost use Rattle.abt_derive.specs.Lists.{behind_first, first_ones};

use crate::derived::Derived;
use abt_journal_text::Spot;
use abt_model::{Event, Outcome, SourceEntry};
use abt_node::{Back, Onward};
use std::alloc::{AllocError, Global};

// The entries of a journal so far, and where they stand.
#[derive(Debug, Drop)]
pub(crate) struct Completed {
    pub(crate) entries: Vec<SourceEntry>,
    pub(crate) spots: Vec<Spot>,
}

// The spot of a place; there is none past the last.
pub(crate) fn spot_at(spots: &[Spot], place: usize) -> Spot
    ensures { result ≡ spec.spot_at spots.now place }
{
    match spots.get(place) {
        Some(spot) => *spot,
        None => Spot { text: 0, line: 0 },
    }
}

// The spot of a place, if there is one.
fn spot_of(spots: &[Spot], place: u64) -> Option<Spot>
    ensures { result ≡ slice_get spots.now place }
{
    spots.get(place as usize).copied()
}

// The place that an entry tells, if it tells one.
fn place_in(entry: &SourceEntry) -> Option<u64>
    ensures { result ≡ spec.place_in entry.now }
{
    match entry {
        SourceEntry::Did(_, _) => None,
        SourceEntry::Sent { place } => Some(*place),
        SourceEntry::Arrived { place, .. } => Some(*place),
    }
}

// Those behind the derived entries that stand behind no more than so many written ones.
fn behind(derived: &[Derived], count: usize) -> &[Derived]
    ensures { result.now ≡ behind_first (stands_by count) derived.now }
{
    let mut left = derived;
    while let Some((next, rest)) = left.split_first() {
        if next.before > count {
            break;
        }
        left = rest;
    }
    left
}

#[tactic(auto, using(crate::proofs::Parting::behind_first_is, crate::proofs::Parting::first_ones_are))]
// The derived entries that stand behind no more than so many written ones, and those behind them.
fn parted(derived: &[Derived], count: usize) -> (&[Derived], &[Derived])
    ensures first { result.0.now ≡ first_ones (stands_by count) derived.now }
    ensures behind { result.1.now ≡ behind_first (stands_by count) derived.now }
{
    let left = behind(derived, count);
    let taken = derived.len() - left.len();
    (&derived[..taken], left)
}

impl Completed {
    // Adds an entry, and where it stands.
    pub(crate) fn push(&mut self, entry: SourceEntry, spot: Spot) -> Result<(), AllocError>
        ensures entries { OnOk result (self.new.entries.items ≡ self.old.entries.items ++ entry ∷ []) }
        ensures spots { OnOk result (self.new.spots.items ≡ self.old.spots.items ++ spot ∷ []) }
    {
        // Name types within an entry, without which the checker can't follow one.
        let _ = Event::Crash { conn: 0 };
        let _ = Outcome::Answered(Back::Pass);
        let _ = Onward::Pass;
        self.entries.push(entry)?;
        self.spots.push(spot)?;
        Ok(())
    }

    // Adds an entry that was derived. It stands where its step stands, which the first port has.
    fn add(&mut self, first: &[Spot], one: Derived) -> Result<(), AllocError>
        ensures grows { OnOk result (Grows first.now self.old self.new) }
        ensures more { OnOk result (HasMore (option_to_list (line_of first.now one)) self.old self.new) }
    {
        let Some(place) = place_in(&one.entry) else {
            return Ok(());
        };
        match spot_of(first, place) {
            Some(spot) => self.push(one.entry, spot),
            None => Ok(()),
        }
    }

    // Adds derived entries.
    fn add_all(&mut self, first: &[Spot], derived: &[Derived]) -> Result<(), AllocError>
        ensures grows { OnOk result (Grows first.now self.old self.new) }
        ensures more { OnOk result (HasMore (derived_lines first.now derived.now) self.old self.new) }
    {
        for one in derived {
            self.add(first, *one)?;
        }
        Ok(())
    }
}

// The journal of a source with the entries that were derived, and where all of them stand.
pub(crate) fn complete(
    alloc: Global,
    first: &[Spot],
    entries: &[SourceEntry],
    spots: &[Spot],
    derived: &[Derived],
) -> Result<Completed, AllocError>
    ensures completes { IfOk result (λ full. Completes first.now spots.now 0 entries.now
        full.entries.items full.spots.items) }
    ensures entries { IfOk result (λ full. full.entries.items ≡
        entries_of (full_lines first.now spots.now 0 entries.now derived.now)) }
    ensures spots { IfOk result (λ full. full.spots.items ≡
        spots_in (full_lines first.now spots.now 0 entries.now derived.now)) }
{
    let mut full = Completed {
        entries: Vec::new(alloc),
        spots: Vec::new(alloc),
    };
    let mut left = derived;
    for (place, entry) in entries.iter().enumerate() {
        let (before, others) = parted(left, place);
        full.add_all(first, before)?;
        full.push(*entry, spot_at(spots, place))?;
        left = others;
    }
    full.add_all(first, left)?;
    Ok(full)
}
