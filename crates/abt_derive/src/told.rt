//! What a source's journal tells of its requests and cells.
ghost use Rattle.std.specs.Prelude.{◌≡◌, ◌++◌, ◌∷◌, ◌+◌, [], length, List, IfOk, OnOk, option_to_list, Some};
ghost use Rattle.abt_model.specs.declared.entry.SourceEntry.{SourceEntry as Entry};
ghost use Rattle.abt_derive.specs.Tells as spec;
ghost use Rattle.abt_derive.specs.Tells.{IsNoted, IsToldBy};

use abt_model::{Event, Outcome, SourceEntry};
use indexmap::IndexMap;
use std::alloc::{AllocError, Global};

// A cell that left: its number, its moment, and how many entries there are up to the one that emits it.
#[derive(Clone, Copy, Debug)]
pub(crate) struct Cell {
    pub(crate) number: u64,
    pub(crate) at: u64,
    pub(crate) behind: usize,
}

// An entry that tells the place of a step: that place, and how many entries there are up to it.
#[derive(Clone, Copy, Debug)]
pub(crate) struct Placed {
    pub(crate) place: u64,
    pub(crate) behind: usize,
}

// What the journal of a source tells, in its order.
#[derive(Debug, Drop)]
pub(crate) struct Told {
    // How many entries there are up to the first that asks each number.
    asked: IndexMap<u32, usize>,
    pub(crate) cells: Vec<Cell>,
    pub(crate) sent: Vec<Placed>,
    pub(crate) arrived: Vec<Placed>,
}

// The number of the request that an entry asks.
fn asked_by(entry: &SourceEntry) -> Option<u32>
    ensures { result ≡ spec.asked_by entry.now }
{
    match entry {
        SourceEntry::Did(_, Outcome::Asked(request)) => Some(request.seq()),
        _ => None,
    }
}

// The cell that left by an entry, up to which there are so many.
fn cell_of(behind: usize, entry: &SourceEntry) -> Option<Cell>
    ensures { result ≡ spec.cell_of (behind, entry.now) }
{
    match entry {
        SourceEntry::Did(Event::Emit { now, .. }, Outcome::Emitted { cell, .. }) => Some(Cell {
            number: *cell,
            at: *now,
            behind,
        }),
        _ => None,
    }
}

// The place of a request that an entry tells to be served.
fn sent_of(behind: usize, entry: &SourceEntry) -> Option<Placed>
    ensures { result ≡ spec.sent_of (behind, entry.now) }
{
    match entry {
        SourceEntry::Sent { place } => Some(Placed {
            place: *place,
            behind,
        }),
        _ => None,
    }
}

// The place of a cell that an entry tells to be served.
fn arrived_of(behind: usize, entry: &SourceEntry) -> Option<Placed>
    ensures { result ≡ spec.arrived_of (behind, entry.now) }
{
    match entry {
        SourceEntry::Arrived { place, .. } => Some(Placed {
            place: *place,
            behind,
        }),
        _ => None,
    }
}

// Adds an item, if there is one.
pub(crate) fn push_some<T: Drop>(items: &mut Vec<T>, item: Option<T>) -> Result<(), AllocError>
    ensures { OnOk result (items.new.items ≡ items.old.items ++ option_to_list item) }
{
    if let Some(item) = item {
        items.push(item)?;
    }
    Ok(())
}

impl Told {
    // What these entries tell.
    pub(crate) fn of(alloc: Global, entries: &[SourceEntry]) -> Result<Told, AllocError>
        ensures { IfOk result (IsToldBy entries.now) }
    {
        let mut told = Told {
            asked: IndexMap::new(alloc),
            cells: Vec::new(alloc),
            sent: Vec::new(alloc),
            arrived: Vec::new(alloc),
        };
        for (before, entry) in entries.iter().enumerate() {
            told.take(before + 1, entry)?;
        }
        Ok(told)
    }

    // Takes in the next entry, up to which there are so many.
    fn take(&mut self, behind: usize, entry: &SourceEntry) -> Result<(), AllocError>
        ensures { OnOk result ((entries : List Entry) → IsToldBy entries self.old →
            behind ≡ length entries + 1 → IsToldBy (entries ++ entry.now ∷ []) self.new) }
    {
        self.take_asked(behind, asked_by(entry))?;
        push_some(&mut self.cells, cell_of(behind, entry))?;
        push_some(&mut self.sent, sent_of(behind, entry))?;
        push_some(&mut self.arrived, arrived_of(behind, entry))?;
        Ok(())
    }

    #[tactic(auto, using(crate::proofs::Telling::noted_none))]
    // Notes the number that an entry asks, up to which there are so many, if it asks one.
    fn take_asked(&mut self, behind: usize, asked: Option<u32>) -> Result<(), AllocError>
        ensures { OnOk result (IsNoted self.old self.new behind asked) }
    {
        match asked {
            Some(seq) => self.note(behind, seq),
            None => Ok(()),
        }
    }

    // Notes a number, unless an earlier entry asks it.
    fn note(&mut self, behind: usize, seq: u32) -> Result<(), AllocError>
        ensures { OnOk result (IsNoted self.old self.new behind (Some seq)) }
    {
        if self.asked.get(&seq).is_none() {
            self.asked.insert(seq, behind)?;
        }
        Ok(())
    }

    // How many entries there are up to the first that asks a number.
    pub(crate) fn asked(&self, seq: u32) -> Option<usize>
        ensures { (entries : List Entry) → IsToldBy entries self.now → result ≡ spec.asked_in entries seq }
    {
        self.asked.get(&seq).copied()
    }
}
