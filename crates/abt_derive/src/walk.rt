//! How far a source had come when its first port served something (docs/JOURNALS.md, "What may be left out").
ghost use Rattle.std.specs.Prelude.{◌≡◌, List, length, IfOk, max};
ghost use Rattle.abt_model.specs.declared.entry.SourceEntry.{SourceEntry as Entry};
ghost use Rattle.abt_derive.specs.Tells.{IsToldBy, asked_in};
ghost use Rattle.abt_derive.specs.declared.served.Served.TheVariants as served;
ghost use Rattle.abt_derive.specs.Walks as spec;
ghost use Rattle.abt_derive.specs.Walks.{way_of};
ghost use Rattle.abt_derive.specs.Lists.{behind_first};

use crate::derived::Derived;
use crate::served::Served;
use crate::told::{Cell, Placed, Told, push_some};
use abt_model::SourceEntry;
use abt_net::Conn;
use std::alloc::{AllocError, Global};

// What of a source's journal stands before the next step of its first port.
#[derive(Drop)]
pub(crate) struct Walk<'a> {
    // How many entries of the journal stand before it at least.
    reached: usize,
    // The cells that aren't known to be past, and the entries that tell no lower place.
    cells: &'a [Cell],
    sent: &'a [Placed],
    arrived: &'a [Placed],
}

// Those that tell this place or a later one.
fn from_place(all: &[Placed], place: u64) -> &[Placed]
    ensures { result.now ≡ spec.from_place place all.now }
{
    let mut left = all;
    while let Some((first, rest)) = left.split_first() {
        if first.place >= place {
            break;
        }
        left = rest;
    }
    left
}

// Those cells that didn't leave before the entry up to which there are so many.
fn from_entry(all: &[Cell], behind: usize) -> &[Cell]
    ensures { result.now ≡ behind_first (spec.left_before behind) all.now }
{
    let mut left = all;
    while let Some((first, rest)) = left.split_first() {
        if first.behind >= behind {
            break;
        }
        left = rest;
    }
    left
}

// Whether the window in which a cell comes has ended before a moment.
fn has_ended(conn: &Conn, at: u64, cell: &Cell) -> bool
    ensures { result ≡ spec.has_ended conn.now at cell.now }
{
    at > cell.at.saturating_add(conn.delay).saturating_add(conn.tau)
}

// Whether it has begun by then.
fn has_begun(conn: &Conn, at: u64, cell: &Cell) -> bool
    ensures { result ≡ spec.has_begun conn.now at cell.now }
{
    cell.at <= at && conn.delay <= at - cell.at
}

// Those cells from the first on whose window hasn't ended before a moment.
fn from_moment<'a>(all: &'a [Cell], conn: &Conn, at: u64) -> &'a [Cell]
    ensures { result.now ≡ behind_first (spec.has_ended conn.now at) all.now }
{
    let mut left = all;
    while let Some((first, rest)) = left.split_first() {
        if !has_ended(conn, at, first) {
            break;
        }
        left = rest;
    }
    left
}

// How many entries there are up to the first of these, if it tells this place, and 0 if it doesn't.
fn behind_at(left: &[Placed], place: u64) -> usize
    ensures { result ≡ spec.behind_at place left.now }
{
    match left.first() {
        Some(first) if first.place == place => first.behind,
        _ => 0,
    }
}

impl<'a> Walk<'a> {
    // Before the first step.
    fn of(told: &'a Told) -> Walk<'a>
        ensures { (entries : List Entry) → IsToldBy entries told.now → way_of result ≡ spec.way_in entries }
    {
        Walk {
            reached: 0,
            cells: told.cells.as_slice(),
            sent: told.sent.as_slice(),
            arrived: told.arrived.as_slice(),
        }
    }

    // Goes behind the entry that asks a request, up to which there are so many.
    fn pass_ask(&mut self, behind: usize)
        ensures { way_of self.new ≡ spec.past_ask behind (way_of self.old) }
    {
        self.cells = from_entry(self.cells, behind);
        self.reached = self.reached.max(behind);
    }

    // Goes behind the entry that tells a place of a request itself.
    fn pass_sent(&mut self, place: u64)
        ensures { way_of self.new ≡ spec.past_sent place (way_of self.old) }
    {
        self.sent = from_place(self.sent, place);
        self.reached = self.reached.max(behind_at(self.sent, place));
    }

    // Goes behind the entry that tells a place of a cell itself.
    fn pass_arrived(&mut self, place: u64)
        ensures { way_of self.new ≡ spec.past_arrived place (way_of self.old) }
    {
        self.arrived = from_place(self.arrived, place);
        self.reached = self.reached.max(behind_at(self.arrived, place));
    }

    // The entry for a request that the first port served, if it is to be derived: it stands behind the entry that
    // asks the request, and not before what the port served earlier.
    fn sent(&mut self, told: &Told, place: u64, seq: u32) -> Option<Derived>
        ensures way { (entries : List Entry) → IsToldBy entries told.now →
            way_of self.new ≡ spec.past_request (spec.tells_sent entries) place (asked_in entries seq) (way_of self.old) }
        ensures value { (entries : List Entry) → IsToldBy entries told.now →
            result ≡ spec.entry_for_request (spec.tells_sent entries) place (asked_in entries seq) (way_of self.old) }
    {
        let behind = told.asked(seq)?;
        self.pass_ask(behind);
        if !told.sent.is_empty() {
            self.pass_sent(place);
            return None;
        }
        Some(Derived {
            before: self.reached,
            entry: SourceEntry::Sent { place },
        })
    }

    // The entry for a cell that came: it is the first one that didn't leave before an ask that was served, and whose
    // window has the moment.
    fn came(&mut self, conn: &Conn, place: u64, at: u64) -> Option<Derived>
        ensures way { way_of self.new ≡
            spec.past_cell conn.now at (spec.still_coming conn.now at (way_of self.old)) (way_of self.old) }
        ensures value { result ≡
            spec.entry_for_cell conn.now place at (spec.still_coming conn.now at (way_of self.old)) (way_of self.old) }
    {
        self.cells = from_moment(self.cells, conn, at);
        let (cell, more) = self.cells.split_first()?;
        if !has_begun(conn, at, cell) {
            return None;
        }
        self.cells = more;
        self.reached = self.reached.max(cell.behind);
        Some(Derived {
            before: self.reached,
            entry: SourceEntry::Arrived {
                cell: cell.number,
                place,
            },
        })
    }

    // The entry for a cell that came, if it is to be derived.
    fn arrived(&mut self, told: &Told, conn: &Conn, place: u64, at: u64) -> Option<Derived>
        ensures way { (entries : List Entry) → IsToldBy entries told.now →
            way_of self.new ≡ spec.past conn.now entries (served.Cell place at) (way_of self.old) }
        ensures value { (entries : List Entry) → IsToldBy entries told.now →
            result ≡ spec.entry_for conn.now entries (served.Cell place at) (way_of self.old) }
    {
        if !told.arrived.is_empty() {
            self.pass_arrived(place);
            return None;
        }
        self.came(conn, place, at)
    }

    fn step(&mut self, told: &Told, conn: &Conn, served: Served) -> Option<Derived>
        ensures way { (entries : List Entry) → IsToldBy entries told.now →
            way_of self.new ≡ spec.past conn.now entries served (way_of self.old) }
        ensures value { (entries : List Entry) → IsToldBy entries told.now →
            result ≡ spec.entry_for conn.now entries served (way_of self.old) }
    {
        match served {
            Served::Request { place, seq } => self.sent(told, place, seq),
            Served::Cell { place, at } => self.arrived(told, conn, place, at),
        }
    }
}

// The entries of the source of a connection that its journal lacks, where its first port served these.
pub(crate) fn derived_of(
    alloc: Global,
    conn: &Conn,
    entries: &[SourceEntry],
    served: &[Served],
) -> Result<Vec<Derived>, AllocError>
    ensures { IfOk result (λ derived. derived.items ≡ spec.derived_in conn.now entries.now served.now) }
{
    let told = Told::of(alloc, entries)?;
    let mut walk = Walk::of(&told);
    let mut derived = Vec::new(alloc);
    for one in served {
        push_some(&mut derived, walk.step(&told, conn, *one))?;
    }
    Ok(derived)
}
