//! Journals with one thing changed.
use super::books::Books;
use super::others::{other_own, other_step};
use abt_journal::Entry;
use abt_model::SourceEntry;
use abt_walk::draws::Draws;
use abt_walk::walk::number;
use std::alloc::{AllocError, Global};

/// What is changed in a list.
#[derive(Clone, Copy, Debug, PartialEq, Eq)]
pub enum Edit {
    /// The item at a place is another one.
    Other(usize),
    /// The entry is missing.
    Missing(usize),
    /// It stands there twice.
    Twice(usize),
    /// It and another one stand at each other's place.
    Swapped(usize, usize),
}

/// A list in which this is changed.
fn edited<T: Copy + Drop>(
    alloc: Global,
    items: &[T],
    edit: Edit,
    other: T,
) -> Result<Vec<T>, AllocError> {
    let mut changed = Vec::new(alloc);
    for (place, item) in items.iter().enumerate() {
        let stands = match edit {
            Edit::Other(at) if at == place => other,
            Edit::Missing(at) if at == place => continue,
            Edit::Swapped(at, from) if at == place => items.get(from).copied().unwrap_or(*item),
            Edit::Swapped(from, at) if at == place => items.get(from).copied().unwrap_or(*item),
            Edit::Twice(at) if at == place => {
                changed.push(*item)?;
                *item
            }
            _ => *item,
        };
        changed.push(stands)?;
    }
    Ok(changed)
}

// A number of an item below a count.
fn below(draws: &mut Draws, count: usize) -> usize {
    let limit = u64::try_from(count).unwrap_or(u64::MAX);
    usize::try_from(draws.below(limit)).unwrap_or(0)
}

fn some_edit(draws: &mut Draws, count: usize, place: usize) -> Edit {
    match draws.below(7) {
        0 => Edit::Missing(place),
        1 => Edit::Twice(place),
        2 => Edit::Swapped(place, below(draws, count)),
        3 => Edit::Swapped(place, place.saturating_add(1)),
        _ => Edit::Other(place),
    }
}

// A port's journal with something changed at a place.
fn edited_port(
    alloc: Global,
    entries: &[Entry],
    place: usize,
    draws: &mut Draws,
) -> Result<Vec<Entry>, AllocError> {
    let edit = some_edit(draws, entries.len(), place);
    match entries.get(place) {
        Some(entry) => edited(alloc, entries, edit, other_step(draws, entry)),
        None => entries.to_vec(alloc),
    }
}

// A source's journal with something changed at a place.
fn edited_source(
    alloc: Global,
    entries: &[SourceEntry],
    conn: u16,
    place: usize,
    draws: &mut Draws,
) -> Result<Vec<SourceEntry>, AllocError> {
    let edit = some_edit(draws, entries.len(), place);
    match entries.get(place) {
        Some(entry) => edited(alloc, entries, edit, other_own(draws, conn, entry)),
        None => entries.to_vec(alloc),
    }
}

/// The journals with one thing changed at the entry of this number, those of ports counted first.
fn changed_at(
    alloc: Global,
    books: &Books,
    entry: usize,
    draws: &mut Draws,
) -> Result<Books, AllocError> {
    let mut before: usize = 0;
    let mut ports = Vec::new(alloc);
    for entries in &books.ports {
        let after = before.saturating_add(entries.len());
        ports.push(if before <= entry && entry < after {
            edited_port(
                alloc,
                entries.as_slice(),
                entry.saturating_sub(before),
                draws,
            )?
        } else {
            entries.as_slice().to_vec(alloc)?
        })?;
        before = after;
    }
    let mut sources = Vec::new(alloc);
    for (conn, entries) in books.sources.iter().enumerate() {
        let after = before.saturating_add(entries.len());
        sources.push(if before <= entry && entry < after {
            let place = entry.saturating_sub(before);
            edited_source(alloc, entries.as_slice(), number(conn), place, draws)?
        } else {
            entries.as_slice().to_vec(alloc)?
        })?;
        before = after;
    }
    Ok(Books { ports, sources })
}

/// The journals with one thing changed somewhere among so many entries.
pub fn changed(
    alloc: Global,
    books: &Books,
    count: usize,
    draws: &mut Draws,
) -> Result<Books, AllocError> {
    let entry = below(draws, count);
    changed_at(alloc, books, entry, draws)
}
