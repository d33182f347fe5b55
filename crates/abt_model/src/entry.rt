//! The entries of a source's journal.
use crate::{Event, Outcome};

/// What one source did, or what the first port of its path served for it. A place counts the entries of that port's journal,
/// from 0.
#[derive(Clone, Copy, Debug, PartialEq, Eq)]
pub enum SourceEntry {
    /// The source was to do this, and this is what came of it.
    Did(Event, Outcome),
    /// The port served the request that the source asked or repeated just before.
    Sent { place: u64 },
    /// The port served a cell that the source had emitted.
    Arrived { cell: u64, place: u64 },
}
