//! The journal of a source.
use crate::Sequence;
use crate::entry::SourceEntry;

/// What one source did, and which of its requests and cells were served, in order (docs/RULES.md, "Workers").
#[derive(Debug, Drop)]
pub struct SourceJournal {
    /// The entries, the oldest first.
    pub entries: Sequence<SourceEntry>,
}
