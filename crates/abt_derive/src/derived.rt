//! Entries that were derived.
use abt_model::SourceEntry;

// An entry of a source that was derived, and how many entries of those that were written come before it.
#[derive(Clone, Copy, Debug)]
pub(crate) struct Derived {
    pub(crate) before: usize,
    pub(crate) entry: SourceEntry,
}
