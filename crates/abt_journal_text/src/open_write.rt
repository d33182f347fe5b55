//! The writes that texts leave open.

/// An entry of a source that leaves open whether a write that failed was stored.
#[derive(Clone, Copy, Debug, PartialEq, Eq)]
pub struct OpenWrite {
    /// The source, by the number of its connection.
    pub source: u16,
    /// How many entries of the source's journal come before it.
    pub place: u64,
}
