//! How the next call of a store in memory goes.

/// How the next call of a [`MemoryStore`](crate::MemoryStore) goes.
///
/// A read fails under either of the last two, and neither changes the record.
#[derive(Clone, Copy, Debug, PartialEq, Eq)]
pub enum StorePlan {
    /// It works.
    Works,
    /// It fails, and nothing was written.
    FailsBefore,
    /// It fails, and the record was written all the same.
    FailsAfter,
}
