//! Why a store isn't opened.
use crate::disk::DiskFault;
use thiserror::Error;

/// Why the blocks of a disk aren't opened as a store: the first of these that applies.
#[derive(Clone, Copy, Debug, PartialEq, Eq, Error)]
pub enum OpenFault {
    /// The disk failed.
    #[error("{0}")]
    Disk(DiskFault),
    /// They don't begin as a store does.
    #[error("the file is no store of a source")]
    Format,
    /// They are a store of another version.
    #[error("the store has version {0}, and this program reads version 1")]
    Version(u64),
    /// The chosen slot has no record.
    #[error("the store is damaged")]
    Damaged,
}
