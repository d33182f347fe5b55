//! Why the source stopped.
use abt_disk::{DiskFault, FileFault};
use std::alloc::AllocError;
use std::io;
use thiserror::Error;

/// Why the source stopped.
#[derive(Debug, Drop, Error)]
pub(crate) enum Stopped {
    /// The words of the process name no command.
    #[error("create FILE, or ask FILE NOW COUNT")]
    Words,
    /// The file isn't made or opened.
    #[error("{0}")]
    File(FileFault),
    /// The source didn't start.
    #[error("the start was refused")]
    Start,
    /// The disk of the store failed.
    #[error("{0}")]
    Disk(DiskFault),
    /// An ask was refused.
    #[error("the ask was refused")]
    Ask,
    /// A number can't be told.
    #[error("the output can't be written")]
    Output,
    /// No memory was found.
    #[error("out of memory")]
    Memory,
}

impl From<FileFault> for Stopped {
    fn from(fault: FileFault) -> Stopped {
        Stopped::File(fault)
    }
}

impl From<io::Error> for Stopped {
    fn from(_: io::Error) -> Stopped {
        Stopped::Output
    }
}

impl From<AllocError> for Stopped {
    fn from(_: AllocError) -> Stopped {
        Stopped::Memory
    }
}
