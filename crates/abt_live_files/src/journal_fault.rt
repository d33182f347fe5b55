//! Why a journal isn't opened or written.
ghost use Rattle.std.specs.Prelude.{◌≡◌};
ghost use Rattle.abt_live_files.specs.Words as spec;

use abt_text::Unwritten;
use std::alloc::AllocError;
use std::io;
use std::io::ErrorKind;
use thiserror::Error;

/// Why the file of a journal isn't opened or written.
#[derive(Clone, Copy, Debug, PartialEq, Eq, Error)]
pub enum JournalFault {
    /// There is no such file.
    #[error("no such journal")]
    Missing,
    /// The folder that it is to be made in isn't there.
    #[error("no such folder")]
    NoFolder,
    /// A journal that is to be that of a new source has lines already.
    #[error("a journal with lines")]
    Used,
    /// A journal that is to be that of a switch is there already: with the process that had it the reservations ended.
    #[error("the journal of a switch that ended")]
    Ended,
    /// Another process uses it.
    #[error("another process uses the journal")]
    Busy,
    /// It may not be read or written.
    #[error("no permission")]
    Forbidden,
    /// It is a folder.
    #[error("a folder")]
    Folder,
    /// The disk is full.
    #[error("the disk is full")]
    Full,
    /// It can't be read.
    #[error("it can't be read")]
    Unread,
    /// It can't be written.
    #[error("it can't be written")]
    Unwritten,
    /// It has lines that aren't those of the source's journal.
    #[error("another journal")]
    Foreign,
    /// It tells more cells than fit before its last moment.
    #[error("no past of a source")]
    Past,
    /// The system doesn't open it.
    #[error("not opened")]
    Other,
    /// No memory was found.
    #[error("out of memory")]
    Memory,
}

impl JournalFault {
    // Why a file isn't made, if it isn't there.
    pub(crate) fn of_making(error: io::Error) -> JournalFault {
        match JournalFault::from(error) {
            JournalFault::Missing => JournalFault::NoFolder,
            other => other,
        }
    }

    // What it means, and what to do.
    pub(crate) fn words(self) -> &'static str
        ensures { result.now ≡ spec.journal_words self }
    {
        match self {
            JournalFault::Missing => "there is no such journal; --new begins one",
            JournalFault::NoFolder => "there is no such folder",
            JournalFault::Used => "it has lines already, and a new source has none",
            JournalFault::Ended =>
                "it is there already; a switch that ended lost its reservations: end its sources, and begin all with new journals",
            JournalFault::Busy => "another process uses it",
            JournalFault::Forbidden =>
                "its rights, or those of its disk, don't let it be read and written",
            JournalFault::Folder => "it is a folder",
            JournalFault::Full => "the disk is full",
            JournalFault::Unread => "it can't be read",
            JournalFault::Unwritten => "it can't be written",
            JournalFault::Foreign => "it is no journal of this source",
            JournalFault::Past => "it tells more cells than fit before its last moment",
            JournalFault::Other => "the system doesn't open it",
            JournalFault::Memory => "no memory was found",
        }
    }
}

impl From<io::Error> for JournalFault {
    fn from(error: io::Error) -> JournalFault {
        match error.kind() {
            ErrorKind::NotFound => JournalFault::Missing,
            ErrorKind::AlreadyExists => JournalFault::Ended,
            ErrorKind::WouldBlock => JournalFault::Busy,
            ErrorKind::PermissionDenied | ErrorKind::ReadOnlyFilesystem => JournalFault::Forbidden,
            ErrorKind::IsADirectory => JournalFault::Folder,
            ErrorKind::StorageFull | ErrorKind::QuotaExceeded => JournalFault::Full,
            ErrorKind::OutOfMemory => JournalFault::Memory,
            _ => JournalFault::Other,
        }
    }
}

impl From<AllocError> for JournalFault {
    fn from(_: AllocError) -> JournalFault {
        JournalFault::Memory
    }
}

impl From<Unwritten> for JournalFault {
    fn from(_: Unwritten) -> JournalFault {
        JournalFault::Unwritten
    }
}
