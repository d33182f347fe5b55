//! Why a file isn't made or opened as a store.
use crate::disk::DiskFault;
use crate::fault::OpenFault;
use std::alloc::AllocError;
use std::io;
use std::io::ErrorKind;
use thiserror::Error;

/// Why a file isn't made or opened as a store.
#[derive(Clone, Copy, Debug, PartialEq, Eq, Error)]
pub enum FileFault {
    /// There is no file of this name. It is never taken for a new store.
    #[error("there is no such store")]
    Missing,
    /// A file of this name is there. It is never written over.
    #[error("a file of this name is there already")]
    Exists,
    /// The file that a store is made in is there: it is being made, or that was cut short.
    #[error("a file of this name with .new is there already, which was left or is being made")]
    Unfinished,
    /// It is no regular file.
    #[error("the store is no regular file")]
    NotAFile,
    /// It has so many octets, and not those of four pages.
    #[error("the store has {0} octets, and not 16384")]
    Length(u64),
    /// Another process, or this one, uses the store.
    #[error("another process uses the store")]
    Busy,
    /// The file or its folder can't be read or written.
    #[error("no permission to read and write the store in its folder")]
    Denied,
    /// The disk is full.
    #[error("the disk is full")]
    Full,
    /// The device failed.
    #[error("the disk failed")]
    Device,
    /// Its blocks are no store.
    #[error("{0}")]
    Blocks(OpenFault),
    /// No memory was found.
    #[error("out of memory")]
    Memory,
}

impl From<AllocError> for FileFault {
    ghost use Rattle.std.specs.Prelude.{◌≡◌};
    ghost use Rattle.abt_disk.specs.declared.file_fault.FileFault.TheVariants.{Memory};

    ghost from_gives = { λ _ fault. fault ≡ Memory };

    fn from(_: AllocError) -> FileFault {
        FileFault::Memory
    }
}

impl From<io::Error> for FileFault {
    fn from(error: io::Error) -> FileFault {
        match error.kind() {
            ErrorKind::NotFound => FileFault::Missing,
            ErrorKind::AlreadyExists => FileFault::Exists,
            ErrorKind::PermissionDenied | ErrorKind::ReadOnlyFilesystem => FileFault::Denied,
            ErrorKind::StorageFull | ErrorKind::QuotaExceeded => FileFault::Full,
            ErrorKind::IsADirectory => FileFault::NotAFile,
            ErrorKind::WouldBlock => FileFault::Busy,
            ErrorKind::OutOfMemory => FileFault::Memory,
            _ => FileFault::Device,
        }
    }
}

impl From<DiskFault> for FileFault {
    fn from(fault: DiskFault) -> FileFault {
        match fault {
            DiskFault::Full => FileFault::Full,
            DiskFault::Device | DiskFault::Differs => FileFault::Device,
        }
    }
}
