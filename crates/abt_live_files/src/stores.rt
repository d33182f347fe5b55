//! Stores of sources in files.
use abt_disk::{FileFault, FileStore, create_store, open_store};
use abt_keep::{Record, SeqStore};
use std::fs::File;
use std::io;
use std::rt::Files;

/// A system that has stores of sources in files, and lets one process have a file for itself.
pub trait Stores: Files {
    /// A store in a file.
    type Store: SeqStore + Drop;

    /// Makes a store that holds this record, in a file of this name.
    ///
    /// # Errors
    /// As [`create_store`] has them.
    fn create_store(&self, path: &str, kept: Record) -> Result<(), FileFault>;

    /// Opens the store in a file of this name, which no other process then opens.
    ///
    /// # Errors
    /// As [`open_store`] has them.
    fn open_store(&self, path: &str) -> Result<Self::Store, FileFault>;

    /// Locks a journal for this process, as long as it is open.
    ///
    /// # Errors
    /// `WouldBlock` while another process has it.
    fn lock_journal(&self, journal: &Self::File) -> io::Result<()>;
}

impl Stores for HostRuntime {
    type Store = FileStore;

    fn create_store(&self, path: &str, kept: Record) -> Result<(), FileFault> {
        create_store(self, path, kept)
    }

    fn open_store(&self, path: &str) -> Result<FileStore, FileFault> {
        open_store(self, path)
    }

    fn lock_journal(&self, journal: &File) -> io::Result<()> {
        match journal.try_lock() {
            Ok(()) => Ok(()),
            Err(error) => Err(io::Error::from(error)),
        }
    }
}
