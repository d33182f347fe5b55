//! Files of the operating system.
ghost use Rattle.std.specs.Prelude.{◌≡◌, ◌<◌, []};

use crate::block_file::BlockFile;
use crate::disk::DiskFault;
use crate::log::{CallLog, DiskCall};
use std::fs::File;
use std::io;
use std::io::ErrorKind;
use std::os::unix::fs::FileExt;

/// The octets from one block to the next: a block has a page of its own.
pub(crate) const PAGE: u64 = 4096;

/// A file of the operating system, of four blocks. Each method makes one call of it, and then notes that.
#[derive(Drop)]
pub struct HostFile {
    file: File,
    log: CallLog,
}

impl HostFile {
    // Of an open file, of which nothing was asked.
    pub(crate) fn new(file: File) -> HostFile
        ensures { result.log.calls ≡ [] }
    {
        HostFile {
            file,
            log: CallLog::new(),
        }
    }
}

// What an error of the system is to a disk.
fn disk_fault_of(error: io::Error) -> DiskFault {
    match error.kind() {
        ErrorKind::StorageFull | ErrorKind::QuotaExceeded => DiskFault::Full,
        _ => DiskFault::Device,
    }
}

// Reads the block at the beginning of a page.
pub(crate) fn block_at(file: &File, block: u64) -> io::Result<[u8; 24]>
    requires { block < 4 }
{
    let mut octets = [0; 24];
    file.read_exact_at(&mut octets, block * PAGE)?;
    Ok(octets)
}

impl BlockFile for HostFile {
    ghost calls = { λ f. f.log.calls };

    fn read(&mut self, block: u64) -> Result<[u8; 24], DiskFault> {
        match block_at(&self.file, block) {
            Ok(octets) => {
                self.log.note(&DiskCall::Read { block, octets });
                Ok(octets)
            }
            Err(error) => {
                self.log.note(&DiskCall::Failed);
                Err(disk_fault_of(error))
            }
        }
    }

    fn write(&mut self, block: u64, octets: &[u8; 24]) -> Result<(), DiskFault> {
        match self.file.write_all_at(octets, block * PAGE) {
            Ok(()) => {
                let octets = *octets;
                self.log.note(&DiskCall::Write { block, octets });
                Ok(())
            }
            Err(error) => {
                self.log.note(&DiskCall::WriteFailed { block });
                Err(disk_fault_of(error))
            }
        }
    }

    fn sync(&mut self) -> Result<(), DiskFault> {
        match self.file.sync_data() {
            Ok(()) => {
                self.log.note(&DiskCall::Sync);
                Ok(())
            }
            Err(error) => {
                self.log.note(&DiskCall::Failed);
                Err(disk_fault_of(error))
            }
        }
    }
}
