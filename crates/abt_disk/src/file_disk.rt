//! A disk on a file.
ghost use Rattle.std.specs.Prelude.{◌≡◌, [], length};
ghost use Rattle.abt_disk.specs.Disk.{Only};
ghost use Rattle.abt_disk.specs.Calls.{held_after, has_failed, MayLeave, LeftSince, counts_now, only_now};

use crate::block_file::BlockFile;
use crate::disk::{Disk, DiskFault};
use std::marker::Model;

/// A disk on a file. Each call is made on the file and on a shadow in memory. A read that differs from the shadow is a
/// failure, and after the first failure the file is asked nothing more.
#[derive(Drop)]
pub struct FileDisk<F: BlockFile> {
    file: F,
    // What the blocks held before the first call: only clauses read it.
    first: [[u8; 24]; 4],
    // The shadow: what they hold.
    held: [[u8; 24]; 4],
    fault: Option<DiskFault>,
}

impl<F: BlockFile> Model for FileDisk<F> {
    ghost use Rattle.std.specs.Prelude.{◌≡◌, ◌<◌, ℕ, is_some};
    ghost use Rattle.abt_disk.specs.Calls.{FileView, blocks_of, held_after, has_failed};

    ghost Value = { FileView F };

    ghost view = { λ d. record { file = d.file; first = d.first } };

    ghost invariant = { λ d. ((block : ℕ) → block < 4 → blocks_of d.held block ≡ held_after d.first (F.calls d.file) block)
        × (is_some d.fault ≡ has_failed d.first (F.calls d.file)) };
}

impl<F: BlockFile> FileDisk<F> {
    /// The disk of a file of which nothing was asked, and whose blocks hold these octets, all of them on the device.
    pub fn new(file: F, first: [[u8; 24]; 4]) -> FileDisk<F>
        requires { F.calls file ≡ [] }
        ensures value { result ≡ record { file = file; first = first } }
        ensures durable { Only (held_after result.first (F.calls result.file))
            (MayLeave result.first (F.calls result.file)) }
    {
        FileDisk {
            file,
            first,
            held: first,
            fault: None,
        }
    }

    /// Gives the file back.
    pub fn into_file(self) -> F
        ensures { result ≡ self.file }
    {
        self.file
    }
}

impl<F: BlockFile> Disk for FileDisk<F> {
    ghost seen = { λ d. held_after d.first (F.calls d.file) };

    ghost may_leave = { λ d. MayLeave d.first (F.calls d.file) };

    ghost moment = { λ d. length (F.calls d.file) };

    ghost left_since = { λ d. LeftSince d.first (F.calls d.file) };

    ghost has_failed = { λ d. has_failed d.first (F.calls d.file) };

    ghost counts_now = { λ d. counts_now d.first (F.calls d.file) };

    ghost only_now = { λ d. only_now d.first (F.calls d.file) };

    fn read(&mut self, block: u64) -> Result<[u8; 24], DiskFault> {
        if let Some(fault) = self.fault {
            return Err(fault);
        }
        let answer = match self.file.read(block) {
            Ok(octets) if octets != self.held[block as usize] => Err(DiskFault::Differs),
            other => other,
        };
        self.fault = answer.err();
        answer
    }

    #[tactic(auto, using(crate::proofs::Tears::tears_written, crate::proofs::Tears::tears_failed))]
    fn write(&mut self, block: u64, octets: &[u8; 24]) -> Result<(), DiskFault> {
        if let Some(fault) = self.fault {
            return Err(fault);
        }
        match self.file.write(block, octets) {
            Ok(()) => {
                self.held[block as usize] = *octets;
                Ok(())
            }
            Err(fault) => {
                self.fault = Some(fault);
                Err(fault)
            }
        }
    }

    fn sync(&mut self) -> Result<(), DiskFault> {
        if let Some(fault) = self.fault {
            return Err(fault);
        }
        let answer = self.file.sync();
        self.fault = answer.err();
        answer
    }
}
