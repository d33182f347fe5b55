//! The calls of a file, which only clauses read.
ghost use Rattle.std.specs.Prelude.{◌≡◌, List, [], ◌∷◌};
ghost use Rattle.abt_disk.specs.declared.log.DiskCall.{DiskCall};
ghost use Rattle.std.specs.Borrow.{ftrue};

use std::marker::{Model, PhantomData};

/// A call of a file of blocks, with what came of it.
#[derive(Clone, Copy, Debug, PartialEq, Eq)]
pub enum DiskCall {
    /// A block was read, and has these octets.
    Read { block: u64, octets: [u8; 24] },
    /// A block was written.
    Write { block: u64, octets: [u8; 24] },
    /// A write of a block failed. It may have been written in part.
    WriteFailed { block: u64 },
    /// All that was written is on the disk.
    Sync,
    /// A read or a sync failed.
    Failed,
}

/// All calls of a file so far, the newest first. It has no octets: only clauses read it.
#[derive(Drop)]
pub struct CallLog {
    marker: PhantomData<u8>,
    pub ghost calls: { List DiskCall },
}

impl Model for CallLog {
    ghost also_owns = { λ _. ftrue };
}

impl CallLog {
    /// The log of a file of which nothing was asked.
    pub fn new() -> CallLog
        ensures { result.calls ≡ [] }
    {
        CallLog {
            marker: PhantomData,
        }
    }

    /// Notes a call.
    pub fn note(&mut self, _call: &DiskCall)
        ensures { self.new.calls ≡ _call.now ∷ self.old.calls }
    {}
}
