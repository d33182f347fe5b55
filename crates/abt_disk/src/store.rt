//! A store of one record on a disk.
ghost use Rattle.std.specs.Prelude.{◌≡◌, ◌⊎◌, true, false, is_some, Ok, Err, IfOk, IfErr, OnErr, MatchResult};
ghost use Rattle.abt_keep.specs.MemoryStore.{one_more};
ghost use Rattle.abt_disk.specs.Disk.{AreSame, Only};
ghost use Rattle.abt_disk.specs.Slots.{stored_in};
ghost use Rattle.abt_disk.specs.Stores.{ReadsOnly};
ghost use Rattle.abt_disk.specs.declared.disk.DiskFault.{DiskFault};
ghost use Rattle.abt_disk.specs.declared.fault.OpenFault.TheVariants as open_fault;

use crate::disk::{Disk, DiskFault};
use crate::fault::OpenFault;
use crate::reading::read_store;
use crate::writing::put;
use abt_keep::{Record, SeqStore, StoreFault};
use std::marker::Model;

/// A store of one record on a disk (docs/RULES.md, "A store on a disk"). Whatever moment a crash comes at, the next opening
/// finds the record from before the call or the new one. A disk that has failed is asked nothing more: reads and writes
/// fail from then on, until the store is opened anew.
#[derive(Drop)]
pub struct SlotStore<D: Disk> {
    disk: D,
    // The block of the chosen slot.
    slot: u64,
    current: Record,
    fault: Option<DiskFault>,
    failures: u64,
}

impl<D: Disk> Model for SlotStore<D> {
    ghost use Rattle.std.specs.Prelude.{◌≡◌, false, is_some};
    ghost use Rattle.abt_disk.specs.Stores.{StoreView, IsSettled};

    ghost Value = { StoreView D };

    ghost view = { λ s. record { disk = s.disk; kept = s.current; failures = s.failures } };

    ghost invariant = { λ s. (is_some s.fault ≡ D.has_failed s.disk)
        × (D.has_failed s.disk ≡ false → IsSettled D.seen D.may_leave s.disk s.slot s.current) };
}

/// A disk that wasn't opened as a store, and why.
#[must_use]
#[derive(Debug, Drop)]
pub struct OpenRefused<D: Disk> {
    /// The disk, of which nothing but reads were asked.
    pub disk: D,
    /// Why it wasn't opened.
    pub fault: OpenFault,
}

impl<D: Disk> SlotStore<D> {
    /// Opens the store of a disk that a crash may have left. It only reads.
    ///
    /// # Errors
    /// [`OpenFault::Disk`] if a read fails, else the first of the others that applies to the blocks.
    pub fn open(disk: D) -> Result<SlotStore<D>, OpenRefused<D>>
        // After a restart, what is read is what is on the disk.
        requires { Only (D.seen disk) (D.may_leave disk) }
        ensures ok { IfOk result (λ store. (stored_in (D.seen disk) ≡ Ok store.kept)
            × (store.failures ≡ 0) × (D.has_failed store.disk ≡ false)) }
        ensures err { IfErr result (λ refused. (stored_in (D.seen disk) ≡ Err refused.fault)
            ⊎ ((fault : DiskFault) × (refused.fault ≡ open_fault.Disk fault)
            × (D.has_failed refused.disk ≡ true))) }
        ensures reads { MatchResult result
            (λ store. ReadsOnly D.seen D.may_leave D.moment D.left_since disk store.disk)
            (λ refused. ReadsOnly D.seen D.may_leave D.moment D.left_since disk refused.disk) }
    {
        let mut disk = disk;
        match read_store(&mut disk) {
            Ok((slot, current)) => Ok(SlotStore {
                disk,
                slot,
                current,
                fault: None,
                failures: 0,
            }),
            Err(fault) => Err(OpenRefused { disk, fault }),
        }
    }

    /// Why the disk isn't asked any more, if it has failed.
    pub fn fault(&self) -> Option<DiskFault>
        ensures { is_some result ≡ D.has_failed self.now.disk }
    {
        self.fault
    }

    /// Gives the disk back.
    pub fn into_disk(self) -> D
        ensures { result ≡ self.disk }
    {
        self.disk
    }

    // Counts a call that failed.
    fn count_failure(&mut self) -> StoreFault
        ensures value { result ≡ StoreFault.Device }
        ensures counted { self.new ≡ record self.old { failures = one_more self.old.failures } }
    {
        self.failures = self.failures.saturating_add(1);
        StoreFault::Device
    }
}

impl<D: Disk> SeqStore for SlotStore<D> {
    ghost use Rattle.std.specs.Prelude.{◌≡◌};
    ghost use Rattle.abt_disk.specs.Stores.{read_of, Keeps};

    ghost content = { λ s. s.kept };

    ghost failure_count = { λ s. s.failures };

    ghost kept_gives = { λ s answer after. (answer, after) ≡ read_of D.has_failed s };

    ghost keep_gives = { λ s kept answer after.
        Keeps D.seen D.may_leave D.moment D.left_since D.has_failed s kept answer after };

    fn kept(&mut self) -> Result<Record, StoreFault> {
        if self.fault.is_some() {
            return Err(self.count_failure());
        }
        Ok(self.current)
    }

    fn keep(&mut self, kept: Record) -> Result<(), StoreFault> {
        if self.fault.is_some() {
            return Err(self.count_failure());
        }
        match put(&mut self.disk, self.slot, kept) {
            Ok(()) => {
                self.slot = 5 - self.slot;
                self.current = kept;
                Ok(())
            }
            Err(fault) => {
                self.fault = Some(fault);
                Err(self.count_failure())
            }
        }
    }

    fn failures(&self) -> u64 {
        self.failures
    }
}
