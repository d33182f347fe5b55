//! A record is written onto a disk.
ghost use Rattle.std.specs.Prelude.{◌≡◌, ◌<◌, ◌-◌, true, is_err, Ok, OnOk};
ghost use Rattle.abt_keep.specs.Record.{KeptRecord};
ghost use Rattle.abt_disk.specs.Disk.{AreSame, Torn, Only, LeavesOnly};
ghost use Rattle.abt_disk.specs.Slots.{slot_of, stored_in, StoresOneOf};

use crate::disk::{Disk, DiskFault};
use crate::slots::{CHOICE_BLOCK, choice_of, slot_with};
use abt_keep::Record;

// Writes a block, and has it on the disk at Ok. At any moment a crash leaves the other blocks as they were.
pub(crate) fn write_through<D: Disk>(
    disk: &mut D,
    block: u64,
    octets: &[u8; 24],
) -> Result<(), DiskFault>
    requires block { block < 4 }
    requires durable { Only (D.seen disk.old) (D.may_leave disk.old) }
    ensures any_moment { LeavesOnly D.moment D.left_since disk.old disk.new (Torn block (D.seen disk.old)) }
    ensures written { OnOk result (D.seen disk.new block ≡ octets.now) }
    ensures others { OnOk result (Torn block (D.seen disk.old) (D.seen disk.new)) }
    ensures durable { OnOk result (Only (D.seen disk.new) (D.may_leave disk.new)) }
    ensures fails { D.has_failed disk.new ≡ is_err result }
    ensures stays { D.has_failed disk.old ≡ true → disk.new ≡ disk.old }
{
    disk.write(block, octets)?;
    disk.sync()
}

// Writes a record into the slot that isn't chosen, and then chooses it. At any moment a crash leaves the record from before
// or the new one, and after Ok the new one.
pub(crate) fn put<D: Disk>(disk: &mut D, slot: u64, kept: Record) -> Result<(), DiskFault>
    requires slot { slot ≡ slot_of (D.seen disk.old) }
    requires durable { Only (D.seen disk.old) (D.may_leave disk.old) }
    ensures any_moment { (old : KeptRecord) → stored_in (D.seen disk.old) ≡ Ok old →
        LeavesOnly D.moment D.left_since disk.old disk.new (StoresOneOf old kept) }
    ensures durable { OnOk result (Only (D.seen disk.new) (D.may_leave disk.new)) }
    ensures stored { (old : KeptRecord) → stored_in (D.seen disk.old) ≡ Ok old →
        OnOk result (stored_in (D.seen disk.new) ≡ Ok kept) }
    ensures slot { OnOk result (slot_of (D.seen disk.new) ≡ 5 - slot) }
    ensures fails { D.has_failed disk.new ≡ is_err result }
    ensures stays { D.has_failed disk.old ≡ true → disk.new ≡ disk.old }
{
    let other = 5 - slot;
    write_through(disk, other, &slot_with(kept))?;
    write_through(disk, CHOICE_BLOCK, &choice_of(other))
}
