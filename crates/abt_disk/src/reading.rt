//! A record is read from a disk.
ghost use Rattle.std.specs.Prelude.{◌≡◌, ◌<◌, ◌⊎◌, true, false, Ok, Err, is_err, IfOk, IfErr, OnOk};
ghost use Rattle.abt_disk.specs.Disk.{Only};
ghost use Rattle.abt_disk.specs.Slots.{stored_in};
ghost use Rattle.abt_disk.specs.Stores.{IsSettled, ReadsOnly};
ghost use Rattle.abt_disk.specs.declared.disk.DiskFault.{DiskFault};
ghost use Rattle.abt_disk.specs.declared.fault.OpenFault.TheVariants as open_fault;

use crate::disk::{Disk, DiskFault};
use crate::fault::OpenFault;
use crate::slots::{CHOICE_BLOCK, HEADER_BLOCK, check_header, chosen_slot, record_of};
use abt_keep::Record;

// Reads a block of a disk that is all synced.
pub(crate) fn read_block<D: Disk>(disk: &mut D, block: u64) -> Result<[u8; 24], DiskFault>
    requires block { block < 4 }
    requires durable { Only (D.seen disk.old) (D.may_leave disk.old) }
    ensures octets { IfOk result (λ octets. octets ≡ D.seen disk.old block) }
    ensures reads { ReadsOnly D.seen D.may_leave D.moment D.left_since disk.old disk.new }
    ensures durable { Only (D.seen disk.new) (D.may_leave disk.new) }
    ensures fails { D.has_failed disk.new ≡ is_err result }
{
    disk.read(block)
}

// Reads the store: the block of the chosen slot, and its record.
pub(crate) fn read_store<D: Disk>(disk: &mut D) -> Result<(u64, Record), OpenFault>
    requires { Only (D.seen disk.old) (D.may_leave disk.old) }
    ensures settled { IfOk result (λ found. IsSettled D.seen D.may_leave disk.new found.0 found.1) }
    ensures stored { IfOk result (λ found. stored_in (D.seen disk.old) ≡ Ok found.1) }
    ensures healthy { OnOk result (D.has_failed disk.new ≡ false) }
    ensures err { IfErr result (λ fault. (stored_in (D.seen disk.old) ≡ Err fault)
        ⊎ ((cause : DiskFault) × (fault ≡ open_fault.Disk cause) × (D.has_failed disk.new ≡ true))) }
    ensures reads { ReadsOnly D.seen D.may_leave D.moment D.left_since disk.old disk.new }
{
    let header = read_block(disk, HEADER_BLOCK).map_err(OpenFault::Disk)?;
    check_header(&header)?;
    let choice = read_block(disk, CHOICE_BLOCK).map_err(OpenFault::Disk)?;
    let slot = chosen_slot(&choice);
    let octets = read_block(disk, slot).map_err(OpenFault::Disk)?;
    Ok((slot, record_of(&octets)?))
}
