//! What the blocks of a store say.
ghost use Rattle.std.specs.Prelude.{◌≡◌, ◌≤◌, ◌+◌, ◌%◌, slice_index, Ok};
ghost use Rattle.abt_disk.specs.Calls.{blocks_of};
ghost use Rattle.abt_disk.specs.Slots.{header_in, record_in_slot, stored_in};

use crate::fault::OpenFault;
use abt_keep::Record;

/// The block that names format and version.
pub(crate) const HEADER_BLOCK: u64 = 0;

/// The block whose first octet chooses a slot.
pub(crate) const CHOICE_BLOCK: u64 = 1;

/// The first of the two slots.
const FIRST_SLOT: u64 = 2;

/// The name of the format, and version 1.
const HEADER: [u8; 24] = *b"abt source store\0\0\0\0\0\0\0\x01";

// Looks whether the first block names a store of this version.
pub(crate) fn check_header(octets: &[u8; 24]) -> Result<(), OpenFault>
    ensures { result ≡ header_in octets.now }
{
    if octets[..16] != HEADER[..16] {
        return Err(OpenFault::Format);
    }
    let [.., v7, v6, v5, v4, v3, v2, v1, v0] = *octets;
    let version = u64::from_be_bytes([v7, v6, v5, v4, v3, v2, v1, v0]);
    if version != 1 {
        return Err(OpenFault::Version(version));
    }
    Ok(())
}

// The slot that a block of choice chooses.
pub(crate) fn chosen_slot(octets: &[u8; 24]) -> u64
    ensures { result ≡ 2 + slice_index octets.now 0 % 2 }
{
    FIRST_SLOT + u64::from(octets[0] % 2)
}

// The block of choice that chooses a slot.
pub(crate) fn choice_of(slot: u64) -> [u8; 24]
    requires { (2 ≤ slot) × (slot ≤ 3) }
    ensures { 2 + slice_index result 0 % 2 ≡ slot }
{
    let mut octets = [0; 24];
    octets[0] = u8::from(slot != FIRST_SLOT);
    octets
}

// The record of a slot.
pub(crate) fn record_of(octets: &[u8; 24]) -> Result<Record, OpenFault>
    ensures { result ≡ record_in_slot octets.now }
{
    if octets[..12] != octets[12..] {
        return Err(OpenFault::Damaged);
    }
    match Record::from_octets(&octets[..12]) {
        Ok(kept) => Ok(kept),
        Err(_) => Err(OpenFault::Damaged),
    }
}

// The octets of a slot with this record.
pub(crate) fn slot_with(kept: Record) -> [u8; 24]
    ensures { record_in_slot result ≡ Ok kept }
{
    let record = kept.to_octets();
    let mut octets = [0; 24];
    octets[..12].copy_from_slice(&record);
    octets[12..].copy_from_slice(&record);
    octets
}

/// The blocks of a new store, which holds this record.
pub fn new_blocks(kept: Record) -> [[u8; 24]; 4]
    ensures { stored_in (blocks_of result) ≡ Ok kept }
{
    [HEADER, choice_of(FIRST_SLOT), slot_with(kept), [0; 24]]
}
