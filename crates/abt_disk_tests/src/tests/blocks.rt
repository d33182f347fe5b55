//! What blocks say (docs/FORMATS.md, "Stores").
use super::trial_file::{Octets, store_on};
use super::{old, same, says};
use abt_disk::{DiskFault, FileFault, OpenFault, new_blocks};
use abt_keep::SeqStore;
use std::process::Abort;
use std::test::Fail;

// A new store of 42 and a second.
const HEADER: [u8; 24] = *b"abt source store\0\0\0\0\0\0\0\x01";

const SLOT: [u8; 24] = [
    0, 0, 0, 0x2a, 0, 0, 0, 0xe8, 0xd4, 0xa5, 0x10, 0, 0, 0, 0, 0x2a, 0, 0, 0, 0xe8, 0xd4, 0xa5,
    0x10, 0,
];

#[test]
fn a_new_store_has_these_octets(rt: HostRuntime) {
    let blocks = new_blocks(old());
    same(&rt, &blocks, &[HEADER, [0; 24], SLOT, [0; 24]]);
}

// Demands that blocks are refused with this fault.
fn refused(rt: &impl Abort, blocks: Octets, fault: OpenFault) {
    same(rt, &store_on(blocks).err(), &Some(fault));
}

#[test]
fn another_format_and_another_version_are_refused(rt: HostRuntime) {
    for at in 0..16 {
        let mut blocks = new_blocks(old());
        blocks[0][at] ^= 0x20;
        refused(&rt, blocks, OpenFault::Format);
    }
    let mut blocks = new_blocks(old());
    blocks[0][23] = 2;
    refused(&rt, blocks, OpenFault::Version(2));
    blocks[0][16] = 1;
    refused(&rt, blocks, OpenFault::Version(0x0100_0000_0000_0002));
    refused(&rt, [[0; 24]; 4], OpenFault::Format);
}

#[test]
fn a_damaged_slot_is_refused(rt: HostRuntime) {
    for at in 0..24 {
        let mut blocks = new_blocks(old());
        blocks[2][at] ^= 1;
        refused(&rt, blocks, OpenFault::Damaged);
    }
    let mut blocks = new_blocks(old());
    blocks[2] = [0; 24];
    refused(&rt, blocks, OpenFault::Damaged);
}

#[test]
fn any_octet_chooses_by_its_parity(rt: HostRuntime) {
    for octet in 0..=255u8 {
        let mut blocks = new_blocks(old());
        blocks[1] = [octet; 24];
        if octet % 2 == 1 {
            refused(&rt, blocks, OpenFault::Damaged);
        } else {
            same(&rt, &kept_in(blocks), &true);
        }
    }
}

// Whether 42 and a second are found.
fn kept_in(blocks: Octets) -> bool {
    match store_on(blocks) {
        Ok(mut store) => store.kept() == Ok(old()),
        Err(_) => false,
    }
}

#[test]
fn faults_have_texts(rt: HostRuntime) -> Result<(), Fail> {
    let differs = OpenFault::Disk(DiskFault::Differs);
    says(
        &rt,
        rt.alloc(),
        &differs,
        "the disk gives other octets than were written",
    )?;
    says(&rt, rt.alloc(), &DiskFault::Device, "the disk failed")?;
    says(&rt, rt.alloc(), &DiskFault::Full, "the disk is full")?;
    let version = FileFault::Blocks(OpenFault::Version(7));
    says(
        &rt,
        rt.alloc(),
        &version,
        "the store has version 7, and this program reads version 1",
    )?;
    says(
        &rt,
        rt.alloc(),
        &OpenFault::Format,
        "the file is no store of a source",
    )?;
    says(&rt, rt.alloc(), &OpenFault::Damaged, "the store is damaged")?;
    says(
        &rt,
        rt.alloc(),
        &FileFault::Length(9),
        "the store has 9 octets, and not 16384",
    )?;
    says(
        &rt,
        rt.alloc(),
        &FileFault::Missing,
        "there is no such store",
    )?;
    says(
        &rt,
        rt.alloc(),
        &FileFault::Busy,
        "another process uses the store",
    )
}
