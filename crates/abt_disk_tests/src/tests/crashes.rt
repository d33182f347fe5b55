//! Whatever a crash leaves of the blocks that weren't synced, the old or the new record is found.
use super::trial_file::{Octets, TrialFile, failing_store, store_on};
use super::{new, old, same};
use abt_disk::new_blocks;
use abt_keep::{Record, SeqStore};
use std::process::Abort;
use std::test::Fail;

// What a crash makes of a block that wasn't synced.
#[derive(Clone, Copy)]
enum Left {
    // It has what was synced.
    Nothing,
    // It has what was written.
    Whole,
    // It has the first half of that.
    Half,
    // It has this octet all over.
    Garbage(u8),
}

// The blocks that a crash leaves of a file.
fn after_crash(file: &TrialFile, how: Left) -> Octets {
    let mut octets = file.device;
    for block in 0..4 {
        if file.held[block] != file.device[block] {
            octets[block] = torn(&file.device[block], &file.held[block], how);
        }
    }
    octets
}

fn torn(device: &[u8; 24], held: &[u8; 24], how: Left) -> [u8; 24] {
    match how {
        Left::Nothing => *device,
        Left::Whole => *held,
        Left::Half => {
            let mut octets = *device;
            octets[..12].copy_from_slice(&held[..12]);
            octets
        }
        Left::Garbage(octet) => [octet; 24],
    }
}

// The record that is found in blocks.
fn found(octets: Octets) -> Result<Record, Fail> {
    let Ok(mut store) = store_on(octets) else {
        return Err("the store isn't opened".into());
    };
    let Ok(kept) = store.kept() else {
        return Err("the store isn't read".into());
    };
    Ok(kept)
}

// Writes a record, of which the call of a number fails, and gives the file then, and whether the write said Ok.
fn written(fails: u64, writes: bool) -> Result<(TrialFile, bool), Fail> {
    let Ok(mut store) = failing_store(new_blocks(old()), fails, writes) else {
        return Err("the store isn't opened".into());
    };
    let is_kept = store.keep(new()?).is_ok();
    Ok((store.into_disk().into_file(), is_kept))
}

// Demands the old or the new record of what a crash leaves, and after Ok the new one.
fn is_old_or_new(rt: &impl Abort, file: &TrialFile, is_kept: bool, how: Left) -> Result<(), Fail> {
    let kept = found(after_crash(file, how))?;
    same(rt, &(kept == new()? || (!is_kept && kept == old())), &true);
    Ok(())
}

fn any_crash(rt: &impl Abort, fails: u64, writes: bool) -> Result<(), Fail> {
    let (file, is_kept) = written(fails, writes)?;
    same(rt, &is_kept, &(fails == 0));
    for how in [Left::Nothing, Left::Whole, Left::Half] {
        is_old_or_new(rt, &file, is_kept, how)?;
    }
    for octet in 0..=255 {
        is_old_or_new(rt, &file, is_kept, Left::Garbage(octet))?;
    }
    Ok(())
}

// An opening makes three reads, and a write two writes, each with its sync.
#[test]
fn the_old_or_the_new_record_is_found(rt: HostRuntime) -> Result<(), Fail> {
    for fails in [0, 4, 5, 6, 7] {
        any_crash(&rt, fails, false)?;
        any_crash(&rt, fails, true)?;
    }
    Ok(())
}

// Every write takes the other slot, so a hundred in a row are each found.
#[test]
fn each_of_a_hundred_records_is_found(rt: HostRuntime) -> Result<(), Fail> {
    let Ok(mut store) = store_on(new_blocks(old())) else {
        return Err("the store isn't opened".into());
    };
    for number in 43..143 {
        same(&rt, &store.keep(Record::old(number)), &Ok(()));
        same(&rt, &store.kept(), &Ok(Record::old(number)));
    }
    let device = store.into_disk().into_file().device;
    same(&rt, &found(device)?, &Record::old(142));
    Ok(())
}
