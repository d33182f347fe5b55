//! Disks of which a call fails.
use super::trial_file::{failing_store, store_on};
use super::{new, old, same};
use abt_disk::{DiskFault, OpenFault, new_blocks};
use abt_keep::{SeqStore, StoreFault};
use std::process::Abort;
use std::test::Fail;

#[test]
fn each_read_of_an_opening_may_fail(rt: HostRuntime) {
    for fails in 1..4 {
        let opened = failing_store(new_blocks(old()), fails, false);
        same(
            &rt,
            &opened.err(),
            &Some(OpenFault::Disk(DiskFault::Device)),
        );
    }
}

// After a failure of the call with this number, the disk is asked nothing more.
fn fails_for_good(rt: &impl Abort, fails: u64, fault: DiskFault) -> Result<(), Fail> {
    let Ok(mut store) = failing_store(new_blocks(old()), fails, false) else {
        return Err("the store isn't opened".into());
    };
    same(rt, &store.fault(), &None);
    same(rt, &store.keep(new()?), &Err(StoreFault::Device));
    same(rt, &store.fault(), &Some(fault));
    same(rt, &store.kept(), &Err(StoreFault::Device));
    same(rt, &store.keep(old()), &Err(StoreFault::Device));
    same(rt, &store.failures(), &3);
    same(rt, &store.into_disk().into_file().made, &fails);
    Ok(())
}

#[test]
fn each_call_of_a_write_may_fail(rt: HostRuntime) -> Result<(), Fail> {
    fails_for_good(&rt, 4, DiskFault::Full)?;
    fails_for_good(&rt, 5, DiskFault::Device)?;
    fails_for_good(&rt, 6, DiskFault::Full)?;
    fails_for_good(&rt, 7, DiskFault::Device)
}

#[test]
fn a_write_makes_four_calls_and_a_read_none(rt: HostRuntime) -> Result<(), Fail> {
    let Ok(mut store) = store_on(new_blocks(old())) else {
        return Err("the store isn't opened".into());
    };
    same(&rt, &store.kept(), &Ok(old()));
    same(&rt, &store.keep(new()?), &Ok(()));
    same(&rt, &store.kept(), &Ok(new()?));
    same(&rt, &store.failures(), &0);
    same(&rt, &store.into_disk().into_file().made, &7);
    Ok(())
}
