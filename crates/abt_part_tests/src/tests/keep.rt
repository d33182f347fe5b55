//! Records, their octets, and a store in memory.
use super::{same, says};
use abt_keep::{MemoryStore, Record, RecordFault, SeqStore, StoreFault, StorePlan};
use std::process::Abort;
use std::test::Fail;

// A read and a write under a plan: what they answered, and the number that is then kept.
fn under<K: SeqStore>(store: &mut K, n: u32) -> (bool, bool, Option<u32>) {
    let read = store.kept().is_ok();
    let written = store.keep(Record::old(n)).is_ok();
    let Ok(kept) = store.kept() else {
        return (read, written, None);
    };
    (read, written, Some(kept.number()))
}

#[test]
fn a_plan_is_for_the_next_call_alone(rt: HostRuntime) {
    let mut store = MemoryStore::new(7);
    same(&rt, &under(&mut store, 8), &(true, true, Some(8)));
    same(&rt, &store.failures(), &0);

    store.plan(StorePlan::FailsBefore);
    same(&rt, &under(&mut store, 9), &(false, true, Some(9)));
    same(&rt, &store.failures(), &1);
}

#[test]
fn a_write_that_failed_may_be_kept(rt: HostRuntime) -> Result<(), Fail> {
    let before = Record::new(7, 234).ok_or("a record")?;
    let after = Record::new(8, 1000000000000).ok_or("a record")?;
    let mut store = MemoryStore::with(before);
    store.plan(StorePlan::FailsBefore);
    keep_fails(&rt, &mut store, after, before);

    store.plan(StorePlan::FailsAfter);
    keep_fails(&rt, &mut store, after, after);
    same(&rt, &store.failures(), &2);
    Ok(())
}

// Demands that a write fails, and which record is then kept.
fn keep_fails(rt: &impl Abort, store: &mut MemoryStore, kept: Record, expected: Record) {
    same(rt, &store.keep(kept), &Err(StoreFault::Device));
    same(rt, &store.kept(), &Ok(expected));
}

#[test]
fn a_record_has_a_spacing_of_some_rate(rt: HostRuntime) {
    for (spacing, is_one) in [
        (233, false),
        (234, true),
        (1000000000000, true),
        (1000000000001, false),
    ] {
        same(&rt, &Record::new(1, spacing).is_some(), &is_one);
    }
}

// The octets of the worked examples (docs/FORMATS.md, "Kept records").
const OLD: [u8; 4] = [0, 0, 0, 0x2a];

const SECOND: [u8; 12] = [0, 0, 0, 0x2a, 0, 0, 0, 0xe8, 0xd4, 0xa5, 0x10, 0];

const MILLISECOND: [u8; 12] = [0, 0, 0, 0x2a, 0, 0, 0, 0, 0x3b, 0x9a, 0xca, 0];

const TOO_SHORT: [u8; 12] = [0, 0, 0, 0x2a, 0, 0, 0, 0, 0, 0, 0, 0xe9];

// Reads octets, which have to be a record of number 42 with this spacing, and to come back as these.
fn reads_as(rt: &impl Abort, octets: &[u8], spacing: u64, back: [u8; 12]) -> Result<(), Fail> {
    let Ok(record) = Record::from_octets(octets) else {
        return Err("no record".into());
    };
    same(rt, &(record.number(), record.spacing()), &(42, spacing));
    same(rt, &record.to_octets(), &back);
    Ok(())
}

#[test]
fn octets_are_read_as_they_are_written(rt: HostRuntime) -> Result<(), Fail> {
    reads_as(&rt, &OLD, 1000000000000, SECOND)?;
    reads_as(&rt, &SECOND, 1000000000000, SECOND)?;
    reads_as(&rt, &MILLISECOND, 1000000000, MILLISECOND)
}

#[test]
fn other_octets_are_no_record(rt: HostRuntime) {
    same(
        &rt,
        &Record::from_octets(&TOO_SHORT),
        &Err(RecordFault::Spacing),
    );
    let five = [0, 0, 0, 0x2a, 0];
    same(&rt, &Record::from_octets(&five), &Err(RecordFault::Length));
    same(&rt, &Record::from_octets(&[]), &Err(RecordFault::Length));
}

#[test]
fn faults_have_texts(rt: HostRuntime) -> Result<(), Fail> {
    says(&rt, rt.alloc(), &StoreFault::Device, "the store failed")?;
    let length = "a record has 4 or 12 octets";
    says(&rt, rt.alloc(), &RecordFault::Length, length)?;
    let spacing = "no rate has the spacing of the record";
    says(&rt, rt.alloc(), &RecordFault::Spacing, spacing)
}
