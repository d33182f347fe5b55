//! Numbers that outlive a restart.
ghost use Rattle.std.specs.Prelude.{◌≡◌, OnOk, Ok};
ghost use Rattle.abt_keep.specs.Record.{old_record};

use abt_keep::{MemoryStore, Record, SeqStore, StoreFault, StorePlan};

/// Keeps a number in a store beside the spacing that is there.
pub fn keep_number<K: SeqStore>(store: &mut K, number: u32) -> Result<(), StoreFault>
    ensures number { OnOk result ((K.content store.new).number ≡ number) }
    ensures spacing { OnOk result ((K.content store.new).spacing ≡ (K.content store.old).spacing) }
{
    let kept = store.kept()?;
    let Some(next) = Record::new(number, kept.spacing()) else {
        unreachable!()
    };
    store.keep(next)
}

/// What a store has after a write that failed, and that was made all the same.
pub fn kept_by_a_failed_write(number: u32) -> Result<Record, StoreFault>
    ensures { result ≡ Ok (old_record number) }
{
    let mut store = MemoryStore::new(0);
    store.plan(StorePlan::FailsAfter);
    let _failed = store.keep(Record::old(number));
    store.kept()
}
