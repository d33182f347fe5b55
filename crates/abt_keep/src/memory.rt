//! A store in memory, whose failures are planned.
ghost use Rattle.std.specs.Prelude.{◌≡◌};
ghost use Rattle.abt_keep.specs.Record.{old_record};

use crate::fault::StoreFault;
use crate::plan::StorePlan;
use crate::record::Record;
use crate::store::SeqStore;
use std::marker::Model;
use std::mem;

/// A store in memory, which stands for stable storage: each call goes by the plan that was made for it, and works if
/// none was.
#[derive(Debug, Drop)]
pub struct MemoryStore {
    kept: Record,
    plan: StorePlan,
    failures: u64,
}

impl Model for MemoryStore {
    ghost use Rattle.abt_keep.specs.MemoryStore.{StoreView};

    ghost Value = { StoreView };

    ghost view = { λ m. record { kept = m.kept; plan = m.plan; failures = m.failures } };
}

impl MemoryStore {
    /// A store of before spacings were kept, with this number, and with no plan.
    pub fn new(number: u32) -> MemoryStore
        ensures { result ≡ record { kept = old_record number; plan = StorePlan.Works; failures = 0 } }
    {
        MemoryStore::with(Record::old(number))
    }

    /// A store that keeps this record, and has no plan.
    pub fn with(kept: Record) -> MemoryStore
        ensures { result ≡ record { kept = kept; plan = StorePlan.Works; failures = 0 } }
    {
        MemoryStore {
            kept,
            plan: StorePlan::Works,
            failures: 0,
        }
    }

    /// Plans the next read or write, and no other. A plan made before for the same call is forgotten.
    pub fn plan(&mut self, plan: StorePlan)
        ensures { self.new ≡ record self.old { plan = plan } }
    {
        self.plan = plan;
    }
}

impl SeqStore for MemoryStore {
    ghost use Rattle.std.specs.Prelude.{◌≡◌};
    ghost use Rattle.abt_keep.specs.MemoryStore.{kept_under, keep_under};

    ghost content = { λ m. m.kept };

    ghost failure_count = { λ m. m.failures };

    ghost kept_gives = { λ m answer after. (answer, after) ≡ kept_under m.plan m };

    ghost keep_gives = { λ m kept answer after. (answer, after) ≡ keep_under m.plan m kept };

    fn kept(&mut self) -> Result<Record, StoreFault> {
        match mem::replace(&mut self.plan, StorePlan::Works) {
            StorePlan::Works => Ok(self.kept),
            StorePlan::FailsBefore | StorePlan::FailsAfter => {
                self.failures = self.failures.saturating_add(1);
                Err(StoreFault::Device)
            }
        }
    }

    fn keep(&mut self, kept: Record) -> Result<(), StoreFault> {
        let plan = mem::replace(&mut self.plan, StorePlan::Works);
        if plan != StorePlan::FailsBefore {
            self.kept = kept;
        }
        if plan == StorePlan::Works {
            return Ok(());
        }
        self.failures = self.failures.saturating_add(1);
        Err(StoreFault::Device)
    }

    fn failures(&self) -> u64 {
        self.failures
    }
}
