//! What a store of one record promises.
use crate::fault::StoreFault;
use crate::record::Record;

/// A store of one record, which outlives the source that uses it (docs/RULES.md, "Kept records").
///
/// A caller that knows the store only by this trait has the plain promises below. The relations `kept_gives` and
/// `keep_gives` say all that a store of a given type does, so that a caller at that type has this too.
pub trait SeqStore {
    ghost use Rattle.std.specs.Prelude.{◌≡◌, ◌⊎◌, ℕ, Result, IfOk, OnOk, OnErr};
    ghost use Rattle.abt_keep.specs.Record.{KeptRecord};
    ghost use Rattle.abt_keep.specs.Store.{IsCounted};
    ghost use Rattle.abt_keep.specs.declared.fault.StoreFault.{StoreFault};

    /// The record that is kept.
    ghost content: { Self → KeptRecord };

    /// How many calls failed.
    ghost failure_count: { Self → ℕ };

    /// What a read may return, and the store that it may leave.
    ghost kept_gives: { (old : Self) → Result KeptRecord StoreFault → (new : Self) → Type 0 };

    /// What a write may return, and the store that it may leave.
    ghost keep_gives: { (old : Self) → KeptRecord → Result (Unit {0}) StoreFault → (new : Self) → Type 0 };

    /// Reads the record.
    ///
    /// # Errors
    /// [`StoreFault::Device`] if the device failed.
    fn kept(&mut self) -> Result<Record, StoreFault>
        ensures gives { kept_gives self.old result self.new }
        ensures value { IfOk result (λ kept. kept ≡ content self.old) }
        ensures same { content self.new ≡ content self.old }
        ensures device { OnErr result (IsCounted (failure_count self.old) (failure_count self.new)) };

    /// Writes a record. After an error it may have been written all the same.
    ///
    /// # Errors
    /// [`StoreFault::Device`] if the device failed.
    fn keep(&mut self, kept: Record) -> Result<(), StoreFault>
        ensures gives { keep_gives self.old kept result self.new }
        ensures ok { OnOk result (content self.new ≡ kept) }
        ensures err { OnErr result ((content self.new ≡ content self.old) ⊎ (content self.new ≡ kept)) }
        ensures device { OnErr result (IsCounted (failure_count self.old) (failure_count self.new)) };

    /// How many calls failed. The count stays at its greatest value.
    fn failures(&self) -> u64
        ensures { result ≡ failure_count self.now };
}
