//! The spacing that an ask has to have kept.
ghost use Rattle.std.specs.Prelude.{◌≡◌, ◌≤◌, None, Some, if◌then◌else◌};
ghost use Rattle.abt_rate.specs.Limits.{spacing_max};
ghost use Rattle.abt_facts.specs.Keeping.{counted};
ghost use Rattle.abt_keep.specs.Record.{IsSpacing};
ghost use Rattle.abt_source.specs.Calls.{need_for, has_to_write, record_to_write};

use crate::source::Source;
use crate::state::Up;
use abt_keep::Record;
use abt_rate::Rate;

/// How many numbers one write keeps: that of the ask, and 63 after it.
const STRIDE: u32 = 64;

impl<S: Up> Source<S> {
    /// The record that an ask for a rate has to write before its request goes out, or `None` if its number and its need
    /// are kept (docs/RULES.md, "Source").
    pub fn record_to_write(&self, rate: Rate) -> Option<Record>
        ensures { result ≡
            (if has_to_write self.now rate then Some (record_to_write self.now rate) else None) }
    {
        let need = self.need(rate);
        if self.last < self.kept.number() && need <= self.kept.spacing() {
            return None;
        }
        Record::new(self.last.saturating_add(STRIDE), need)
    }

    // The need of an ask for a rate, in picoseconds: no gap that may be running at a crash is longer.
    fn need(&self, rate: Rate) -> u64
        ensures value { result ≡ need_for self.now rate }
        ensures range { IsSpacing result }
    {
        self.gap
            .max(counted(self.rate))
            .max(counted(self.state.open_ask()))
            .max(counted(rate))
    }
}

// The spacing that a rate counts for, in picoseconds: zero isn't counted.
fn counted(rate: Rate) -> u64
    ensures value { result ≡ counted rate }
    ensures bound { result ≤ spacing_max }
{
    rate.spacing().unwrap_or(0)
}
