//! A source starts.
ghost use Rattle.std.specs.Prelude.{◌≡◌, List, ◌∷◌, Result, IfOk, IfErr};
ghost use Rattle.abt_facts.specs.Source as state;
ghost use Rattle.abt_facts.specs.declared.fact.Fact.{Fact};
ghost use Rattle.abt_facts.specs.declared.fact.Fact.TheVariants.{Started};
ghost use Rattle.abt_keep.specs.Record.{KeptRecord, IsSpacing};
ghost use Rattle.abt_keep.specs.Store.{IsCounted};
ghost use Rattle.abt_keep.specs.declared.fault.StoreFault.{StoreFault};

use crate::fault::StartFault;
use crate::source::Source;
use crate::state::{Down, Idle};
use abt_keep::SeqStore;
use abt_rate::Rate;
use abt_shaper::{EMIT_MAX, Shaper};

/// The longest hold-off, in picoseconds: the greatest spacing that a store keeps.
pub const HOLD_OFF_MAX: u64 = 1000000000000;

/// The greatest moment of a start, so that the longest hold-off ends at a moment at which a cell may leave.
pub const START_MAX: u64 = EMIT_MAX - HOLD_OFF_MAX;

/// A start that was refused: the source as it was, and why.
#[must_use]
#[derive(Debug, Drop)]
pub struct StartRefused {
    /// The source as it was.
    pub source: Source<Down>,
    /// Why it didn't start.
    pub fault: StartFault,
}

impl Source<Down> {
    ghost use Rattle.abt_source.specs.Calls.{result_of_start};
    ghost use Rattle.abt_source.specs.SourceFacts.{StandsFor};

    /// Starts at the moment `now`. The source continues from the record that the store gives: from its number, at rate zero,
    /// and no cell leaves during the hold-off, which is its spacing.
    ///
    /// # Errors
    /// [`StartFault::Keep`] if the store, which is read first, doesn't give its record, and [`StartFault::TimeRange`]
    /// above [`START_MAX`].
    pub fn start<K: SeqStore>(self, store: &mut K, now: u64) -> Result<Source<Idle>, StartRefused>
        ensures gives { (answer : Result KeptRecord StoreFault)
            × K.kept_gives store.old answer store.new × (result ≡ result_of_start self now answer) }
        ensures ok { IfOk result (λ source. source.kept ≡ K.content store.old) }
        ensures hold_off { IfOk result (λ source. IsSpacing source.gap) }
        ensures same { K.content store.new ≡ K.content store.old }
        ensures keep { IfErr result (λ refused. refused.fault ≡ StartFault.Keep →
            IsCounted (K.failure_count store.old) (K.failure_count store.new)) }
        ensures facts { (facts : List Fact) → StandsFor facts state.Down self → IfOk result (λ source.
            StandsFor (Started now source.kept ∷ facts) state.Idle source) }
    {
        let Ok(kept) = store.kept() else {
            return Err(StartRefused {
                source: self,
                fault: StartFault::Keep,
            });
        };
        if now > START_MAX {
            return Err(StartRefused {
                source: self,
                fault: StartFault::TimeRange,
            });
        }
        Ok(Source {
            vc: self.vc,
            rate: Rate::ZERO,
            last: kept.number(),
            kept,
            gap: kept.spacing(),
            shaper: Shaper::new(now + kept.spacing()),
            state: Idle,
        })
    }
}
