//! A burst of cells at a policer, for C.
ghost use Rattle.std.specs.Prelude.{◌≡◌, ◌≢◌, ◌<◌, ◌≤◌, ◌↔◌, ◌⊎◌, length, slice_index};
ghost use Rattle.abt_rate.specs.Limits.{arrive_max};
ghost use Rattle.abt_rate.specs.Rate.{units_of};
ghost use Rattle.abt_gcra.specs.Policing.{IsKept};
ghost use Rattle.abt_c.specs.Outcome.{done, no_state, wrong_length, clock_back, time_range};
ghost use Rattle.abt_c.specs.States.{policing_of, policer_kind, IsPolicing};
ghost use Rattle.abt_c.specs.Bursts.{AreJudged, IsOnward};

use crate::outcome::{self, CLOCK_BACK, DONE, NO_STATE, TIME_RANGE, WRONG_LENGTH};
use crate::spacing::spacing_of_code;
use crate::state::{AbtPolicing, POLICER_KIND};
use abt_gcra::ARRIVE_MAX;

/// The verdicts on cells that arrive at these moments, if a rate of this code is held for their connection, and how many got one: all
/// up to the first for which a single call is refused.
#[unsafe(no_mangle)]
pub extern "C" fn abt_raw_policer_arrive_burst(
    state: &mut AbtPolicing,
    held: u16,
    at: &[u64],
    verdicts: &mut [u8],
    judged: &mut usize,
) -> u32
    ensures no_state { (result ≡ no_state) ↔ (¬ IsPolicing policer_kind state.old) }
    ensures wrong_length { (result ≡ wrong_length) ↔
        (IsPolicing policer_kind state.old × (length at.now ≢ length verdicts.old)) }
    ensures clock_back { (result ≡ clock_back) ↔
        (IsPolicing policer_kind state.old × (length at.now ≡ length verdicts.old) ×
        (judged.new < length at.now) × (slice_index at.now judged.new < state.new.clock)) }
    ensures time_range { (result ≡ time_range) ↔
        (IsPolicing policer_kind state.old × (length at.now ≡ length verdicts.old) ×
        (judged.new < length at.now) × (state.new.clock ≤ slice_index at.now judged.new) ×
        (arrive_max < slice_index at.now judged.new)) }
    ensures done { (result ≡ done) ↔
        (IsPolicing policer_kind state.old × (length at.now ≡ length verdicts.old) ×
        (judged.new ≡ length at.now)) }
    ensures value { result ≢ no_state → result ≢ wrong_length →
        AreJudged (policing_of state.old) (policing_of state.new) (units_of held) at.now
        verdicts.old verdicts.new judged.new }
    ensures state { result ≢ no_state → IsPolicing policer_kind state.new }
    ensures same { (result ≡ no_state) ⊎ (result ≡ wrong_length) →
        (state.new ≡ state.old) × (verdicts.new ≡ verdicts.old) × (judged.new ≡ 0) }
{
    *judged = 0;
    if !state.is(POLICER_KIND) {
        return NO_STATE;
    }
    if at.len() != verdicts.len() {
        return WRONG_LENGTH;
    }
    let count = state.police_all(held, at, verdicts);
    *judged = count;
    if count == at.len() {
        return DONE;
    }
    if at[count] < state.clock {
        return CLOCK_BACK;
    }
    TIME_RANGE
}

impl AbtPolicing {
    // Gives cells their verdicts, up to the first whose moment is before the last one or out of range, and tells how many got one.
    fn police_all(&mut self, held: u16, at: &[u64], verdicts: &mut [u8]) -> usize
        requires kept { IsKept (policing_of self.old) }
        requires lengths { length at.now ≡ length verdicts.old }
        ensures value { AreJudged (policing_of self.old) (policing_of self.new) (units_of held) at.now
            verdicts.old verdicts.new result }
        ensures stop { result < length at.now →
            ¬ IsOnward (policing_of self.new) (slice_index at.now result) }
        ensures state { IsPolicing self.old.kind self.new }
    {
        let spacing = spacing_of_code(held);
        let mut policer = *self;
        for (i, moment) in at.iter().enumerate() {
            if *moment < policer.clock || *moment > ARRIVE_MAX {
                *self = policer;
                return i;
            }
            let verdict = policer.police_by(*moment, spacing);
            verdicts[i] = outcome::of_verdict(verdict) as u8;
        }
        *self = policer;
        at.len()
    }
}
