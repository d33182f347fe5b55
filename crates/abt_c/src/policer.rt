//! The policer, for C.
ghost use Rattle.std.specs.Prelude.{◌≡◌, ◌≢◌, ◌<◌, ◌≤◌, ◌↔◌, List, []};
ghost use Rattle.abt_rate.specs.Limits.{arrive_max, tau_max};
ghost use Rattle.abt_rate.specs.Rate.{units_of, spacing_of};
ghost use Rattle.abt_gcra.specs.Policing.{fresh_policing, policed};
ghost use Rattle.abt_gcra.specs.Standing.{StandsFor};
ghost use Rattle.abt_gcra.specs.Windows.{Arrival, arrival, IsVerdictAt, taken_after};
ghost use Rattle.abt_gcra.specs.declared.verdict.Verdict.{Verdict};
ghost use Rattle.abt_c.specs.Outcome.{done, verdict_number, first_fault, no_state, tau_range, clock_back, time_range};
ghost use Rattle.abt_c.specs.States.{policing_of, policer_kind, IsPolicing};

use crate::outcome::{self, CLOCK_BACK, DONE, NO_STATE, TAU_RANGE, TIME_RANGE};
use crate::state::{AbtPolicing, POLICER_KIND};
use abt_gcra::{ARRIVE_MAX, Policer};
use abt_rate::TAU_MAX;

/// Makes a state that of a policer of a tolerance that has met no cell, whatever it was before.
#[unsafe(no_mangle)]
pub extern "C" fn abt_raw_policer_init(state: &mut AbtPolicing, tau: u64) -> u32
    ensures done { (result ≡ done) ↔ (tau ≤ tau_max) }
    ensures tau_range { (result ≡ tau_range) ↔ (tau_max < tau) }
    ensures value { tau ≤ tau_max → IsPolicing policer_kind state.new ×
        (policing_of state.new ≡ fresh_policing tau) }
    ensures windows { tau ≤ tau_max → StandsFor (policing_of state.new) [] }
    ensures same { tau_max < tau → state.new ≡ state.old }
{
    if tau > TAU_MAX {
        return TAU_RANGE;
    }
    state.begin(POLICER_KIND, Policer::new(tau).tau());
    DONE
}

/// The verdict on a cell that arrives at a moment, if a rate of this code is held for its connection.
#[unsafe(no_mangle)]
pub extern "C" fn abt_raw_policer_arrive(state: &mut AbtPolicing, at: u64, held: u16) -> u32
    ensures no_state { (result ≡ no_state) ↔ (¬ IsPolicing policer_kind state.old) }
    ensures clock_back { (result ≡ clock_back) ↔
        (IsPolicing policer_kind state.old × (at < state.old.clock)) }
    ensures time_range { (result ≡ time_range) ↔
        (IsPolicing policer_kind state.old × (state.old.clock ≤ at) × (arrive_max < at)) }
    ensures ok { (result < first_fault) ↔
        (IsPolicing policer_kind state.old × (state.old.clock ≤ at) × (at ≤ arrive_max)) }
    ensures value { result < first_fault → IsPolicing policer_kind state.new ×
        (let answer = policed (policing_of state.old) at (units_of held) in
        (result ≡ verdict_number answer.0) × (policing_of state.new ≡ answer.1)) }
    ensures windows { (taken : List Arrival) → result < first_fault →
        StandsFor (policing_of state.old) taken →
        (verdict : Verdict) × (result ≡ verdict_number verdict) ×
        IsVerdictAt state.old.tau taken at (units_of held) verdict ×
        StandsFor (policing_of state.new)
        (taken_after taken (arrival at (spacing_of (units_of held))) verdict) }
    ensures same { first_fault ≤ result → state.new ≡ state.old }
{
    if !state.is(POLICER_KIND) {
        return NO_STATE;
    }
    if at < state.clock {
        return CLOCK_BACK;
    }
    if at > ARRIVE_MAX {
        return TIME_RANGE;
    }
    outcome::of_verdict(state.police(at, held))
}
