//! The generic cell rate algorithm by virtual scheduling, for C.
ghost use Rattle.std.specs.Prelude.{◌≡◌, ◌<◌, ◌≤◌, ◌↔◌, List, []};
ghost use Rattle.abt_rate.specs.Limits.{arrive_max, spacing_max, tau_max};
ghost use Rattle.abt_gcra.specs.Policing.{fresh_policing, checked};
ghost use Rattle.abt_gcra.specs.Standing.{StandsFor};
ghost use Rattle.abt_gcra.specs.Windows.{Arrival, arrival, IsVerdict, taken_after};
ghost use Rattle.abt_gcra.specs.declared.verdict.Verdict.{Verdict};
ghost use Rattle.abt_c.specs.Outcome.{done, verdict_number, first_fault, no_state, tau_range, spacing_range, clock_back, time_range};
ghost use Rattle.abt_c.specs.States.{IsChecked, policing_of, gcra_kind, IsPolicing};

use crate::outcome::{self, CLOCK_BACK, DONE, NO_STATE, SPACING_RANGE, TAU_RANGE, TIME_RANGE};
use crate::state::{AbtPolicing, GCRA_KIND};
use abt_gcra::{ARRIVE_MAX, Gcra, SPACING_MAX};
use abt_rate::TAU_MAX;

/// Makes a state that of an algorithm of a tolerance that has met no cell, whatever it was before.
#[unsafe(no_mangle)]
pub extern "C" fn abt_raw_gcra_init(state: &mut AbtPolicing, tau: u64) -> u32
    ensures done { (result ≡ done) ↔ (tau ≤ tau_max) }
    ensures tau_range { (result ≡ tau_range) ↔ (tau_max < tau) }
    ensures value { tau ≤ tau_max → IsPolicing gcra_kind state.new ×
        (policing_of state.new ≡ fresh_policing tau) }
    ensures windows { tau ≤ tau_max → StandsFor (policing_of state.new) [] }
    ensures same { tau_max < tau → state.new ≡ state.old }
{
    if tau > TAU_MAX {
        return TAU_RANGE;
    }
    state.begin(GCRA_KIND, Gcra::new(tau).tau());
    DONE
}

/// The verdict on a cell that arrives at a moment, with the spacing from it to the next one.
#[unsafe(no_mangle)]
pub extern "C" fn abt_raw_gcra_check(state: &mut AbtPolicing, at: u64, spacing: u64) -> u32
    ensures no_state { (result ≡ no_state) ↔ (¬ IsPolicing gcra_kind state.old) }
    ensures spacing_range { (result ≡ spacing_range) ↔
        (IsPolicing gcra_kind state.old × ¬ IsChecked spacing) }
    ensures clock_back { (result ≡ clock_back) ↔
        (IsPolicing gcra_kind state.old × IsChecked spacing × (at < state.old.clock)) }
    ensures time_range { (result ≡ time_range) ↔
        (IsPolicing gcra_kind state.old × IsChecked spacing × (state.old.clock ≤ at) × (arrive_max < at)) }
    ensures ok { (result < first_fault) ↔
        (IsPolicing gcra_kind state.old × IsChecked spacing × (state.old.clock ≤ at) × (at ≤ arrive_max)) }
    ensures value { result < first_fault → IsPolicing gcra_kind state.new ×
        (let answer = checked (policing_of state.old) at spacing in
        (result ≡ verdict_number answer.0) × (policing_of state.new ≡ answer.1)) }
    ensures windows { (taken : List Arrival) → result < first_fault →
        StandsFor (policing_of state.old) taken →
        (verdict : Verdict) × (result ≡ verdict_number verdict) ×
        IsVerdict state.old.tau taken (arrival at spacing) verdict ×
        StandsFor (policing_of state.new) (taken_after taken (arrival at spacing) verdict) }
    ensures same { first_fault ≤ result → state.new ≡ state.old }
{
    if !state.is(GCRA_KIND) {
        return NO_STATE;
    }
    if spacing == 0 || spacing > SPACING_MAX {
        return SPACING_RANGE;
    }
    if at < state.clock {
        return CLOCK_BACK;
    }
    if at > ARRIVE_MAX {
        return TIME_RANGE;
    }
    outcome::of_verdict(state.check(at, spacing))
}
