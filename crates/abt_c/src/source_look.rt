//! What a source and a shaper keep, for C to read.
ghost use Rattle.std.specs.Prelude.{◌≡◌, ◌≢◌, ℕ, ◌<◌, ◌≤◌, ◌↔◌, IsOk};
ghost use Rattle.abt_rate.specs.Limits.{emit_max};
ghost use Rattle.abt_source.specs.Calls.{result_of_emission};
ghost use Rattle.abt_c.specs.Outcome.{done, no_state, time_range, zero_rate, down, writing};
ghost use Rattle.abt_c.specs.Looks.{phase_told};
ghost use Rattle.abt_c.specs.States.{shaping_of, IsShaper};
ghost use Rattle.abt_c.specs.Sources.{IsSource, IsReady, IsWriting, source_in, down_phase};

use crate::outcome::{DONE, DOWN, NO_STATE, TIME_RANGE, WRITING, ZERO_RATE};
use crate::source_state::{AbtSource, DOWN as DOWN_PHASE};
use crate::state::AbtShaper;
use abt_rate::Rate;
use abt_shaper::EMIT_MAX;

/// The phase of a source that waits for a write (docs/C.md, "What a state says").
const WRITING_PHASE: u32 = 3;

/// The earliest moment at which the next cell may leave.
#[unsafe(no_mangle)]
pub extern "C" fn abt_raw_shaper_next(state: &AbtShaper, next: &mut u64) -> u32
    ensures no_state { (result ≡ no_state) ↔ (¬ IsShaper state.now) }
    ensures done { (result ≡ done) ↔ IsShaper state.now }
    ensures value { result ≡ done → next.new ≡ (shaping_of state.now).next }
    ensures same { result ≢ done → next.new ≡ next.old }
{
    if state.shaper().is_none() {
        return NO_STATE;
    }
    *next = state.next;
    DONE
}

/// Whether a source is down, idle or asking, or waits for a write.
#[unsafe(no_mangle)]
pub extern "C" fn abt_raw_source_phase(state: &AbtSource, phase: &mut u32) -> u32
    ensures no_state { (result ≡ no_state) ↔ (¬ IsSource state.now) }
    ensures done { (result ≡ done) ↔ IsSource state.now }
    ensures value { result ≡ done → phase.new ≡ phase_told state.now }
    ensures same { result ≢ done → phase.new ≡ phase.old }
{
    if state.parts().is_none() {
        return NO_STATE;
    }
    *phase = if state.phase == DOWN_PHASE || state.is_writing == 0 {
        state.phase
    } else {
        WRITING_PHASE
    };
    DONE
}

/// The last number that is used up: the next request has the one above it.
#[unsafe(no_mangle)]
pub extern "C" fn abt_raw_source_last(state: &AbtSource, number: &mut u32) -> u32
    ensures no_state { (result ≡ no_state) ↔ (¬ IsSource state.now) }
    ensures done { (result ≡ done) ↔ IsSource state.now }
    ensures value { result ≡ done → number.new ≡ (source_in state.now).last }
    ensures same { result ≢ done → number.new ≡ number.old }
{
    if state.parts().is_none() {
        return NO_STATE;
    }
    *number = state.last;
    DONE
}

/// The earliest moment at which the source can emit a cell, at its present rate.
#[unsafe(no_mangle)]
pub extern "C" fn abt_raw_source_next(state: &AbtSource, next: &mut u64) -> u32
    ensures no_state { (result ≡ no_state) ↔ (¬ IsSource state.now) }
    ensures down { (result ≡ down) ↔ (IsSource state.now × (state.now.phase ≡ down_phase)) }
    ensures writing { (result ≡ writing) ↔ IsWriting state.now }
    ensures zero_rate { (result ≡ zero_rate) ↔ (IsReady state.now × ((source_in state.now).rate ≡ 0)) }
    ensures time_range { (result ≡ time_range) ↔ (IsReady state.now × ((source_in state.now).rate ≢ 0) ×
        (emit_max < (source_in state.now).next)) }
    ensures done { (result ≡ done) ↔ (IsReady state.now × ((source_in state.now).rate ≢ 0) ×
        ((source_in state.now).next ≤ emit_max)) }
    ensures opens { (now : ℕ) → result ≡ done →
        IsOk (result_of_emission (source_in state.now) now) ↔ ((next.new ≤ now) × (now ≤ emit_max)) }
    ensures same { result ≢ done → next.new ≡ next.old }
{
    if state.parts().is_none() {
        return NO_STATE;
    }
    if state.phase == DOWN_PHASE {
        return DOWN;
    }
    if state.is_writing != 0 {
        return WRITING;
    }
    if Rate::from_code(state.rate) == Rate::ZERO {
        return ZERO_RATE;
    }
    if state.next > EMIT_MAX {
        return TIME_RANGE;
    }
    *next = state.next;
    DONE
}
