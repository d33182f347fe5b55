//! The shaper, for C.
ghost use Rattle.std.specs.Prelude.{◌≡◌, ◌≢◌, ◌+◌, ◌<◌, ◌≤◌, ◌↔◌, None, Some};
ghost use Rattle.abt_rate.specs.Limits.{emit_max};
ghost use Rattle.abt_rate.specs.Rate.{units_of, spacing_of};
ghost use Rattle.abt_shaper.specs.Shaping.{IsBehind, IsOnward};
ghost use Rattle.abt_c.specs.Outcome.{done, first_fault, no_state, clock_back, time_range, zero_rate, too_soon};
ghost use Rattle.abt_c.specs.States.{shaping_of, IsShaper};

use crate::outcome::{CLOCK_BACK, DONE, NO_STATE, TIME_RANGE, TOO_SOON, ZERO_RATE};
use crate::state::AbtShaper;
use abt_rate::Rate;
use abt_shaper::{EMIT_MAX, ShapeFault, Shaper};

/// Makes a state that of a shaper that lets no cell leave before a moment, whatever it was before.
#[unsafe(no_mangle)]
pub extern "C" fn abt_raw_shaper_init(state: &mut AbtShaper, not_before: u64) -> u32
    ensures done { (result ≡ done) ↔ (not_before ≤ emit_max) }
    ensures time_range { (result ≡ time_range) ↔ (emit_max < not_before) }
    ensures value { not_before ≤ emit_max → IsShaper state.new ×
        (shaping_of state.new ≡ record { next = not_before; emitted = None }) }
    ensures same { emit_max < not_before → state.new ≡ state.old }
{
    if not_before > EMIT_MAX {
        return TIME_RANGE;
    }
    state.set_shaper(&Shaper::new(not_before));
    DONE
}

/// Lets a cell leave now, at a rate of this code, and gives the earliest moment of the next one, also if it is too soon.
#[unsafe(no_mangle)]
pub extern "C" fn abt_raw_shaper_emit(
    state: &mut AbtShaper,
    now: u64,
    rate: u16,
    next: &mut u64,
) -> u32
    ensures no_state { (result ≡ no_state) ↔ (¬ IsShaper state.old) }
    ensures clock_back { (result ≡ clock_back) ↔ (IsShaper state.old × IsBehind (shaping_of state.old) now) }
    ensures time_range { (result ≡ time_range) ↔
        (IsShaper state.old × IsOnward (shaping_of state.old) now × (emit_max < now)) }
    ensures zero_rate { (result ≡ zero_rate) ↔
        (IsShaper state.old × IsOnward (shaping_of state.old) now × (now ≤ emit_max) × (units_of rate ≡ 0)) }
    ensures too_soon { (result ≡ too_soon) ↔
        (IsShaper state.old × IsOnward (shaping_of state.old) now × (now ≤ emit_max) ×
        (units_of rate ≢ 0) × (now < state.old.next)) }
    ensures done { (result ≡ done) ↔
        (IsShaper state.old × (now ≤ emit_max) × (units_of rate ≢ 0) × (state.old.next ≤ now)) }
    ensures value { result ≡ done → IsShaper state.new × (next.new ≡ now + spacing_of (units_of rate)) ×
        (shaping_of state.new ≡ record { next = next.new; emitted = Some now }) }
    ensures later { result ≡ too_soon → next.new ≡ state.old.next }
    ensures same { first_fault ≤ result → state.new ≡ state.old }
    ensures same_next { result ≢ done → result ≢ too_soon → next.new ≡ next.old }
{
    let Some(mut shaper) = state.shaper() else {
        return NO_STATE;
    };
    match shaper.emit(now, Rate::from_code(rate)) {
        Ok(moment) => {
            state.set_shaper(&shaper);
            *next = moment;
            DONE
        }
        Err(ShapeFault::ClockBack) => CLOCK_BACK,
        Err(ShapeFault::TimeRange) => TIME_RANGE,
        Err(ShapeFault::Zero) => ZERO_RATE,
        Err(ShapeFault::TooSoon { .. }) => {
            *next = shaper.next();
            TOO_SOON
        }
    }
}
