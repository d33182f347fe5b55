//! A source that starts, emits and crashes, for C.
ghost use Rattle.std.specs.Prelude.{◌≡◌, ◌≢◌, ◌<◌, ◌≤◌, ◌^◌, ◌↔◌, MatchResult, IsOk, IsErrOf};
ghost use Rattle.abt_rate.specs.Limits.{start_max};
ghost use Rattle.abt_rate.specs.Rate.{units_of, IsCanonical};
ghost use Rattle.abt_keep.specs.Record.{record_in};
ghost use Rattle.abt_keep.specs.declared.fault.RecordFault.TheVariants.{Length, Spacing};
ghost use Rattle.abt_source.specs.Calls.{new_source, started_source, crashed_source, result_of_emission};
ghost use Rattle.abt_c.specs.Outcome.{done, no_state, wrong_length, record_spacing, vpi_range, time_range, running, down, writing};
ghost use Rattle.abt_c.specs.Sources.{IsSource, IsReady, emission_number, emitted_source, later_of, source_in, down_phase, idle_phase};

use crate::outcome::{
    CLOCK_BACK, DONE, DOWN, NO_STATE, RECORD_SPACING, RUNNING, TIME_RANGE, TOO_SOON, VPI_RANGE,
    WRITING, WRONG_LENGTH, ZERO_RATE,
};
use crate::source_state::AbtSource;
use abt_cell::Vc;
use abt_keep::{MemoryStore, Record, RecordFault};
use abt_shaper::ShapeFault;
use abt_source::{AnySource, START_MAX, Source};

/// Makes a state that of the source of a connection to which nothing has happened, whatever it was before.
#[unsafe(no_mangle)]
pub extern "C" fn abt_raw_source_init(state: &mut AbtSource, vpi: u16, vci: u16) -> u32
    ensures done { (result ≡ done) ↔ (vpi < 2 ^ 12) }
    ensures vpi_range { (result ≡ vpi_range) ↔ (2 ^ 12 ≤ vpi) }
    ensures state { result ≡ done → IsSource state.new ×
        (state.new.phase ≡ down_phase) × (state.new.is_writing ≡ 0) }
    ensures value { result ≡ done → source_in state.new ≡ new_source (record { vpi = vpi; vci = vci }) }
    ensures same { result ≢ done → state.new ≡ state.old }
{
    let Some(vc) = Vc::new(vpi, vci) else {
        return VPI_RANGE;
    };
    state.set(AnySource::Down(Source::new(vc)));
    DONE
}

/// Starts at a moment, from the record that the program read from its store.
#[unsafe(no_mangle)]
pub extern "C" fn abt_raw_source_start(state: &mut AbtSource, octets: &[u8], now: u64) -> u32
    ensures no_state { (result ≡ no_state) ↔ (¬ IsSource state.old) }
    ensures running { (result ≡ running) ↔ (IsSource state.old × (state.old.phase ≢ down_phase)) }
    ensures wrong_length { (result ≡ wrong_length) ↔
        (IsSource state.old × (state.old.phase ≡ down_phase) × IsErrOf (record_in octets.now) Length) }
    ensures record_spacing { (result ≡ record_spacing) ↔
        (IsSource state.old × (state.old.phase ≡ down_phase) × IsErrOf (record_in octets.now) Spacing) }
    ensures time_range { (result ≡ time_range) ↔
        (IsSource state.old × (state.old.phase ≡ down_phase) × IsOk (record_in octets.now) ×
        (start_max < now)) }
    ensures done { (result ≡ done) ↔
        (IsSource state.old × (state.old.phase ≡ down_phase) × IsOk (record_in octets.now) ×
        (now ≤ start_max)) }
    ensures state { result ≡ done → IsSource state.new ×
        (state.new.phase ≡ idle_phase) × (state.new.is_writing ≡ 0) }
    ensures value { result ≡ done → MatchResult (record_in octets.now)
        (λ kept. source_in state.new ≡ started_source (source_in state.old) kept now) (λ _. ⊥) }
    ensures same { result ≢ done → state.new ≡ state.old }
{
    let source = match state.any() {
        None => return NO_STATE,
        Some(AnySource::Idle(_) | AnySource::Asking(_)) => return RUNNING,
        Some(AnySource::Down(source)) => source,
    };
    let kept = match Record::from_octets(octets) {
        Ok(kept) => kept,
        Err(RecordFault::Length) => return WRONG_LENGTH,
        Err(RecordFault::Spacing) => return RECORD_SPACING,
    };
    if now > START_MAX {
        return TIME_RANGE;
    }
    let Ok(source) = source.start(&mut MemoryStore::with(kept), now) else {
        unreachable!()
    };
    state.set(AnySource::Idle(source));
    DONE
}

/// Emits a cell at a moment, at the present rate, and gives the earliest moment of the next one, also if it is too soon.
#[unsafe(no_mangle)]
pub extern "C" fn abt_raw_source_emit(state: &mut AbtSource, now: u64, next: &mut u64) -> u32
    ensures no_state { (result ≡ no_state) ↔ (¬ IsSource state.old) }
    ensures down { (result ≡ down) ↔ (IsSource state.old × (state.old.phase ≡ down_phase)) }
    ensures writing { (result ≡ writing) ↔
        (IsSource state.old × (state.old.phase ≢ down_phase) × (state.old.is_writing ≢ 0)) }
    ensures value { IsReady state.old →
        (result ≡ emission_number (result_of_emission (source_in state.old) now)) }
    ensures gives { IsReady state.old → MatchResult (result_of_emission (source_in state.old) now)
        (λ moment. (next.new ≡ moment) × IsSource state.new × (state.new.phase ≡ state.old.phase) ×
        (state.new.is_writing ≡ 0)
        × (source_in state.new ≡ emitted_source (source_in state.old) now moment))
        (λ fault. (next.new ≡ later_of fault next.old) × (state.new ≡ state.old)) }
    ensures same { (¬ IsReady state.old) → (state.new ≡ state.old) × (next.new ≡ next.old) }
{
    match state.any() {
        None => NO_STATE,
        Some(AnySource::Down(_)) => DOWN,
        Some(_) if state.is_writing != 0 => WRITING,
        Some(AnySource::Idle(mut source)) => {
            let answer = source.emit(now);
            if answer.is_ok() {
                state.set(AnySource::Idle(source));
            }
            emission(answer, next)
        }
        Some(AnySource::Asking(mut source)) => {
            let answer = source.emit(now);
            if answer.is_ok() {
                state.set(AnySource::Asking(source));
            }
            emission(answer, next)
        }
    }
}

// What C gets for the answer of a shaper.
fn emission(answer: Result<u64, ShapeFault>, next: &mut u64) -> u32
    ensures value { result ≡ emission_number answer }
    ensures next { MatchResult answer (λ moment. next.new ≡ moment)
        (λ fault. next.new ≡ later_of fault next.old) }
{
    match answer {
        Ok(moment) => {
            *next = moment;
            DONE
        }
        Err(ShapeFault::ClockBack) => CLOCK_BACK,
        Err(ShapeFault::TimeRange) => TIME_RANGE,
        Err(ShapeFault::Zero) => ZERO_RATE,
        Err(ShapeFault::TooSoon { next: moment }) => {
            *next = moment;
            TOO_SOON
        }
    }
}

/// Loses the rate and the newest request, and a write that was to be made.
#[unsafe(no_mangle)]
pub extern "C" fn abt_raw_source_crash(state: &mut AbtSource) -> u32
    ensures no_state { (result ≡ no_state) ↔ (¬ IsSource state.old) }
    ensures down { (result ≡ down) ↔ (IsSource state.old × (state.old.phase ≡ down_phase)) }
    ensures done { (result ≡ done) ↔ (IsSource state.old × (state.old.phase ≢ down_phase)) }
    ensures state { result ≡ done → IsSource state.new ×
        (state.new.phase ≡ down_phase) × (state.new.is_writing ≡ 0) }
    ensures value { result ≡ done → source_in state.new ≡ crashed_source (source_in state.old) }
    ensures same { result ≢ done → state.new ≡ state.old }
{
    let source = match state.any() {
        None => return NO_STATE,
        Some(AnySource::Down(_)) => return DOWN,
        Some(AnySource::Idle(source)) => source.crash(),
        Some(AnySource::Asking(source)) => source.crash(),
    };
    state.set(AnySource::Down(source));
    DONE
}

/// The canonical code of the rate at which the source shapes.
#[unsafe(no_mangle)]
pub extern "C" fn abt_raw_source_rate(state: &AbtSource, rate: &mut u16) -> u32
    ensures no_state { (result ≡ no_state) ↔ (¬ IsSource state.now) }
    ensures done { (result ≡ done) ↔ IsSource state.now }
    ensures value { result ≡ done → IsCanonical rate.new × (units_of rate.new ≡ (source_in state.now).rate) }
    ensures same { result ≢ done → rate.new ≡ rate.old }
{
    let Some(parts) = state.parts() else {
        return NO_STATE;
    };
    *rate = parts.rate().code();
    DONE
}
