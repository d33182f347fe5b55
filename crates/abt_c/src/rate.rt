//! Rates and their codes, for C.
ghost use Rattle.std.specs.Prelude.{◌≡◌, ◌<◌, ◌≤◌, ◌↔◌, ◌==◌, ℕ, if◌then◌else◌};
ghost use Rattle.abt_rate.specs.Extremes.{IsLeast, IsGreatest};
ghost use Rattle.abt_rate.specs.Rate.{units_of, greatest_units, IsCanonical, IsRate, KeepsRate, spacing_of};
ghost use Rattle.abt_c.specs.Outcome.{done, units_range};

use crate::outcome::{DONE, UNITS_RANGE};
use abt_rate::Rate;

/// The rate of a code, in units of 1/512 cell per second.
#[unsafe(no_mangle)]
pub extern "C" fn abt_rate_units(code: u16) -> u64
    ensures { result ≡ units_of code }
{
    Rate::from_code(code).units()
}

/// The canonical code of the rate of a code.
#[unsafe(no_mangle)]
pub extern "C" fn abt_rate_canonical(code: u16) -> u16
    ensures canonical { IsCanonical result }
    ensures units { units_of result ≡ units_of code }
    ensures only { (other : ℕ) → IsCanonical other → units_of other ≡ units_of code → other ≡ result }
{
    Rate::from_code(code).code()
}

/// The least whole number of picoseconds between two cells that keeps the rate of a code, and 0 for the rate zero, which
/// no spacing keeps.
#[unsafe(no_mangle)]
pub extern "C" fn abt_rate_spacing(code: u16) -> u64
    ensures value { result ≡ (if units_of code == 0 then 0 else spacing_of (units_of code)) }
    ensures least { 0 < units_of code → IsLeast (KeepsRate (units_of code)) result }
{
    match Rate::from_code(code).spacing() {
        Some(spacing) => spacing,
        None => 0,
    }
}

/// The canonical code of the greatest rate that isn't above a number of units.
#[unsafe(no_mangle)]
pub extern "C" fn abt_rate_at_most(units: u64) -> u16
    ensures canonical { IsCanonical result }
    ensures greatest { IsGreatest (λ n. IsRate n × (n ≤ units)) (units_of result) }
{
    Rate::at_most(units).code()
}

/// The canonical code of the least rate that isn't below a number of units.
#[unsafe(no_mangle)]
pub extern "C" fn abt_raw_rate_at_least(units: u64, code: &mut u16) -> u32
    ensures done { (result ≡ done) ↔ (units ≤ greatest_units) }
    ensures units_range { (result ≡ units_range) ↔ (greatest_units < units) }
    ensures canonical { result ≡ done → IsCanonical code.new }
    ensures least { result ≡ done → IsLeast (λ n. IsRate n × (units ≤ n)) (units_of code.new) }
    ensures same { result ≡ units_range → code.new ≡ code.old }
{
    let Some(rate) = Rate::at_least(units) else {
        return UNITS_RANGE;
    };
    *code = rate.code();
    DONE
}
