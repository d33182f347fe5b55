//! Rates and their codes.
ghost use Rattle.std.specs.Prelude.{◌≡◌, ℕ, ◌+◌, ◌*◌, ◌^◌, ◌<◌, ◌≤◌, ◌↔◌, IsNone, IfSome};
ghost use Rattle.abt_rate.specs.Code.{HasExponent, code_of};
ghost use Rattle.abt_rate.specs.Extremes.{IsLeast, IsGreatest};
ghost use Rattle.abt_rate.specs.Rate.{units_of, greatest_units, IsCanonical, IsRate, KeepsRate, spacing_of};

use std::marker::Model;

/// The least rate that is not zero, in units: one cell per second.
const LEAST: u64 = 512;

/// The greatest rate, in units: mantissa 511 and exponent 31.
const GREATEST: u64 = 1023 * 0x8000_0000;

/// The units of one cell per picosecond: 512 for each cell per second.
const CELL_PER_PICOSECOND: u64 = 512 * 1_000_000_000_000;

/// A cell rate that a rate code can say: zero, or `(512 + m) * 2^e` units of 1/512 cell per second with a
/// mantissa `m` below 512 and an exponent `e` below 32 (docs/RULES.md, "Rates").
///
/// Rates are ordered by their units, and contracts see a rate as its units.
#[derive(Clone, Copy, Debug, PartialEq, Eq, PartialOrd, Ord, Hash)]
pub struct Rate {
    units: u64,
}

impl Model for Rate {
    ghost Value = { ℕ };

    ghost view = { λ r. r.units };

    ghost invariant = { λ r. IsRate r.units };

    ghost inverse = { λ units. record { units = units } };
}

impl Rate {
    /// No cells at all.
    pub const ZERO: Rate = Rate { units: 0 };

    /// The rate of a code of 16 bits. Every code has one: the reserved bit is ignored, and without the
    /// nonzero bit the rate is zero whatever the other bits say (docs/RULES.md, "Rates").
    pub fn from_code(code: u16) -> Rate
        ensures { result ≡ units_of code }
    {
        if (code >> 14) % 2 == 0 {
            return Rate::ZERO;
        }
        let exponent = (code >> 9) % 32;
        let mantissa = code % 512;
        Rate::of_parts(exponent, mantissa)
    }

    /// The canonical code, the only one that is written: of all the codes of this rate the one with the
    /// reserved bit 0, and 0 for [`Rate::ZERO`] (docs/RULES.md, "Rates").
    pub fn code(self) -> u16
        ensures value { result ≡ code_of self }
        ensures units { units_of result ≡ self }
        ensures canonical { IsCanonical result }
        ensures only { (code : ℕ) → IsCanonical code → units_of code ≡ self → code ≡ result }
    {
        if self.units == 0 {
            return 0;
        }
        let exponent = exponent_at(self.units);
        let mantissa = (self.units >> exponent) - 512;
        nonzero_code(exponent as u16, mantissa as u16)
    }

    /// The rate in units of 1/512 cell per second.
    pub fn units(self) -> u64
        ensures value { result ≡ self }
        ensures rate { IsRate self }
        ensures bound { result ≤ greatest_units }
    {
        self.units
    }

    /// The greatest rate that isn't above a number of units of 1/512 cell per second.
    pub fn at_most(units: u64) -> Rate
        ensures { IsGreatest (λ n. IsRate n × (n ≤ units)) result }
    {
        if units < LEAST {
            return Rate::ZERO;
        }
        Rate::rounded_down(units)
    }

    /// The least rate that isn't below a number of units of 1/512 cell per second, or `None` if the
    /// number is above the greatest rate.
    pub fn at_least(units: u64) -> Option<Rate>
        ensures none { IsNone result ↔ (greatest_units < units) }
        ensures value { IfSome result (IsLeast (λ n. IsRate n × (units ≤ n))) }
    {
        if units > GREATEST {
            return None;
        }
        if units == 0 {
            return Some(Rate::ZERO);
        }
        Some(Rate::rounded_up(units))
    }

    /// The least whole number of picoseconds between two cells that keeps the rate, or `None` for
    /// [`Rate::ZERO`], which no spacing keeps (docs/RULES.md, "Spacing").
    pub fn spacing(self) -> Option<u64>
        ensures none { IsNone result ↔ (self ≡ 0) }
        ensures value { IfSome result (λ t. t ≡ spacing_of self) }
        ensures least { IfSome result (IsLeast (KeepsRate self)) }
        ensures range { IfSome result (λ t. (234 ≤ t) × (t ≤ 10 ^ 12)) }
        // A greater rate has no greater spacing.
        ensures falls { (greater : ℕ) → 0 < self → self ≤ greater → spacing_of greater ≤ spacing_of self }
    {
        if self.units == 0 {
            return None;
        }
        Some(CELL_PER_PICOSECOND.div_ceil(self.units))
    }

    // The nonzero rate of an exponent and a mantissa.
    fn of_parts(exponent: u16, mantissa: u16) -> Rate
        requires exponent { exponent < 32 }
        requires mantissa { mantissa < 512 }
        ensures { result ≡ (512 + mantissa) * 2 ^ exponent }
    {
        Rate {
            units: (512 + mantissa as u64) << exponent,
        }
    }

    // The greatest rate that isn't above a number from the least nonzero rate on.
    fn rounded_down(units: u64) -> Rate
        requires { 512 ≤ units }
        ensures { IsGreatest (λ n. IsRate n × (n ≤ units)) result }
    {
        let units = units.min(GREATEST);
        let exponent = exponent_at(units);
        Rate {
            units: (units >> exponent) << exponent,
        }
    }

    // The least rate that isn't below a number from 1 to the greatest rate.
    fn rounded_up(units: u64) -> Rate
        requires positive { 0 < units }
        requires greatest { units ≤ greatest_units }
        ensures { IsLeast (λ n. IsRate n × (units ≤ n)) result }
    {
        let units = units.max(LEAST);
        let exponent = exponent_at(units);
        Rate {
            units: units.div_ceil(1 << exponent) << exponent,
        }
    }
}

// The exponent of a number that lies between the least nonzero rate and the greatest.
fn exponent_at(units: u64) -> u32
    requires least { 512 ≤ units }
    requires greatest { units ≤ greatest_units }
    ensures { HasExponent units result }
{
    units.ilog2() - 9
}

// The canonical code of an exponent and a mantissa.
fn nonzero_code(exponent: u16, mantissa: u16) -> u16
    requires exponent { exponent < 32 }
    requires mantissa { mantissa < 512 }
    ensures { result ≡ 2 ^ 14 + exponent * 2 ^ 9 + mantissa }
{
    (1 << 14) + (exponent << 9) + mantissa
}
