//! The limits of a policer (docs/RULES.md, "Limits").
ghost use Rattle.std.specs.Prelude.{◌≡◌};
ghost use Rattle.abt_rate.specs.Limits.{arrive_max, spacing_max};

use abt_rate::TAU_MAX;

/// The greatest arrival, in picoseconds: 2^62.
pub const ARRIVE_MAX: u64 = 4611686018427387904;

/// The greatest spacing of cells, in picoseconds, which is that of the least rate.
pub const SPACING_MAX: u64 = 1000000000000;

/// The greatest theoretical arrival time, in picoseconds: the greatest arrival, tolerance and spacing added up.
pub(crate) const TAT_MAX: u64 = ARRIVE_MAX + TAU_MAX + SPACING_MAX;

/// The greatest level of a bucket, in picoseconds: the greatest tolerance and spacing added up.
pub(crate) const LEVEL_MAX: u64 = TAU_MAX + SPACING_MAX;

/// The constants are the limits that contracts name.
pub fn limits_are_kept()
    ensures arrival { ARRIVE_MAX ≡ arrive_max }
    ensures spacing { SPACING_MAX ≡ spacing_max }
{}
