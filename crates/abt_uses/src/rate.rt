//! A rate code for a rate in cells per second, with the spacing of its cells.
ghost use Rattle.std.specs.Prelude.{ℕ, ◌*◌, ◌<◌, ◌≤◌, ◌↔◌, IsNone, IfSome};
ghost use Rattle.abt_rate.specs.Rate.{units_of, greatest_units, IsRate, KeepsRate};

use abt_rate::Rate;

/// The least rate code that says at least so many cells per second, with the least number of picoseconds between two cells that keeps its
/// rate; `None` if no code says so much, and for no cells at all.
pub fn code_and_gap(cells: u32) -> Option<(u16, u64)>
    ensures enough { IfSome result (λ r. 512 * cells ≤ units_of r.0) }
    ensures least { IfSome result (λ r. (rate : ℕ) → IsRate rate → 512 * cells ≤ rate → units_of r.0 ≤ rate) }
    ensures gap { IfSome result (λ r. KeepsRate (units_of r.0) r.1) }
{
    let rate = Rate::at_least(512 * u64::from(cells))?;
    let gap = rate.spacing()?;
    Some((rate.code(), gap))
}
