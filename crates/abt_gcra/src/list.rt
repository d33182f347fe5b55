//! Cells that are policed together.
ghost use Rattle.std.specs.Prelude.{◌≡◌, ◌≢◌, ℕ, ◌≤◌, ◌↔◌, [], All, IfOk, IsErrOf};
ghost use Rattle.abt_rate.specs.Limits.{spacing_max, tau_max};
ghost use Rattle.abt_gcra.specs.Refusal.{arrivals_in, moments_in, IsFirstRefused};
ghost use Rattle.abt_gcra.specs.Windows.{AreVerdicts};

use crate::fault::{GcraFault, PoliceFault};
use crate::gcra::Gcra;
use crate::verdict::Verdict;
use std::alloc::Global;

/// The verdicts on a list of cells, each an arrival and a spacing in picoseconds, by the generic cell
/// rate algorithm within a tolerance (I.371; docs/RULES.md, "GCRA"). Room for them is made first.
pub fn police(alloc: Global, tau: u64, cells: &[(u64, u64)]) -> Result<Vec<Verdict>, PoliceFault>
    requires tolerance { tau ≤ tau_max }
    requires spacings { All (λ cell. (1 ≤ cell.1) × (cell.1 ≤ spacing_max)) cells.now }
    ensures ok { IfOk result (λ vs. AreVerdicts tau [] (arrivals_in cells.now) vs.items) }

    // Memory comes before the others.
    ensures clock_back { result ≢ Err PoliceFault.Memory →
        (index : ℕ) → IsErrOf result (PoliceFault.ClockBack index) ↔
        IsFirstRefused (moments_in cells.now) index GcraFault.ClockBack }
    ensures time_range { result ≢ Err PoliceFault.Memory →
        (index : ℕ) → IsErrOf result (PoliceFault.TimeRange index) ↔
        IsFirstRefused (moments_in cells.now) index GcraFault.TimeRange }
{
    let Ok(mut verdicts) = Vec::with_capacity(alloc, cells.len()) else {
        return Err(PoliceFault::Memory);
    };
    let mut gcra = Gcra::new(tau);
    for (index, cell) in cells.iter().enumerate() {
        let (at, spacing) = *cell;
        match gcra.check(at, spacing) {
            Ok(verdict) => verdicts.push(verdict).unwrap(),
            Err(GcraFault::ClockBack) => return Err(PoliceFault::ClockBack { index }),
            Err(GcraFault::TimeRange) => return Err(PoliceFault::TimeRange { index }),
        }
    }
    Ok(verdicts)
}
