//! Cells, policed one by one and as a list.
ghost use Rattle.std.specs.Prelude.{◌≡◌, ◌≢◌, ◌+◌, ◌≤◌, ◌↔◌, All, IfOk, IsTrue, reverse};
ghost use Rattle.abt_gcra.specs.Refusal.{arrivals_in};
ghost use Rattle.abt_gcra.specs.Windows.{Conforms};
ghost use Rattle.abt_rate.specs.Limits.{spacing_max, tau_max};
ghost use Rattle.abt_rate.specs.Rate.{spacing_of};

use abt_gcra::{GcraFault, PoliceFault, Policer, Verdict, conforming_cells_are_taken, police};
use abt_rate::Rate;
use std::alloc::Global;

/// Whether a second cell conforms that arrives then behind a first one, where this rate is held for both.
#[tactic(auto, unfolding(abt_gcra::specs::Policing::policed, abt_gcra::specs::Policing::checked))]
pub fn second_conforms(tau: u64, held: Rate, first: u64, second: u64) -> Result<bool, GcraFault>
    requires { tau ≤ tau_max }
    ensures { IfOk result (λ conforms. IsTrue conforms ↔
        ((held ≢ 0) × (first + spacing_of held ≤ second + tau))) }
{
    let mut policer = Policer::new(tau);
    policer.arrive(first, held)?;
    Ok(policer.arrive(second, held)? == Verdict::Conforming)
}

/// Whether all cells of a list are taken, each an arrival and a spacing in picoseconds. Cells that conform are.
pub fn are_all_taken(alloc: Global, tau: u64, cells: &[(u64, u64)]) -> Result<bool, PoliceFault>
    requires tolerance { tau ≤ tau_max }
    requires spacings { All (λ cell. (1 ≤ cell.1) × (cell.1 ≤ spacing_max)) cells.now }
    ensures { Conforms tau (reverse (arrivals_in cells.now)) → IfOk result (λ taken. IsTrue taken) }
{
    conforming_cells_are_taken();
    let verdicts = police(alloc, tau, cells)?;
    Ok(are_all_conforming(&verdicts))
}

// Whether all verdicts are that a cell conforms.
fn are_all_conforming(verdicts: &[Verdict]) -> bool
    ensures { IsTrue result ↔ All (λ verdict. verdict ≡ Verdict.Conforming) verdicts.now }
{
    verdicts
        .iter()
        .all(|verdict| *verdict == Verdict::Conforming)
}
