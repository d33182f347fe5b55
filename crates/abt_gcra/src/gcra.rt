//! The generic cell rate algorithm by virtual scheduling.
ghost use Rattle.std.specs.Prelude.{◌≡◌, ◌<◌, ◌≤◌, ◌↔◌, List, [], IfOk, OnErr, IsErrOf, IsSome, IfSome};
ghost use Rattle.abt_rate.specs.Limits.{arrive_max, spacing_max, tau_max};
ghost use Rattle.abt_gcra.specs.Policing.{IsKept, fresh_policing, checked};
ghost use Rattle.abt_gcra.specs.Standing.{StandsFor};
ghost use Rattle.abt_gcra.specs.Windows.{Arrival, arrival, IsVerdict, taken_after};

use crate::fault::{GcraFault, may_arrive};
use crate::limits::TAT_MAX;
use crate::verdict::Verdict;
use abt_rate::TAU_MAX;
use std::marker::Model;

/// The generic cell rate algorithm by virtual scheduling (I.371; docs/RULES.md, "GCRA").
///
/// Times are picoseconds.
#[derive(Clone, Copy, Debug, PartialEq, Eq)]
pub struct Gcra {
    tau: u64,
    tat: Option<u64>,
    clock: u64,
}

impl Model for Gcra {
    ghost use Rattle.std.specs.Prelude.{◌+◌, ◌*◌, ◌^◌, ◌≤◌, IfSome};
    ghost use Rattle.abt_gcra.specs.Policing.{Policing, policing_code};

    ghost Value = { Policing };

    ghost coded = { policing_code };

    ghost view = { λ g. record { tau = g.tau; tat = g.tat; clock = g.clock } };

    ghost invariant = { λ g. (g.tau ≤ 10 ^ 12) × IfSome g.tat (λ t. t ≤ 2 ^ 62 + 2 * 10 ^ 12) };

    ghost inverse = { λ p. record { tau = p.tau; tat = p.tat; clock = p.clock } };
}

impl Gcra {
    /// An algorithm of a tolerance that has met no cell.
    pub fn new(tau: u64) -> Gcra
        requires { tau ≤ tau_max }
        ensures value { result ≡ fresh_policing tau }
        ensures windows { StandsFor result [] }
    {
        Gcra {
            tau,
            tat: None,
            clock: 0,
        }
    }

    /// The algorithm that keeps these, as [`Gcra::tau`], [`Gcra::tat`] and [`Gcra::clock`] gave them, or `None` if the
    /// tolerance is above its limit, or the theoretical arrival time is one that no cell leaves.
    pub fn of_parts(tau: u64, tat: Option<u64>, clock: u64) -> Option<Gcra>
        ensures some { IsSome result ↔ IsKept (record { tau = tau; tat = tat; clock = clock }) }
        ensures value { IfSome result (λ gcra. gcra ≡ record { tau = tau; tat = tat; clock = clock }) }
    {
        if tau > TAU_MAX || tat.is_some_and(|t| t > TAT_MAX) {
            return None;
        }
        Some(Gcra { tau, tat, clock })
    }

    /// The verdict on a cell that arrives at a moment, with the spacing from it to the next one. It is
    /// never [`Verdict::NoRate`].
    ///
    /// # Errors
    /// [`GcraFault::ClockBack`] if the arrival is below that of the last cell that was given a verdict, and else
    /// [`GcraFault::TimeRange`] above [`ARRIVE_MAX`](crate::ARRIVE_MAX). Nothing has changed then.
    pub fn check(&mut self, at: u64, spacing: u64) -> Result<Verdict, GcraFault>
        requires least { 1 ≤ spacing }
        requires greatest { spacing ≤ spacing_max }
        ensures clock_back { IsErrOf result GcraFault.ClockBack ↔ (at < self.old.clock) }
        ensures time_range { IsErrOf result GcraFault.TimeRange ↔
            ((self.old.clock ≤ at) × (arrive_max < at)) }
        ensures ok { IfOk result (λ verdict. (verdict, self.new) ≡ checked self.old at spacing) }
        ensures windows { (taken : List Arrival) → StandsFor self.old taken →
            IfOk result (λ verdict. IsVerdict self.old.tau taken (arrival at spacing) verdict ×
            StandsFor self.new (taken_after taken (arrival at spacing) verdict)) }
        ensures same { OnErr result (self.new ≡ self.old) }
    {
        may_arrive(self.clock, at)?;
        Ok(self.take(at, spacing))
    }

    // Takes a cell that may arrive, unless it comes too early.
    #[tactic(auto, unfolding(crate::specs::Policing::checked))]
    fn take(&mut self, at: u64, spacing: u64) -> Verdict
        requires arrival { at ≤ arrive_max }
        requires greatest { spacing ≤ spacing_max }
        ensures { (result, self.new) ≡ checked self.old at spacing }
    {
        self.clock = at;
        if let Some(due) = self.tat {
            if due > at + self.tau {
                return Verdict::TooEarly;
            }
            if due > at {
                self.tat = Some(due + spacing);
                return Verdict::Conforming;
            }
        }
        self.tat = Some(at + spacing);
        Verdict::Conforming
    }

    /// Moves the clock alone, as for a cell that isn't policed.
    pub(crate) fn advance(&mut self, at: u64) -> Result<(), GcraFault>
        ensures clock_back { IsErrOf result GcraFault.ClockBack ↔ (at < self.old.clock) }
        ensures time_range { IsErrOf result GcraFault.TimeRange ↔
            ((self.old.clock ≤ at) × (arrive_max < at)) }
        ensures ok { IfOk result (λ _. self.new ≡ record self.old { clock = at }) }
        ensures same { OnErr result (self.new ≡ self.old) }
    {
        may_arrive(self.clock, at)?;
        self.clock = at;
        Ok(())
    }

    /// The tolerance, in picoseconds.
    pub fn tau(&self) -> u64
        ensures { result ≡ self.now.tau }
    {
        self.tau
    }

    /// The theoretical arrival time, in picoseconds, which is absent until a cell was taken.
    pub fn tat(&self) -> Option<u64>
        ensures value { result ≡ self.now.tat }
        ensures kept { IsKept self.now }
    {
        self.tat
    }

    /// The arrival of the last cell that was given a verdict, in picoseconds, and 0 at first.
    pub fn clock(&self) -> u64
        ensures { result ≡ self.now.clock }
    {
        self.clock
    }
}
