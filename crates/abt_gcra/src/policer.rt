//! A policer that follows the rate that is held.
ghost use Rattle.std.specs.Prelude.{◌≡◌, ◌<◌, ◌≤◌, ◌↔◌, List, [], IfOk, OnErr, IsErrOf, IsSome, IfSome};
ghost use Rattle.abt_rate.specs.Limits.{arrive_max, tau_max};
ghost use Rattle.abt_rate.specs.Rate.{spacing_of};
ghost use Rattle.abt_gcra.specs.Policing.{IsKept, fresh_policing, policed};
ghost use Rattle.abt_gcra.specs.Standing.{StandsFor};
ghost use Rattle.abt_gcra.specs.Windows.{Arrival, arrival, IsVerdictAt, taken_after};

use crate::fault::GcraFault;
use crate::gcra::Gcra;
use crate::verdict::Verdict;
use abt_rate::Rate;
use std::marker::Model;

/// A policer of one connection: the generic cell rate algorithm, with the spacing of the rate that is
/// held when a cell arrives (I.371; docs/RULES.md, "GCRA").
///
/// Times are picoseconds.
#[derive(Clone, Copy, Debug, PartialEq, Eq)]
pub struct Policer {
    gcra: Gcra,
}

impl Model for Policer {
    ghost use Rattle.abt_gcra.specs.Policing.{Policing, policing_code};

    ghost Value = { Policing };

    ghost coded = { policing_code };

    ghost view = { λ p. p.gcra };

    ghost inverse = { λ g. record { gcra = g } };
}

impl Policer {
    /// A policer of a tolerance that has met no cell.
    pub fn new(tau: u64) -> Policer
        requires { tau ≤ tau_max }
        ensures value { result ≡ fresh_policing tau }
        ensures windows { StandsFor result [] }
    {
        Policer {
            gcra: Gcra::new(tau),
        }
    }

    /// The policer that keeps these, as [`Policer::tau`], [`Policer::tat`] and [`Policer::clock`] gave them, or `None` if
    /// the tolerance is above its limit, or the theoretical arrival time is one that no cell leaves.
    pub fn of_parts(tau: u64, tat: Option<u64>, clock: u64) -> Option<Policer>
        ensures some { IsSome result ↔ IsKept (record { tau = tau; tat = tat; clock = clock }) }
        ensures value { IfSome result (λ policer. policer ≡ record { tau = tau; tat = tat; clock = clock }) }
    {
        match Gcra::of_parts(tau, tat, clock) {
            Some(gcra) => Some(Policer { gcra }),
            None => None,
        }
    }

    /// The verdict on a cell that arrives at a moment, where a rate is held for its connection. It is
    /// [`Verdict::NoRate`](crate::Verdict::NoRate) if that rate is zero.
    ///
    /// # Errors
    /// [`GcraFault::ClockBack`] if the arrival is below that of the last cell that was given a verdict, and else
    /// [`GcraFault::TimeRange`] above [`ARRIVE_MAX`](crate::ARRIVE_MAX). Nothing has changed then.
    #[tactic(auto, using(crate::proofs::PolicingLemmas::policed_windows), unfolding(crate::specs::Policing::policed))]
    pub fn arrive(&mut self, at: u64, held: Rate) -> Result<Verdict, GcraFault>
        ensures clock_back { IsErrOf result GcraFault.ClockBack ↔ (at < self.old.clock) }
        ensures time_range { IsErrOf result GcraFault.TimeRange ↔
            ((self.old.clock ≤ at) × (arrive_max < at)) }
        ensures ok { IfOk result (λ verdict. (verdict, self.new) ≡ policed self.old at held) }
        ensures windows { (taken : List Arrival) → StandsFor self.old taken →
            IfOk result (λ verdict. IsVerdictAt self.old.tau taken at held verdict ×
            StandsFor self.new (taken_after taken (arrival at (spacing_of held)) verdict)) }
        ensures same { OnErr result (self.new ≡ self.old) }
    {
        let Some(spacing) = held.spacing() else {
            self.gcra.advance(at)?;
            return Ok(Verdict::NoRate);
        };
        self.gcra.check(at, spacing)
    }

    /// The tolerance, in picoseconds.
    pub fn tau(&self) -> u64
        ensures { result ≡ self.now.tau }
    {
        self.gcra.tau()
    }

    /// The theoretical arrival time, in picoseconds, which is absent until a cell was taken.
    pub fn tat(&self) -> Option<u64>
        ensures value { result ≡ self.now.tat }
        ensures kept { IsKept self.now }
    {
        self.gcra.tat()
    }

    /// The arrival of the last cell that was given a verdict, in picoseconds, and 0 at first.
    pub fn clock(&self) -> u64
        ensures { result ≡ self.now.clock }
    {
        self.gcra.clock()
    }
}
