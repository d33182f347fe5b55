//! The generic cell rate algorithm as a leaky bucket.
ghost use Rattle.std.specs.Prelude.{◌≡◌, ◌<◌, ◌≤◌, ◌+◌, ◌↔◌, List, [], IfOk, OnErr, IsErrOf, IsSome, IfSome};
ghost use Rattle.abt_rate.specs.Limits.{arrive_max, spacing_max, tau_max};
ghost use Rattle.std.specs.Option.{option_map};
ghost use Rattle.abt_gcra.specs.Policing.{IsLevelAt, fresh_policing, checked};
ghost use Rattle.abt_gcra.specs.Standing.{StandsFor};
ghost use Rattle.abt_gcra.specs.Windows.{Arrival, arrival, IsVerdict, taken_after};

use crate::fault::{GcraFault, may_arrive};
use crate::limits::LEVEL_MAX;
use crate::verdict::Verdict;
use abt_rate::TAU_MAX;
use std::marker::Model;

/// The generic cell rate algorithm as a leaky bucket (I.371; docs/RULES.md, "GCRA"): it gives the
/// verdicts of [`Gcra`](crate::Gcra). A contract sees the last conformance time and the level added
/// up, which is the theoretical arrival time.
///
/// Times are picoseconds, and so is the level of the bucket, which drains by one in each.
#[derive(Debug, Drop)]
pub struct Bucket {
    tau: u64,
    level: u64,
    last_taken: Option<u64>,
    clock: u64,
}

impl Model for Bucket {
    ghost use Rattle.std.specs.Prelude.{◌+◌, ◌*◌, ◌^◌, ◌≤◌, IfSome};
    ghost use Rattle.std.specs.Option.{option_map};
    ghost use Rattle.abt_gcra.specs.Policing.{Policing, policing_code};

    ghost Value = { Policing };

    ghost coded = { policing_code };

    ghost view = { λ b. record {
      tau = b.tau;
      tat = option_map (λ last. last + b.level) b.last_taken;
      clock = b.clock;
    } };

    ghost invariant = { λ b. (b.tau ≤ 10 ^ 12) × (b.level ≤ 2 * 10 ^ 12) ×
        IfSome b.last_taken (λ last. last ≤ b.clock) };
}

impl Bucket {
    /// An empty bucket of a tolerance.
    pub fn new(tau: u64) -> Bucket
        requires { tau ≤ tau_max }
        ensures value { result ≡ fresh_policing tau }
        ensures windows { StandsFor result [] }
    {
        Bucket {
            tau,
            level: 0,
            last_taken: None,
            clock: 0,
        }
    }

    /// The bucket that keeps these, as [`Bucket::tau`], [`Bucket::level`] and [`Bucket::clock`] gave them, or `None` if
    /// the tolerance or the level is above its limit, or a cell was taken after the clock.
    pub fn of_parts(tau: u64, level: Option<(u64, u64)>, clock: u64) -> Option<Bucket>
        ensures some { IsSome result ↔
            ((tau ≤ tau_max) × IfSome level (λ after. IsLevelAt clock after.0 after.1)) }
        ensures value { IfSome result (λ bucket. bucket ≡
            record { tau = tau; tat = option_map (λ after. after.0 + after.1) level; clock = clock }) }
    {
        let (last_taken, level) = match level {
            Some((last, level)) => (Some(last), level),
            None => (None, 0),
        };
        if tau > TAU_MAX || level > LEVEL_MAX || last_taken.is_some_and(|last| last > clock) {
            return None;
        }
        let mut bucket = Bucket::new(tau);
        bucket.level = level;
        bucket.last_taken = last_taken;
        bucket.clock = clock;
        Some(bucket)
    }

    /// The tolerance, in picoseconds.
    pub fn tau(&self) -> u64
        ensures value { result ≡ self.now.tau }
        ensures limit { result ≤ tau_max }
    {
        self.tau
    }

    /// The last conformance time, which is the arrival of the last cell that was taken, and the level after it, both in
    /// picoseconds.
    pub fn level(&self) -> Option<(u64, u64)>
        ensures value { option_map (λ after. after.0 + after.1) result ≡ self.now.tat }
        ensures kept { IfSome result (λ after. IsLevelAt self.now.clock after.0 after.1) }
    {
        match self.last_taken {
            Some(last) => Some((last, self.level)),
            None => None,
        }
    }

    /// The arrival of the last cell that was given a verdict, in picoseconds, and 0 at first.
    pub fn clock(&self) -> u64
        ensures { result ≡ self.now.clock }
    {
        self.clock
    }

    /// The verdict on a cell that arrives at a moment, with the spacing from it to the next one. It is
    /// never [`Verdict::NoRate`].
    ///
    /// # Errors
    /// [`GcraFault::ClockBack`] if the arrival is below that of the last cell that was given a verdict, and else
    /// [`GcraFault::TimeRange`] above [`ARRIVE_MAX`](crate::ARRIVE_MAX). Nothing has changed then.
    pub fn check(&mut self, at: u64, spacing: u64) -> Result<Verdict, GcraFault>
        requires least { 1 ≤ spacing }
        requires greatest { spacing ≤ spacing_max }
        ensures clock_back { IsErrOf result GcraFault.ClockBack ↔ (at < self.old.clock) }
        ensures time_range { IsErrOf result GcraFault.TimeRange ↔
            ((self.old.clock ≤ at) × (arrive_max < at)) }
        ensures ok { IfOk result (λ verdict. (verdict, self.new) ≡ checked self.old at spacing) }
        ensures windows { (taken : List Arrival) → StandsFor self.old taken →
            IfOk result (λ verdict. IsVerdict self.old.tau taken (arrival at spacing) verdict ×
            StandsFor self.new (taken_after taken (arrival at spacing) verdict)) }
        ensures same { OnErr result (self.new ≡ self.old) }
    {
        may_arrive(self.clock, at)?;
        Ok(self.take(at, spacing))
    }

    // Takes a cell that may arrive, unless it comes too early.
    #[tactic(auto, unfolding(crate::specs::Policing::checked))]
    fn take(&mut self, at: u64, spacing: u64) -> Verdict
        requires onward { self.old.clock ≤ at }
        requires greatest { spacing ≤ spacing_max }
        ensures { (result, self.new) ≡ checked self.old at spacing }
    {
        let level = match self.last_taken {
            Some(last) => self.level.saturating_sub(at - last),
            None => 0,
        };
        self.clock = at;
        if level > self.tau {
            return Verdict::TooEarly;
        }
        self.level = level + spacing;
        self.last_taken = Some(at);
        Verdict::Conforming
    }
}
