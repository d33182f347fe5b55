//! A shaper.
ghost use Rattle.std.specs.Prelude.{◌≡◌, ◌≢◌, ℕ, ◌+◌, ◌<◌, ◌≤◌, ◌↔◌, IsOk, IsSome, IfSome, IsErrOf, MatchResult};
ghost use Rattle.abt_rate.specs.Limits.{emit_max};
ghost use Rattle.abt_rate.specs.Rate.{spacing_of};
ghost use Rattle.abt_shaper.specs.Shaping.{IsKept, IsBehind, IsOnward};

use crate::fault::ShapeFault;
use crate::limits::EMIT_MAX;
use abt_rate::Rate;
use std::marker::Model;

/// A shaper of one source: after a cell that left at a rate the next one leaves a spacing of that rate
/// later, or later than that (docs/RULES.md, "Shaper"). So a rate that changes counts from the next
/// cell on.
///
/// Moments are picoseconds.
#[derive(Clone, Copy, Debug, PartialEq, Eq)]
pub struct Shaper {
    next: u64,
    emitted: Option<u64>,
}

impl Model for Shaper {
    ghost use Rattle.std.specs.Prelude.{◌≤◌, IfSome};
    ghost use Rattle.abt_shaper.specs.Shaping.{Shaping, shaping_code};

    ghost Value = { Shaping };

    ghost coded = { shaping_code };

    ghost view = { λ s. record { next = s.next; emitted = s.emitted } };

    ghost invariant = { λ s. IfSome s.emitted (λ last. last ≤ s.next) };

    ghost inverse = { λ s. record { next = s.next; emitted = s.emitted } };
}

impl Shaper {
    /// A shaper that lets no cell leave before a moment.
    pub fn new(not_before: u64) -> Shaper
        requires { not_before ≤ emit_max }
        ensures { result ≡ record { next = not_before; emitted = None } }
    {
        Shaper {
            next: not_before,
            emitted: None,
        }
    }

    /// The shaper that keeps these, as [`Shaper::next`] and [`Shaper::emitted`] gave them, or `None` if the last cell left
    /// after the moment from which the next one may.
    pub fn of_parts(next: u64, emitted: Option<u64>) -> Option<Shaper>
        ensures some { IsSome result ↔ IsKept (record { next = next; emitted = emitted }) }
        ensures value { IfSome result (λ shaper. shaper ≡ record { next = next; emitted = emitted }) }
    {
        if emitted.is_some_and(|last| last > next) {
            return None;
        }
        Some(Shaper { next, emitted })
    }

    /// The earliest moment of the next cell, in picoseconds.
    pub fn next(&self) -> u64
        ensures { result ≡ self.now.next }
    {
        self.next
    }

    /// When the last cell left, in picoseconds, which is absent until one did.
    pub fn emitted(&self) -> Option<u64>
        ensures value { result ≡ self.now.emitted }
        ensures kept { IsKept self.now }
    {
        self.emitted
    }

    /// Lets a cell leave now, at a rate, and gives the earliest moment of the next one.
    ///
    /// # Errors
    /// [`ShapeFault::ClockBack`] before the last cell that left, else [`ShapeFault::TimeRange`] above [`EMIT_MAX`], else
    /// [`ShapeFault::Zero`] at rate zero, else [`ShapeFault::TooSoon`], with the earliest moment, before that one. Nothing
    /// has changed then.
    pub fn emit(&mut self, now: u64, rate: Rate) -> Result<u64, ShapeFault>
        ensures clock_back { IsErrOf result ShapeFault.ClockBack ↔ IsBehind self.old now }
        ensures time_range { IsErrOf result ShapeFault.TimeRange ↔
            (IsOnward self.old now × (emit_max < now)) }
        ensures zero { IsErrOf result ShapeFault.Zero ↔
            (IsOnward self.old now × (now ≤ emit_max) × (rate ≡ 0)) }
        ensures too_soon { (next : ℕ) → IsErrOf result (ShapeFault.TooSoon next) ↔
            (IsOnward self.old now × (now ≤ emit_max) × (rate ≢ 0) ×
            (now < self.old.next) × (next ≡ self.old.next)) }
        ensures ok { IsOk result ↔ ((now ≤ emit_max) × (rate ≢ 0) × (self.old.next ≤ now)) }
        ensures value { MatchResult result
            (λ next. (next ≡ now + spacing_of rate) ×
            (self.new ≡ record { next = next; emitted = Some now }))
            (λ _. self.new ≡ self.old) }
    {
        if now >= self.next && now <= EMIT_MAX {
            if let Some(spacing) = rate.spacing() {
                self.next = now + spacing;
                self.emitted = Some(now);
                return Ok(self.next);
            }
        }
        Err(self.refusal(now, rate))
    }

    // Why a cell may not leave now.
    fn refusal(&self, now: u64, rate: Rate) -> ShapeFault
        requires { (now ≤ emit_max) → (rate ≢ 0) → now < self.now.next }
        ensures clock_back { (result ≡ ShapeFault.ClockBack) ↔ IsBehind self.now now }
        ensures time_range { (result ≡ ShapeFault.TimeRange) ↔
            (IsOnward self.now now × (emit_max < now)) }
        ensures zero { (result ≡ ShapeFault.Zero) ↔
            (IsOnward self.now now × (now ≤ emit_max) × (rate ≡ 0)) }
        ensures too_soon { (next : ℕ) → (result ≡ ShapeFault.TooSoon next) ↔
            (IsOnward self.now now × (now ≤ emit_max) × (rate ≢ 0) ×
            (now < self.now.next) × (next ≡ self.now.next)) }
    {
        if self.emitted.is_some_and(|last| now < last) {
            return ShapeFault::ClockBack;
        }
        if now > EMIT_MAX {
            return ShapeFault::TimeRange;
        }
        if rate == Rate::ZERO {
            return ShapeFault::Zero;
        }
        ShapeFault::TooSoon { next: self.next }
    }
}
