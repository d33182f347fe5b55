//! The states that a C program keeps. Moments and durations are picoseconds.
ghost use Rattle.std.specs.Prelude.{◌≡◌, ◌+◌, ◌≤◌, ◌↔◌, ◌==◌, Some, None, IsSome, IfSome, IsTrue, if◌then◌else◌};
ghost use Rattle.abt_rate.specs.Limits.{arrive_max, spacing_max};
ghost use Rattle.abt_rate.specs.Rate.{units_of};
ghost use Rattle.abt_gcra.specs.Policing.{IsKept, checked, policed};
ghost use Rattle.abt_c.specs.Bursts.{policed_by};
ghost use Rattle.abt_c.specs.States.{policing_of, no_policer, gcra_kind, policer_kind, IsPolicing, bucket_of, bucket_kind, IsBucket, shaping_of, shaper_kind, IsShaper};

use crate::spacing::spacing_of_code;
use abt_gcra::{ARRIVE_MAX, Bucket, SPACING_MAX, Verdict};
use abt_rate::TAU_MAX;
use abt_shaper::Shaper;

/// The kinds, eight letters each (docs/C.md, "States").
pub const GCRA_KIND: u64 = 0x6162_7420_6763_7261;

pub const POLICER_KIND: u64 = 0x6162_7420_706f_6c69;

const BUCKET_KIND: u64 = 0x6162_7420_6275_636b;

const SHAPER_KIND: u64 = 0x6162_7420_7368_6170;

/// The greatest theoretical arrival time, in picoseconds: the greatest arrival, tolerance and spacing added up.
const TAT_MAX: u64 = ARRIVE_MAX + TAU_MAX + SPACING_MAX;

/// The state of the algorithm by virtual scheduling, or of a policer.
#[repr(C)]
#[derive(Clone, Copy)]
pub struct AbtPolicing {
    pub kind: u64,
    pub tau: u64,
    pub tat: u64,
    pub clock: u64,
}

/// The state of the algorithm as a leaky bucket.
#[repr(C)]
#[derive(Clone, Copy)]
pub struct AbtBucket {
    pub kind: u64,
    pub tau: u64,
    pub has_level: u64,
    pub last: u64,
    pub level: u64,
    pub clock: u64,
}

/// The state of a shaper.
#[repr(C)]
#[derive(Clone, Copy)]
pub struct AbtShaper {
    pub kind: u64,
    pub next: u64,
    pub has_emitted: u64,
    pub emitted: u64,
}

impl AbtPolicing {
    /// The state of no kind.
    pub fn none() -> AbtPolicing
        ensures { result ≡ no_policer }
    {
        AbtPolicing {
            kind: 0,
            tau: 0,
            tat: 0,
            clock: 0,
        }
    }

    /// Whether the state is one of that kind, an algorithm's or a policer's.
    pub fn is(&self, kind: u64) -> bool
        ensures { IsTrue result ↔ IsPolicing kind self.now }
    {
        self.kind == kind && self.tau <= TAU_MAX && self.tat <= TAT_MAX
    }

    /// Makes the state that of an algorithm, or of a policer, of a tolerance that has met no cell.
    pub fn begin(&mut self, kind: u64, tau: u64)
        ensures { self.new ≡ record { kind = kind; tau = tau; tat = 0; clock = 0 } }
    {
        *self = AbtPolicing {
            kind,
            tau,
            tat: 0,
            clock: 0,
        };
    }

    /// Gives a cell at a moment its verdict, with the spacing from it to the next one. A theoretical arrival time of 0, which stands for
    /// none, is before each arrival, so it is looked at as one.
    #[tactic(auto, unfolding(abt_gcra::specs::Policing::checked))]
    pub fn check(&mut self, at: u64, spacing: u64) -> Verdict
        requires kept { IsKept (policing_of self.old) }
        requires arrival { at ≤ arrive_max }
        requires least { 1 ≤ spacing }
        requires greatest { spacing ≤ spacing_max }
        ensures value { (result, policing_of self.new) ≡ checked (policing_of self.old) at spacing }
        ensures state { IsPolicing self.old.kind self.new }
    {
        self.clock = at;
        if self.tat > at + self.tau {
            return Verdict::TooEarly;
        }
        self.tat = at.max(self.tat) + spacing;
        Verdict::Conforming
    }

    /// Gives a cell at a moment its verdict, if a rate of this code is held.
    pub fn police(&mut self, at: u64, held: u16) -> Verdict
        requires kept { IsKept (policing_of self.old) }
        requires arrival { at ≤ arrive_max }
        ensures value { (result, policing_of self.new) ≡ policed (policing_of self.old) at (units_of held) }
        ensures state { IsPolicing self.old.kind self.new }
    {
        self.police_by(at, spacing_of_code(held))
    }

    /// Gives a cell at a moment its verdict, by the spacing of the rate that is held, if one is.
    pub fn police_by(&mut self, at: u64, spacing: Option<u64>) -> Verdict
        requires kept { IsKept (policing_of self.old) }
        requires arrival { at ≤ arrive_max }
        requires range { IfSome spacing (λ t. (1 ≤ t) × (t ≤ spacing_max)) }
        ensures value { (result, policing_of self.new) ≡ policed_by (policing_of self.old) at spacing }
        ensures state { IsPolicing self.old.kind self.new }
    {
        match spacing {
            Some(spacing) => self.check(at, spacing),
            None => {
                self.clock = at;
                Verdict::NoRate
            }
        }
    }
}

impl AbtBucket {
    /// The bucket that the state stands for.
    pub fn bucket(&self) -> Option<Bucket>
        ensures some { IsSome result ↔ IsBucket self.now }
        ensures value { IfSome result (λ bucket. bucket ≡ bucket_of self.now) }
    {
        if self.kind != BUCKET_KIND {
            return None;
        }
        let level = if self.has_level == 0 {
            None
        } else {
            Some((self.last, self.level))
        };
        Bucket::of_parts(self.tau, level, self.clock)
    }

    /// Makes the state stand for a bucket.
    pub fn set_bucket(&mut self, bucket: &Bucket)
        ensures state { IsBucket self.new }
        ensures value { bucket_of self.new ≡ bucket.now }
    {
        self.kind = BUCKET_KIND;
        self.tau = bucket.tau();
        self.clock = bucket.clock();
        match bucket.level() {
            Some((last, level)) => {
                self.has_level = 1;
                self.last = last;
                self.level = level;
            }
            None => self.has_level = 0,
        }
    }
}

impl AbtShaper {
    /// The shaper that the state stands for.
    pub fn shaper(&self) -> Option<Shaper>
        ensures some { IsSome result ↔ IsShaper self.now }
        ensures value { IfSome result (λ shaper. shaper ≡ shaping_of self.now) }
    {
        if self.kind != SHAPER_KIND {
            return None;
        }
        Shaper::of_parts(self.next, present(self.has_emitted, self.emitted))
    }

    /// Makes the state stand for a shaper.
    pub fn set_shaper(&mut self, shaper: &Shaper)
        ensures state { IsShaper self.new }
        ensures value { shaping_of self.new ≡ shaper.now }
    {
        self.kind = SHAPER_KIND;
        self.next = shaper.next();
        match shaper.emitted() {
            Some(emitted) => {
                self.has_emitted = 1;
                self.emitted = emitted;
            }
            None => self.has_emitted = 0,
        }
    }
}

// A value of a state, if it is marked as there.
fn present(mark: u64, value: u64) -> Option<u64>
    ensures { result ≡ (if mark == 0 then None else Some value) }
{
    if mark == 0 { None } else { Some(value) }
}
