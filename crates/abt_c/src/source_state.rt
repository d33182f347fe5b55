//! The state of a source that a C program keeps. Moments and durations are picoseconds, rates are codes.
ghost use Rattle.std.specs.Prelude.{◌≡◌, ◌↔◌, Some, IsSome, IfSome};
ghost use Rattle.abt_rate.specs.Rate.{units_of};
ghost use Rattle.abt_c.specs.Sources.{IsIn, IsSource, phase_by, source_in};

use abt_cell::Vc;
use abt_keep::Record;
use abt_rate::Rate;
use abt_shaper::Shaper;
use abt_source::{AnySource, Phase, SourceParts};

/// Eight letters (docs/C.md, "States").
const SOURCE_KIND: u64 = 0x6162_7420_736f_7572;

pub const DOWN: u32 = 0;

const IDLE: u32 = 1;

const ASKING: u32 = 2;

/// The state of a source.
#[repr(C)]
#[derive(Clone, Copy)]
pub struct AbtSource {
    pub kind: u64,
    pub next: u64,
    pub emitted: u64,
    pub gap: u64,
    pub kept_spacing: u64,
    pub kept_number: u32,
    pub last: u32,
    pub phase: u32,
    pub has_emitted: u32,
    pub vpi: u16,
    pub vci: u16,
    pub rate: u16,
    pub ask: u16,
    // A write that the C program was told to make, and the rate for whose sake.
    pub is_writing: u32,
    pub wanted: u16,
    pub spare: u16,
}

impl AbtSource {
    /// The source that the state stands for. The C program vouches that the state is the one that the last call left, and that no
    /// other state of the connection is used (docs/C.md).
    pub fn any(&self) -> Option<AnySource>
        ensures some { IsSome result ↔ IsSource self.now }
        ensures value { IfSome result (IsIn self.now) }
    {
        let parts = self.parts()?;
        Some(parts.into_source())
    }

    /// The parts of that source.
    pub fn parts(&self) -> Option<SourceParts>
        ensures some { IsSome result ↔ IsSource self.now }
        ensures phase { IfSome result (λ parts.
            phase_by self.now.phase (units_of self.now.ask) ≡ Some parts.phase) }
        ensures source { IfSome result (λ parts. parts.source ≡ source_in self.now) }
    {
        if self.kind != SOURCE_KIND {
            return None;
        }
        let phase = self.phase()?;
        let vc = Vc::new(self.vpi, self.vci)?;
        let rate = Rate::from_code(self.rate);
        let kept = Record::new(self.kept_number, self.kept_spacing)?;
        let emitted = if self.has_emitted == 0 {
            None
        } else {
            Some(self.emitted)
        };
        let shaper = Shaper::of_parts(self.next, emitted)?;
        SourceParts::vouched_for(phase, vc, rate, self.last, kept, self.gap, shaper)
    }

    // The phase of the source.
    fn phase(&self) -> Option<Phase>
        ensures { result ≡ phase_by self.now.phase (units_of self.now.ask) }
    {
        match self.phase {
            DOWN => Some(Phase::Down),
            IDLE => Some(Phase::Idle),
            ASKING => Some(Phase::Asking(Rate::from_code(self.ask))),
            _ => None,
        }
    }

    /// Makes the state stand for a source. No write is to be made then.
    pub fn set(&mut self, source: AnySource)
        ensures state { IsSource self.new }
        ensures value { IsIn self.new source }
        ensures writing { self.new.is_writing ≡ 0 }
    {
        let parts = source.into_parts();
        let (phase, ask) = words_of(parts.phase());
        let shaper = parts.shaper();
        let (has_emitted, emitted) = match shaper.emitted() {
            Some(emitted) => (1, emitted),
            None => (0, 0),
        };
        *self = AbtSource {
            kind: SOURCE_KIND,
            next: shaper.next(),
            emitted,
            gap: parts.gap(),
            kept_spacing: parts.kept().spacing(),
            kept_number: parts.kept().number(),
            last: parts.last(),
            phase,
            has_emitted,
            vpi: parts.vc().vpi(),
            vci: parts.vc().vci(),
            rate: parts.rate().code(),
            ask: ask.code(),
            is_writing: 0,
            wanted: 0,
            spare: 0,
        };
    }
}

// The word of a phase, and the asked rate beside it.
fn words_of(phase: Phase) -> (u32, Rate)
    ensures { phase_by result.0 result.1 ≡ Some phase }
{
    match phase {
        Phase::Down => (DOWN, Rate::ZERO),
        Phase::Idle => (IDLE, Rate::ZERO),
        Phase::Asking(ask) => (ASKING, ask),
    }
}
