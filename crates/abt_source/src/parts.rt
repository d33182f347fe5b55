//! The parts of a source, for one whose state is kept elsewhere between two calls.
ghost use Rattle.std.specs.Prelude.{◌≡◌, ◌↔◌, Some, IsSome, IfSome};
ghost use Rattle.abt_keep.specs.Record.{IsSpacing};
ghost use Rattle.abt_source.specs.Parts.{CanBeIn, newest_at, parts_of};

use crate::any::{AnySource, Phase};
use crate::source::Source;
use crate::state::{Asking, Down, Idle, State};
use abt_cell::{Request, Vc};
use abt_keep::Record;
use abt_rate::Rate;
use abt_shaper::Shaper;
use std::marker::Model;

/// The parts of a source, which was given up for them. They are given up for it again, so there is either a source or its parts,
/// and one of them.
#[must_use]
#[derive(Debug, Drop)]
pub struct SourceParts {
    phase: Phase,
    vc: Vc,
    rate: Rate,
    last: u32,
    kept: Record,
    // In picoseconds.
    gap: u64,
    shaper: Shaper,
}

impl Model for SourceParts {
    ghost use Rattle.std.specs.Prelude.{◌≡◌};
    ghost use Rattle.abt_keep.specs.Record.{IsSpacing};
    ghost use Rattle.abt_source.specs.Parts.{PartsView, CanBeIn, newest_at};

    ghost Value = { PartsView };

    ghost view = { λ p. record {
      phase = p.phase;
      source = record {
        vc = p.vc;
        rate = p.rate;
        last = p.last;
        kept = p.kept;
        gap = p.gap;
        next = p.shaper.next;
        emitted = p.shaper.emitted;
        newest = newest_at p.phase p.vc p.last p.rate;
      };
    } };

    ghost invariant = { λ p. IsSpacing p.gap × CanBeIn p.phase p.last p.rate };
}

impl AnySource {
    /// Gives the source up for its parts.
    pub fn into_parts(self) -> SourceParts
        ensures { result ≡ parts_of self }
    {
        match self {
            AnySource::Down(source) => parts_in(source, Phase::Down),
            AnySource::Idle(source) => parts_in(source, Phase::Idle),
            AnySource::Asking(source) => {
                let ask = source.again().ask();
                parts_in(source, Phase::Asking(ask))
            }
        }
    }
}

impl SourceParts {
    /// Makes parts of values for which the caller vouches: they were read from parts by the calls below, neither those parts
    /// nor a source made of them is left, and they are used but once. Nothing checks that. With other values a number goes
    /// out twice, or a source shapes at a rate that nobody granted.
    ///
    /// It's for a state that is kept outside of Rust's types between two calls, as a C program does.
    ///
    /// `None` if no rate has the spacing of the gap, or if the source waits for the answer to a request that can't be: one with
    /// the number 0, or for less than the present rate, which is its floor.
    pub fn vouched_for(
        phase: Phase,
        vc: Vc,
        rate: Rate,
        last: u32,
        kept: Record,
        gap: u64,
        shaper: Shaper,
    ) -> Option<SourceParts>
        ensures some { IsSome result ↔ (IsSpacing gap × CanBeIn phase last rate) }
        ensures value { IfSome result (λ parts. parts ≡ record {
          phase = phase;
          source = record {
            vc = vc;
            rate = rate;
            last = last;
            kept = kept;
            gap = gap;
            next = shaper.next;
            emitted = shaper.emitted;
            newest = newest_at phase vc last rate;
          };
        }) }
    {
        let gap = Record::new(0, gap)?.spacing();
        if let Phase::Asking(ask) = phase {
            Request::new(vc, last, rate, ask)?;
        }
        Some(SourceParts {
            phase,
            vc,
            rate,
            last,
            kept,
            gap,
            shaper,
        })
    }

    /// Gives the parts up for their source.
    pub fn into_source(self) -> AnySource
        ensures { parts_of result ≡ self }
    {
        let phase = self.phase();
        match phase {
            Phase::Down => AnySource::Down(self.source_in(Down)),
            Phase::Idle => AnySource::Idle(self.source_in(Idle)),
            Phase::Asking(ask) => {
                let request = self.request(ask);
                AnySource::Asking(self.source_in(Asking { request }))
            }
        }
    }

    /// The state of the source, with the asked rate while it waits for an answer.
    pub fn phase(&self) -> Phase
        ensures value { result ≡ self.now.phase }
        ensures can { CanBeIn result self.now.source.last self.now.source.rate }
        ensures newest { self.now.source.newest ≡
            newest_at result self.now.source.vc self.now.source.last self.now.source.rate }
    {
        self.phase
    }

    /// The connection.
    pub fn vc(&self) -> Vc
        ensures { result ≡ self.now.source.vc }
    {
        self.vc
    }

    /// The rate at which the source shapes.
    pub fn rate(&self) -> Rate
        ensures { result ≡ self.now.source.rate }
    {
        self.rate
    }

    /// The last sequence number.
    pub fn last(&self) -> u32
        ensures { result ≡ self.now.source.last }
    {
        self.last
    }

    /// The record that the source knows to be kept.
    pub fn kept(&self) -> Record
        ensures { result ≡ self.now.source.kept }
    {
        self.kept
    }

    /// The gap that is running, in picoseconds.
    pub fn gap(&self) -> u64
        ensures value { result ≡ self.now.source.gap }
        ensures range { IsSpacing result }
    {
        self.gap
    }

    /// Its shaper.
    pub fn shaper(&self) -> Shaper
        ensures { result ≡
            record { next = self.now.source.next; emitted = self.now.source.emitted } }
    {
        self.shaper
    }

    // The request that the source waits for.
    fn request(&self, ask: Rate) -> Request
        requires { self.now.phase ≡ Phase.Asking ask }
        ensures { self.now.source.newest ≡ Some result }
    {
        let Some(request) = Request::new(self.vc, self.last, self.rate, ask) else {
            unreachable!()
        };
        request
    }

    // The source of these parts, in a state.
    fn source_in<S: State>(self, state: S) -> Source<S>
        requires { S.newest state ≡ self.source.newest }
        ensures { result ≡ self.source }
    {
        Source {
            vc: self.vc,
            rate: self.rate,
            last: self.last,
            kept: self.kept,
            gap: self.gap,
            shaper: self.shaper,
            state,
        }
    }
}

// The parts of a source, in the state that it is in.
fn parts_in<S: State>(source: Source<S>, phase: Phase) -> SourceParts
    requires can { CanBeIn phase source.last source.rate }
    requires newest { source.newest ≡ newest_at phase source.vc source.last source.rate }
    ensures { result ≡ record { phase = phase; source = source } }
{
    SourceParts {
        phase,
        vc: source.vc,
        rate: source.rate,
        last: source.last,
        kept: source.kept,
        gap: source.gap,
        shaper: source.shaper,
    }
}
