//! The source of a connection.
ghost use Rattle.std.specs.Prelude.{◌≡◌, ℕ, List, [], ◌∷◌, Some, IfOk, OnErr};
ghost use Rattle.abt_rate.specs.Rate.{spacing_of};
ghost use Rattle.abt_facts.specs.Source as state;
ghost use Rattle.abt_facts.specs.declared.fact.Fact.{Fact};
ghost use Rattle.abt_facts.specs.declared.fact.Fact.TheVariants.{Crashed, Emitted};
ghost use Rattle.abt_source.specs.Calls.{new_source, crashed_source, result_of_emission};
ghost use Rattle.abt_source.specs.SourceFacts.{StandsFor};

use crate::start::HOLD_OFF_MAX;
use crate::state::{Down, State, Up};
use abt_cell::Vc;
use abt_keep::Record;
use abt_rate::Rate;
use abt_shaper::{ShapeFault, Shaper};
use std::marker::Model;

/// The source of a connection, in the state `S`. It sends requests for a rate and shapes its cells
/// (docs/RULES.md, "Source").
///
/// ```text
///                    start                ask
///      +------+ ---------------> +------+ ---------------> +--------+ ---+
///  new | Down |                  | Idle |                  | Asking |    | ask, an answer that is ignored
/// ---> +------+                  +------+ <--------------- +--------+ <--+
///         ^                         |      answer: raised,     |
///         |        crash            |      refused             |
///         +-------------------------+--------------------------+
/// ```
///
/// Each call that changes the state consumes the source, and a refusal hands it back as it was. A source that crashed takes
/// its last number, and for how long no cell leaves, anew from its store at its next start.
#[must_use]
#[derive(Debug, Drop)]
pub struct Source<S: State> {
    pub(crate) vc: Vc,
    pub(crate) rate: Rate,
    pub(crate) last: u32,
    // The record that it knows to be kept.
    pub(crate) kept: Record,
    // The gap that is running, in picoseconds: the hold-off, or the spacing of the last cell.
    pub(crate) gap: u64,
    pub(crate) shaper: Shaper,
    pub(crate) state: S,
}

impl<S: State> Model for Source<S> {
    ghost use Rattle.std.specs.Prelude.{◌≡◌};
    ghost use Rattle.std.specs.Option.{ForSome};
    ghost use Rattle.abt_keep.specs.Record.{IsSpacing};
    ghost use Rattle.abt_source.specs.SourceView.{SourceView};

    ghost Value = { SourceView };

    ghost view = { λ s. record {
      vc = s.vc;
      rate = s.rate;
      last = s.last;
      kept = s.kept;
      gap = s.gap;
      next = s.shaper.next;
      emitted = s.shaper.emitted;
      newest = S.newest s.state;
    } };

    ghost invariant = { λ s. IsSpacing s.gap × ForSome (S.newest s.state)
        (λ request. (request.vc ≡ s.vc) × (request.seq ≡ s.last) × (request.floor ≡ s.rate)) };
}

impl Source<Down> {
    /// The source of a connection to which nothing has happened.
    pub fn new(vc: Vc) -> Source<Down>
        ensures value { result ≡ new_source vc }
        ensures facts { StandsFor [] state.Down result }
    {
        Source {
            vc,
            rate: Rate::ZERO,
            last: 0,
            kept: Record::old(0),
            gap: HOLD_OFF_MAX,
            shaper: Shaper::new(0),
            state: Down,
        }
    }
}

impl<S: Up> Source<S> {
    /// The connection.
    pub fn vc(&self) -> Vc
        ensures { result ≡ self.now.vc }
    {
        self.vc
    }

    /// The rate at which the source shapes.
    pub fn rate(&self) -> Rate
        ensures { result ≡ self.now.rate }
    {
        self.rate
    }

    /// The last sequence number that the source used, or the one that its store held at the start.
    pub fn last(&self) -> u32
        ensures { result ≡ self.now.last }
    {
        self.last
    }

    /// The record that the source knows to be in its store.
    pub fn kept(&self) -> Record
        ensures { result ≡ self.now.kept }
    {
        self.kept
    }

    /// Emits a cell at the moment `now`, at the present rate, and gives the earliest moment of the next cell.
    ///
    /// # Errors
    /// As [`Shaper::emit`].
    pub fn emit(&mut self, now: u64) -> Result<u64, ShapeFault>
        ensures value { result ≡ result_of_emission self.old now }
        ensures ok { IfOk result (λ next. self.new ≡ record self.old {
          gap = spacing_of self.old.rate;
          next = next;
          emitted = Some now;
        }) }
        ensures err { OnErr result (self.new ≡ self.old) }
        ensures facts { (facts : List Fact) (cell : ℕ) →
            StandsFor facts (S.state_at self.old.last) self.old → IfOk result (λ _.
            StandsFor (Emitted cell now self.old.rate ∷ facts) (S.state_at self.new.last) self.new) }
    {
        let answer = self.shaper.emit(now, self.rate);
        if let (Ok(_), Some(spacing)) = (answer, self.rate.spacing()) {
            self.gap = spacing;
        }
        answer
    }

    /// Loses the rate and the newest request.
    pub fn crash(self) -> Source<Down>
        ensures value { result ≡ crashed_source self }
        ensures facts { (facts : List Fact) → StandsFor facts (S.state_at self.last) self →
            StandsFor (Crashed ∷ facts) state.Down result }
    {
        Source {
            vc: self.vc,
            rate: Rate::ZERO,
            last: self.last,
            kept: self.kept,
            gap: self.gap,
            shaper: self.shaper,
            state: Down,
        }
    }
}
