//! A source in any state.
ghost use Rattle.std.specs.Prelude.{◌≡◌, ◌≢◌, ◌≤◌, ◌∷◌, ◌++◌, ◌↔◌, ℕ, List, IsTrue, IfErr, IfOk, OnErr, Some};
ghost use Rattle.abt_facts.specs.Source as state;
ghost use Rattle.abt_facts.specs.declared.fact.Fact.{Fact};
ghost use Rattle.abt_facts.specs.declared.fact.Fact.TheVariants.{Asked, Emitted};
ghost use Rattle.abt_rate.specs.Limits.{number_max};
ghost use Rattle.abt_rate.specs.Rate.{IsRate, spacing_of};
ghost use Rattle.abt_source.specs.Calls.{result_of_emission};
ghost use Rattle.abt_source.specs.SourceFacts.{StandsFor, stored_by};
ghost use Rattle.abt_live.specs.Asking.{Goes, Stays};
ghost use Rattle.abt_live.specs.Running.{source_in, state_in};
ghost use Rattle.abt_live.specs.SourceJournal.{will_write};

use abt_cell::Request;
use abt_keep::SeqStore;
use abt_rate::Rate;
use abt_shaper::ShapeFault;
use abt_source::{AskFault, AskRefused, Asking, Down, Idle, Source};

/// A source in whichever state it is.
#[derive(Debug, Drop)]
pub enum Running {
    /// It isn't started.
    Down(Source<Down>),
    /// It was started, and waits for no answer.
    Idle(Source<Idle>),
    /// It waits for the answer to its newest request.
    Asking(Source<Asking>),
}

impl Running {
    pub(crate) fn is_down(&self) -> bool
        ensures { IsTrue result ↔ (state_in self.now ≡ state.Down) }
    {
        matches!(self, Running::Down(_))
    }

    pub(crate) fn is_asking(&self) -> bool
        ensures { IsTrue result ↔ (state_in self.now ≡ state.Asking (source_in self.now).last) }
    {
        matches!(self, Running::Asking(_))
    }

    // The rate at which it shapes, which is zero when it is down.
    pub(crate) fn rate(&self) -> Rate
        requires { state_in self.now ≡ state.Down → (source_in self.now).rate ≡ 0 }
        ensures value { result ≡ (source_in self.now).rate }
        ensures rate { IsRate result }
    {
        match self {
            Running::Down(_) => Rate::ZERO,
            Running::Idle(source) => source.rate(),
            Running::Asking(source) => source.rate(),
        }
    }

    // The last number, if it is up.
    pub(crate) fn last(&self) -> u32
        requires { state_in self.now ≢ state.Down }
        ensures value { result ≡ (source_in self.now).last }
        ensures range { result ≤ number_max }
    {
        match self {
            Running::Down(_) => unreachable!(),
            Running::Idle(source) => source.last(),
            Running::Asking(source) => source.last(),
        }
    }

    // Whether an ask writes a record, if it is up. Without a number left it is refused before that.
    pub(crate) fn will_write(&self, rate: Rate) -> bool
        requires { state_in self.now ≢ state.Down }
        ensures { result ≡ will_write (source_in self.now) rate }
    {
        let record = match self {
            Running::Down(_) => unreachable!(),
            Running::Idle(source) => source.record_to_write(rate),
            Running::Asking(source) => source.record_to_write(rate),
        };
        self.last() < u32::MAX && record.is_some()
    }

    // Asks, if it is up.
    pub(crate) fn ask<K: SeqStore>(
        self,
        store: &mut K,
        rate: Rate,
    ) -> Result<(Source<Asking>, Request), (Running, AskFault)>
        requires up { state_in self ≢ state.Down }
        requires last { (source_in self).last ≤ number_max }
        ensures ok { IfOk result (λ asked. Goes (source_in self) (K.content store.old) rate
            asked.0 asked.1 (K.content store.new)) }
        ensures err { IfErr result (λ refused. Stays (source_in self) (K.content store.old) rate
            (K.content store.new) refused.1) }
        ensures same { IfErr result (λ refused. refused.0 ≡ self) }
        ensures facts { (facts : List Fact) (mark : ℕ) → StandsFor facts (state_in self) (source_in self) →
            IfOk result (λ asked. let request = asked.1 in
            StandsFor (Asked request.seq request.floor request.ask mark ∷
            (stored_by (source_in self) rate ++ facts))
            (state.Asking request.seq) asked.0) }
    {
        match self {
            Running::Down(_) => unreachable!(),
            Running::Idle(source) => match source.ask(store, rate) {
                Ok(asked) => Ok(asked),
                Err(AskRefused { source, fault }) => Err((Running::Idle(source), fault)),
            },
            Running::Asking(source) => match source.ask(store, rate) {
                Ok(asked) => Ok(asked),
                Err(AskRefused { source, fault }) => Err((Running::Asking(source), fault)),
            },
        }
    }

    // Emits a cell, if it is up.
    pub(crate) fn emit(&mut self, now: u64) -> Result<u64, ShapeFault>
        requires { state_in self.old ≢ state.Down }
        ensures value { result ≡ result_of_emission (source_in self.old) now }
        ensures ok { IfOk result (λ next. source_in self.new ≡ record (source_in self.old) {
          gap = spacing_of (source_in self.old).rate;
          next = next;
          emitted = Some now;
        }) }
        ensures same { state_in self.new ≡ state_in self.old }
        ensures err { OnErr result (self.new ≡ self.old) }
        ensures facts { (facts : List Fact) (cell : ℕ) →
            StandsFor facts (state_in self.old) (source_in self.old) → IfOk result
            (λ _. StandsFor (Emitted cell now (source_in self.old).rate ∷ facts) (state_in self.new)
            (source_in self.new)) }
    {
        match self {
            Running::Down(_) => unreachable!(),
            Running::Idle(source) => source.emit(now),
            Running::Asking(source) => source.emit(now),
        }
    }
}
