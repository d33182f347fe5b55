//! A source in any state.
ghost use Rattle.std.specs.Prelude.{◌≡◌, ◌≢◌, ◌∷◌, ◌++◌, ℕ, if◌then◌else◌, List, IsTrue, ◌↔◌, IfOk, OnErr, Ok, Err, None, Some};
ghost use Rattle.abt_facts.specs.Source as state;
ghost use Rattle.abt_facts.specs.declared.fact.Fact.{Fact};
ghost use Rattle.abt_facts.specs.declared.fact.Fact.TheVariants.{Asked, Crashed, Emitted};
ghost use Rattle.abt_rate.specs.Rate.{IsRate, spacing_of};
ghost use Rattle.abt_source.specs.Calls.{crashed_source, has_to_write, record_to_write, result_of_emission};
ghost use Rattle.abt_source.specs.SourceFacts.{StandsFor, stored_by};
ghost use Rattle.abt_actor.specs.Actor.{awaited_in};
ghost use Rattle.abt_actor.specs.Sources.{source_in, state_in, result_of_asking};

use abt_cell::Request;
use abt_keep::{MemoryStore, Record};
use abt_rate::Rate;
use abt_shaper::ShapeFault;
use abt_source::{AskFault, AskRefused, Asking, Down, Idle, Source};

/// A source in whichever state it is.
#[derive(Debug, Drop)]
pub(crate) enum AnySource {
    Down(Source<Down>),
    Idle(Source<Idle>),
    Asking(Source<Asking>),
}

impl AnySource {
    pub(crate) fn is_down(&self) -> bool
        ensures { IsTrue result ↔ (state_in self.now ≡ state.Down) }
    {
        matches!(self, AnySource::Down(_))
    }

    // The number whose answer it waits for, if it waits for one.
    pub(crate) fn awaited(&self) -> Option<u32>
        ensures { result ≡ awaited_in (state_in self.now) }
    {
        match self {
            AnySource::Down(_) | AnySource::Idle(_) => None,
            AnySource::Asking(source) => Some(source.last()),
        }
    }

    // The rate at which it shapes, which is zero when it is down.
    pub(crate) fn rate(&self) -> Rate
        requires { state_in self.now ≡ state.Down → (source_in self.now).rate ≡ 0 }
        ensures value { result ≡ (source_in self.now).rate }
        ensures rate { IsRate result }
    {
        match self {
            AnySource::Down(_) => Rate::ZERO,
            AnySource::Idle(source) => source.rate(),
            AnySource::Asking(source) => source.rate(),
        }
    }

    // The record that an ask has to write, if it has to write one, if it is up.
    pub(crate) fn record_to_write(&self, rate: Rate) -> Option<Record>
        requires { state_in self.now ≢ state.Down }
        ensures { result ≡ (if has_to_write (source_in self.now) rate
            then Some (record_to_write (source_in self.now) rate) else None) }
    {
        match self {
            AnySource::Down(_) => unreachable!(),
            AnySource::Idle(source) => source.record_to_write(rate),
            AnySource::Asking(source) => source.record_to_write(rate),
        }
    }

    // Asks, if it is up.
    pub(crate) fn ask(
        self,
        store: &mut MemoryStore,
        rate: Rate,
    ) -> Result<(Source<Asking>, Request), (AnySource, AskFault)>
        requires { state_in self ≢ state.Down }
        ensures value { (result, store.new) ≡ result_of_asking self store.old rate }
        ensures facts { (facts : List Fact) (mark : ℕ) → StandsFor facts (state_in self) (source_in self) →
            IfOk result (λ asked. let request = asked.1 in
            StandsFor (Asked request.seq request.floor request.ask mark ∷
            (stored_by (source_in self) rate ++ facts))
            (state.Asking request.seq) asked.0) }
    {
        match self {
            AnySource::Down(_) => unreachable!(),
            AnySource::Idle(source) => match source.ask(store, rate) {
                Ok(asked) => Ok(asked),
                Err(AskRefused { source, fault }) => Err((AnySource::Idle(source), fault)),
            },
            AnySource::Asking(source) => match source.ask(store, rate) {
                Ok(asked) => Ok(asked),
                Err(AskRefused { source, fault }) => Err((AnySource::Asking(source), fault)),
            },
        }
    }

    // Emits a cell, if it is up.
    pub(crate) fn emit(&mut self, now: u64) -> Result<u64, ShapeFault>
        requires { state_in self.old ≢ state.Down }
        ensures value { result ≡ result_of_emission (source_in self.old) now }
        ensures ok { IfOk result (λ next. source_in self.new ≡ record (source_in self.old) {
          gap = spacing_of (source_in self.old).rate;
          next = next;
          emitted = Some now;
        }) }
        ensures same { state_in self.new ≡ state_in self.old }
        ensures err { OnErr result (self.new ≡ self.old) }
        ensures facts { (facts : List Fact) (cell : ℕ) →
            StandsFor facts (state_in self.old) (source_in self.old) →
            IfOk result
            (λ _. StandsFor (Emitted cell now (source_in self.old).rate ∷ facts) (state_in self.new)
            (source_in self.new)) }
    {
        match self {
            AnySource::Down(_) => unreachable!(),
            AnySource::Idle(source) => source.emit(now),
            AnySource::Asking(source) => source.emit(now),
        }
    }

    // Crashes, if it is up.
    pub(crate) fn crash(self) -> Source<Down>
        requires { state_in self ≢ state.Down }
        ensures value { result ≡ crashed_source (source_in self) }
        ensures facts { (facts : List Fact) → StandsFor facts (state_in self) (source_in self) →
            StandsFor (Crashed ∷ facts) state.Down result }
    {
        match self {
            AnySource::Down(_) => unreachable!(),
            AnySource::Idle(source) => source.crash(),
            AnySource::Asking(source) => source.crash(),
        }
    }
}
