//! A source in any state.
ghost use Rattle.std.specs.Prelude.{◌≡◌, ◌≤◌, true, false, IfOk, OnErr, Some};
ghost use Rattle.abt_rate.specs.Limits.{number_max};
ghost use Rattle.abt_rate.specs.Rate.{spacing_of};
ghost use Rattle.abt_keep.specs.declared.plan.StorePlan.{StorePlan};
ghost use Rattle.abt_source.specs.Calls.{crashed_source, result_of_answer, result_of_emission};
ghost use Rattle.abt_lifetime.specs.Lifetime.{Called, asked, heard_in};
ghost use Rattle.abt_lifetime.specs.Sources.{source_in, is_up_in, stored_in, WaitsOnlyAsking};

use abt_cell::{Answer, Request};
use abt_keep::SeqStore;
use abt_rate::Rate;
use abt_shaper::ShapeFault;
use abt_source::{Answered, AskRefused, Asking, Down, Idle, Source};

/// A source in whichever state it is.
#[derive(Debug, Drop)]
pub(crate) enum AnySource {
    Down(Source<Down>),
    Idle(Source<Idle>),
    Asking(Source<Asking>),
}

impl AnySource {
    pub(crate) fn is_up(&self) -> bool
        ensures { result ≡ is_up_in self.now }
    {
        !matches!(self, AnySource::Down(_))
    }

    // Asks, where it is up: the source then, and the request that goes out, if one does.
    pub(crate) fn ask<K: SeqStore>(self, store: &mut K, rate: Rate) -> (AnySource, Option<Request>)
        requires up { is_up_in self ≡ true }
        requires last { (source_in self).last ≤ number_max }
        ensures value { (plan : StorePlan) ×
            (record { after = stored_in result.0 true (K.content store.new); request = result.1 } ≡
            asked plan (stored_in self true (K.content store.old)) rate) }
        ensures up { is_up_in result.0 ≡ true }
        ensures waits { WaitsOnlyAsking result.0 }
    {
        match self {
            AnySource::Down(_) => unreachable!(),
            AnySource::Idle(source) => match source.ask(store, rate) {
                Ok((source, request)) => (AnySource::Asking(source), Some(request)),
                Err(AskRefused { source, fault: _ }) => (AnySource::Idle(source), None),
            },
            AnySource::Asking(source) => match source.ask(store, rate) {
                Ok((source, request)) => (AnySource::Asking(source), Some(request)),
                Err(AskRefused { source, fault: _ }) => (AnySource::Asking(source), None),
            },
        }
    }

    // What an answer makes of a source that asks.
    pub(crate) fn after_answer(source: Source<Asking>, answer: &Answer) -> AnySource
        ensures value { source_in result ≡ heard_in (result_of_answer source answer.now) }
        ensures up { is_up_in result ≡ true }
        ensures waits { WaitsOnlyAsking result }
    {
        match source.answer(answer) {
            Answered::Raised(source) | Answered::Refused(source) => AnySource::Idle(source),
            Answered::Ignored(source) => AnySource::Asking(source),
        }
    }

    // Emits a cell, where it is up.
    pub(crate) fn emit(&mut self, now: u64) -> Result<u64, ShapeFault>
        requires { is_up_in self.old ≡ true }
        ensures value { result ≡ result_of_emission (source_in self.old) now }
        ensures ok { IfOk result (λ next. source_in self.new ≡ record (source_in self.old) {
          gap = spacing_of (source_in self.old).rate;
          next = next;
          emitted = Some now;
        }) }
        ensures up { is_up_in self.new ≡ true }
        ensures waits { WaitsOnlyAsking self.old → WaitsOnlyAsking self.new }
        ensures err { OnErr result (self.new ≡ self.old) }
    {
        match self {
            AnySource::Down(_) => unreachable!(),
            AnySource::Idle(source) => source.emit(now),
            AnySource::Asking(source) => source.emit(now),
        }
    }

    // Crashes, where it is up.
    pub(crate) fn crash(self) -> Source<Down>
        requires { is_up_in self ≡ true }
        ensures { result ≡ crashed_source (source_in self) }
    {
        match self {
            AnySource::Down(_) => unreachable!(),
            AnySource::Idle(source) => source.crash(),
            AnySource::Asking(source) => source.crash(),
        }
    }
}
