//! A source asks for a rate.
ghost use Rattle.std.specs.Prelude.{◌≡◌, ◌≢◌, ◌<◌, ◌≤◌, ◌+◌, ◌⊎◌, ◌↔◌, ℕ, true, false, List, ◌∷◌, ◌++◌, Some, Result, IfOk, IfErr};
ghost use Rattle.abt_facts.specs.Source as state;
ghost use Rattle.abt_facts.specs.declared.fact.Fact.{Fact};
ghost use Rattle.abt_facts.specs.declared.fact.Fact.TheVariants.{Asked};
ghost use Rattle.abt_keep.specs.Store.{IsCounted};
ghost use Rattle.abt_keep.specs.declared.fault.StoreFault.{StoreFault};

use crate::fault::AskFault;
use crate::source::Source;
use crate::state::{Asking, State, Up};
use abt_cell::Request;
use abt_keep::{Record, SeqStore};
use abt_rate::Rate;

/// An ask that was refused: the source as it was, and why.
#[must_use]
#[derive(Debug, Drop)]
pub struct AskRefused<S: State> {
    /// The source as it was.
    pub source: Source<S>,
    /// Why it didn't ask.
    pub fault: AskFault,
}

impl<S: Up> Source<S> {
    ghost use Rattle.abt_source.specs.Calls.{next_request, need_for, has_to_write, record_to_write, request_goes, result_of_ask};
    ghost use Rattle.abt_source.specs.SourceFacts.{StandsFor, stored_by};

    /// Asks for a rate, under the number after the last one. If the number or the need of the ask is above what the source
    /// knows to be kept, the store keeps a record of both before the request goes out, with 63 numbers more (docs/RULES.md,
    /// "Source"). Until the answer the source shapes at the floor: the lesser of its present rate and the asked rate. A
    /// request that still waits is abandoned.
    ///
    /// # Errors
    /// [`AskFault::SeqExhausted`] if the last number is the greatest, and then the store isn't called;
    /// [`AskFault::Keep`] if the store doesn't keep the record. It may have been written all the same.
    pub fn ask<K: SeqStore>(
        self,
        store: &mut K,
        rate: Rate,
    ) -> Result<(Source<Asking>, Request), AskRefused<S>>
        ensures seq_exhausted { (result ≡ Err (record { source = self; fault = AskFault.SeqExhausted })) ↔
            (self.last ≡ u32.MAX) }
        ensures same { self.last ≡ u32.MAX → store.new ≡ store.old }
        ensures kept { self.last < u32.MAX → has_to_write self rate ≡ false →
            (store.new ≡ store.old) × (result ≡ request_goes self rate) }
        ensures gives { self.last < u32.MAX → has_to_write self rate ≡ true →
            (answer : Result (Unit {0}) StoreFault)
            × K.keep_gives store.old (record_to_write self rate) answer store.new ×
            (result ≡ result_of_ask self rate answer) }
        ensures ok { IfOk result
            (λ asked. has_to_write self rate ≡ true → K.content store.new ≡ asked.0.kept) }
        ensures covers { IfOk result (λ asked. (asked.1.seq ≤ asked.0.kept.number)
            × (need_for self rate ≤ asked.0.kept.spacing)) }
        ensures keep { IfErr result (λ refused. refused.fault ≡ AskFault.Keep →
            ((K.content store.new ≡ K.content store.old) ⊎ (K.content store.new ≡ record_to_write self rate))
            × IsCounted (K.failure_count store.old) (K.failure_count store.new)) }
        ensures facts { (facts : List Fact) (mark : ℕ) → StandsFor facts (S.state_at self.last) self →
            IfOk result (λ asked. let request = asked.1 in
            StandsFor (Asked request.seq request.floor request.ask mark ∷ (stored_by self rate ++ facts))
            (state.Asking request.seq) asked.0) }
    {
        if self.last == u32::MAX {
            return Err(AskRefused {
                source: self,
                fault: AskFault::SeqExhausted,
            });
        }
        let request = self.next_request(rate);
        let Some(record) = self.record_to_write(rate) else {
            let kept = self.kept;
            return Ok((self.waiting(request, kept), request));
        };
        let Ok(()) = store.keep(record) else {
            return Err(AskRefused {
                source: self,
                fault: AskFault::Keep,
            });
        };
        Ok((self.waiting(request, record), request))
    }

    // The request of an ask for a rate.
    fn next_request(&self, rate: Rate) -> Request
        requires { self.now.last ≢ u32.MAX }
        ensures { result ≡ next_request self.now rate }
    {
        let floor = self.rate.min(rate);
        let Some(request) = Request::new(self.vc, self.last + 1, floor, rate) else {
            unreachable!()
        };
        request
    }

    // The source while it waits for the answer to a request, and knows this record to be kept.
    fn waiting(self, request: Request, kept: Record) -> Source<Asking>
        requires { request.vc ≡ self.vc }
        ensures { result ≡ record self {
          rate = request.floor;
          last = request.seq;
          kept = kept;
          newest = Some request;
        } }
    {
        Source {
            vc: self.vc,
            rate: request.floor(),
            last: request.seq(),
            kept,
            gap: self.gap,
            shaper: self.shaper,
            state: Asking { request },
        }
    }
}

impl Source<Asking> {
    /// The newest request, to be sent again.
    pub fn again(&self) -> Request
        ensures { self.now.newest ≡ Some result }
    {
        self.state.request
    }
}
