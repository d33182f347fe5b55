//! A source with its store.
ghost use Rattle.std.specs.Prelude.{◌≡◌, ◌<◌, ◌≤◌, ◌+◌, ◌++◌, None, IfOk, OnErr, vec_len, vec_capacity};
ghost use Rattle.abt_lifetime.specs.Lifetime.{out_of};
ghost use Rattle.abt_lifetime.specs.Numbers.{AreCarriedOut, IsCarriedOut, new_stored};
ghost use Rattle.abt_lifetime.specs.Sound.{IsSound};
ghost use Rattle.abt_lifetime.specs.declared.call.SourceCall.TheVariants as call;

use crate::any_source::AnySource;
use crate::call::SourceCall;
use abt_cell::{Answer, Request, Vc};
use abt_keep::SeqStore;
use abt_rate::Rate;
use abt_source::{Source, StartRefused};
use std::alloc::{AllocError, Global};
use std::marker::Model;
use std::mem;

/// A source with a store of any kind, in whichever state the source is, over its whole lifetime: it is started and crashes as often as one
/// likes (docs/RULES.md, "Source").
///
/// Whatever the store holds at first and however it fares, the numbers of the requests that go out rise, and the store covers them and each
/// gap that may be running.
#[derive(Drop)]
pub struct StoredSource<K: SeqStore> {
    vc: Vc,
    running: AnySource,
    was_started: bool,
    store: K,
}

impl<K: SeqStore> Model for StoredSource<K> {
    ghost use Rattle.abt_lifetime.specs.Lifetime.{StoredView};
    ghost use Rattle.abt_lifetime.specs.Sound.{IsSound};
    ghost use Rattle.abt_lifetime.specs.Sources.{stored_in, WaitsOnlyAsking};

    ghost Value = { StoredView };

    ghost view = { λ v. stored_in v.running v.was_started (K.content v.store) };

    ghost invariant = { λ v. IsSound (stored_in v.running v.was_started (K.content v.store)) × WaitsOnlyAsking v.running };
}

impl<K: SeqStore> StoredSource<K> {
    /// The source of a connection to which nothing has happened, with the store that it is to use.
    pub fn new(vc: Vc, store: K) -> StoredSource<K>
        ensures { result ≡ new_stored vc (K.content store) }
    {
        StoredSource {
            vc,
            running: AnySource::Down(Source::new(vc)),
            was_started: false,
            store,
        }
    }

    /// Does one call, and gives the request that goes out, if one does.
    pub fn call(&mut self, call: &SourceCall) -> Option<Request>
        ensures { IsCarriedOut self.old call.now result self.new }
    {
        match *call {
            SourceCall::Start { now } => {
                self.start(now);
                None
            }
            SourceCall::Ask { rate } => self.ask(rate),
            SourceCall::Answer(answer) => {
                self.hear(&answer);
                None
            }
            SourceCall::Emit { now } => {
                self.emit(now);
                None
            }
            SourceCall::Crash => {
                self.crash();
                None
            }
        }
    }

    /// Does calls, one after the other, and returns the requests that go out, in order.
    ///
    /// # Errors
    /// Where memory is refused nothing is done.
    pub fn call_all(
        &mut self,
        alloc: Global,
        calls: &[SourceCall],
    ) -> Result<Vec<Request>, AllocError>
        ensures ok { IfOk result
            (λ requests. AreCarriedOut self.old calls.now requests.items self.new) }
        ensures same { OnErr result (self.new ≡ self.old) }
    {
        self.in_order();
        let mut requests = Vec::with_capacity(alloc, calls.len())?;
        for call in calls {
            let request = self.call(call);
            add(&mut requests, request);
        }
        Ok(requests)
    }

    // Does nothing: what the type keeps in order.
    fn in_order(&self)
        ensures { IsSound self.now }
    {
        let _started = self.was_started;
    }

    fn start(&mut self, now: u64)
        ensures { IsCarriedOut self.old (call.Start now) None self.new }
    {
        if self.running.is_up() {
            return;
        }
        let AnySource::Down(source) = taken_out(&mut self.running, self.vc) else {
            unreachable!()
        };
        match source.start(&mut self.store, now) {
            Ok(source) => {
                self.running = AnySource::Idle(source);
                self.was_started = true;
            }
            Err(StartRefused { source, fault: _ }) => self.running = AnySource::Down(source),
        }
    }

    fn ask(&mut self, rate: Rate) -> Option<Request>
        ensures { IsCarriedOut self.old (call.Ask rate) result self.new }
    {
        if !self.running.is_up() {
            return None;
        }
        let (running, request) = taken_out(&mut self.running, self.vc).ask(&mut self.store, rate);
        self.running = running;
        request
    }

    fn hear(&mut self, answer: &Answer)
        ensures { IsCarriedOut self.old (call.Answer answer.now) None self.new }
    {
        if !matches!(self.running, AnySource::Asking(_)) {
            return;
        }
        let AnySource::Asking(source) = taken_out(&mut self.running, self.vc) else {
            unreachable!()
        };
        self.running = AnySource::after_answer(source, answer);
    }

    fn emit(&mut self, now: u64)
        ensures { IsCarriedOut self.old (call.Emit now) None self.new }
    {
        if self.running.is_up() {
            let _ = self.running.emit(now);
        }
    }

    fn crash(&mut self)
        ensures { IsCarriedOut self.old call.Crash None self.new }
    {
        if self.running.is_up() {
            let source = taken_out(&mut self.running, self.vc).crash();
            self.running = AnySource::Down(source);
        }
    }
}

// Takes a source out of its place; a source of the same connection that is down stands there meanwhile.
fn taken_out(running: &mut AnySource, vc: Vc) -> AnySource
    ensures { result ≡ running.old }
{
    mem::replace(running, AnySource::Down(Source::new(vc)))
}

// Adds a request to a list that has room, if there is one.
fn add(requests: &mut Vec<Request>, request: Option<Request>)
    requires { vec_len requests.old < vec_capacity requests.old }
    ensures items { requests.new.items ≡ requests.old.items ++ out_of request }
    ensures len { vec_len requests.new ≤ vec_len requests.old + 1 }
    ensures capacity { vec_capacity requests.new ≡ vec_capacity requests.old }
{
    if let Some(request) = request {
        requests.push_reserved(request);
    }
}
