//! A source at work, with its store.
ghost use Rattle.std.specs.Prelude.{◌≡◌, ◌≢◌, ◌*◌, ◌≤◌, IfNone, IfSome};
ghost use Rattle.abt_rate.specs.Limits.{spacing_min};
ghost use Rattle.abt_facts.specs.Source.{Down};
ghost use Rattle.abt_source.specs.Calls.{new_source};
ghost use Rattle.abt_model.specs.declared.command.SourceCommand.{SourceCommand};
ghost use Rattle.abt_model.specs.declared.outcome.Outcome.{Outcome};
ghost use Rattle.abt_actor.specs.Actor.{ActorView, CarriesOut};
ghost use Rattle.abt_live.specs.Source.{AsksBy, GoesOn, new_actor};
ghost use Rattle.abt_live.specs.SourceJournal.{writes_in};

use crate::running::Running;
use abt_cell::{Answer, Vc};
use abt_keep::SeqStore;
use abt_model::{Cause, Heard, Outcome};
use abt_rate::Rate;
use abt_source::{Answered, Source, StartFault, StartRefused};
use std::marker::Model;
use std::mem;

/// A source with its store, in whichever state the source is. The count of its cells and its clock go on from those that it had before
/// (docs/LIVE.md, "A source").
#[derive(Drop)]
pub struct LiveSource<K: SeqStore> {
    vc: Vc,
    running: Running,
    store: K,
    // How many cells were emitted.
    cells: u64,
    // The last moment of a start or an emission.
    clock: u64,
}

impl<K: SeqStore> Model for LiveSource<K> {
    ghost use Rattle.abt_actor.specs.Actor.{ActorView, IsSound};
    ghost use Rattle.abt_live.specs.Running.{actor_in};

    ghost Value = { ActorView };

    ghost view = { λ s. actor_in s.running (K.content s.store) s.cells s.clock };

    ghost invariant = { λ s. IsSound (actor_in s.running (K.content s.store) s.cells s.clock) };
}

impl<K: SeqStore> LiveSource<K> {
    /// The source of a connection, which is down, with the store that it is to use, after so many cells, the last of which left at this
    /// moment, or before the last start.
    pub fn new(vc: Vc, store: K, cells: u64, clock: u64) -> LiveSource<K>
        requires { spacing_min * cells ≤ clock }
        ensures { result ≡ new_actor vc (K.content store) cells clock }
    {
        LiveSource {
            vc,
            running: Running::Down(Source::new(vc)),
            store,
            cells,
            clock,
        }
    }

    /// The greatest moment of a start or an emission, in picoseconds.
    pub fn clock(&self) -> u64
        ensures { result ≡ self.now.clock }
    {
        self.clock
    }

    /// Whether an ask for a rate has the store keep a record: the source is up, a number is left for it, and that or the need of the ask isn't
    /// kept yet.
    pub fn will_write(&self, rate: Rate) -> bool
        ensures { result ≡ writes_in self.now.state self.now.source rate }
    {
        !self.running.is_down() && self.running.will_write(rate)
    }

    /// Starts, as the event of that name does, or does nothing if the store doesn't give its record.
    pub fn start(&mut self, now: u64) -> Option<Outcome>
        ensures some { IfSome result
            (λ outcome. CarriesOut self.old (SourceCommand.Start now) outcome self.new) }
        ensures down { IfSome result (λ outcome. GoesOn self.old (SourceCommand.Start now) outcome self.new) }
        ensures none { IfNone result (self.new ≡ self.old) }
    {
        if !self.running.is_down() {
            return Some(Outcome::NotEnabled(Cause::Running));
        }
        if now < self.clock {
            return Some(Outcome::NotEnabled(Cause::ClockBack));
        }
        let Running::Down(source) = taken_out(&mut self.running, self.vc) else {
            unreachable!()
        };
        match source.start(&mut self.store, now) {
            Ok(source) => {
                self.running = Running::Idle(source);
                self.clock = now;
                Some(Outcome::Started)
            }
            Err(StartRefused { source, fault }) => {
                self.running = Running::Down(source);
                match fault {
                    StartFault::Keep => None,
                    StartFault::TimeRange => Some(Outcome::StartRefused(fault)),
                }
            }
        }
    }

    /// Asks for a rate, as the event of that name does under one of the plans of a store. The plan is that the store works, unless the
    /// store didn't keep the record that the ask had to write.
    pub fn ask(&mut self, rate: Rate) -> Outcome
        ensures { AsksBy self.old rate result self.new }
    {
        if self.running.is_down() {
            return Outcome::NotEnabled(Cause::Down);
        }
        // Names the last number, which has 32 bits.
        let _last = self.running.last();
        match taken_out(&mut self.running, self.vc).ask(&mut self.store, rate) {
            Ok((source, request)) => {
                self.running = Running::Asking(source);
                Outcome::Asked(request)
            }
            Err((running, fault)) => {
                self.running = running;
                Outcome::AskRefused(fault)
            }
        }
    }

    /// Repeats its open request, as the event of that name does.
    pub fn again(&self) -> Outcome
        ensures value { CarriesOut self.now SourceCommand.Again result self.now }
        ensures down { GoesOn self.now SourceCommand.Again result self.now }
    {
        match &self.running {
            Running::Down(_) => Outcome::NotEnabled(Cause::Down),
            Running::Idle(_) => Outcome::NotEnabled(Cause::NotAsking),
            Running::Asking(source) => Outcome::Repeated(source.again()),
        }
    }

    /// Emits a cell, as the event of that name does.
    pub fn emit(&mut self, at: u64) -> Outcome
        ensures value { CarriesOut self.old (SourceCommand.Emit at) result self.new }
        ensures down { GoesOn self.old (SourceCommand.Emit at) result self.new }
    {
        if self.running.is_down() {
            return Outcome::NotEnabled(Cause::Down);
        }
        if at < self.clock {
            return Outcome::NotEnabled(Cause::ClockBack);
        }
        // Names the rate, which is one that a code has.
        let _rate = self.running.rate();
        let cell = self.cells;
        match self.running.emit(at) {
            Ok(next) => {
                self.cells = cell + 1;
                self.clock = at;
                Outcome::Emitted { cell, next }
            }
            Err(fault) => Outcome::EmitRefused(fault),
        }
    }

    /// Takes an answer, as the event of that name does.
    pub fn told(&mut self, answer: &Answer) -> Outcome
        ensures value { CarriesOut self.old (SourceCommand.Told answer.now) result self.new }
        ensures down { GoesOn self.old (SourceCommand.Told answer.now) result self.new }
    {
        if !self.running.is_asking() {
            return Outcome::Told(Heard::Ignored);
        }
        let Running::Asking(source) = taken_out(&mut self.running, self.vc) else {
            unreachable!()
        };
        match source.answer(answer) {
            Answered::Raised(source) => {
                self.running = Running::Idle(source);
                Outcome::Told(Heard::Raised)
            }
            Answered::Refused(source) => {
                self.running = Running::Idle(source);
                Outcome::Told(Heard::Refused)
            }
            Answered::Ignored(source) => {
                self.running = Running::Asking(source);
                Outcome::Told(Heard::Ignored)
            }
        }
    }
}

// Takes a source out of its place, in which one of the same connection stands meanwhile that is down.
fn taken_out(running: &mut Running, vc: Vc) -> Running
    ensures { result ≡ running.old }
{
    mem::replace(running, Running::Down(Source::new(vc)))
}
