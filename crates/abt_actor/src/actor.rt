//! The actor that keeps a source.
ghost use Rattle.std.specs.Prelude.{◌≡◌, []};
ghost use Rattle.abt_model.specs.declared.command.SourceCommand.{SourceCommand};
ghost use Rattle.abt_actor.specs.Actor.{actor_of, awaited_in, is_asking_in, CarriesOut};
ghost use Rattle.abt_actor.specs.Carrying.{Carries};
ghost use Rattle.abt_actor.specs.Facts.{facts_in};

use crate::added::Added;
use crate::any_source::AnySource;
use abt_cell::{Answer, Vc};
use abt_facts::Fact;
use abt_keep::{MemoryStore, StorePlan};
use abt_model::{Cause, Heard, Outcome, SourceCommand};
use abt_rate::Rate;
use abt_source::{Answered, Source, StartRefused};
use std::marker::Model;
use std::mem;

/// A source with its store, whatever state it is in. The store, the count of its cells and its clock outlive a crash.
#[derive(Debug, Drop)]
pub struct SourceActor {
    vc: Vc,
    running: AnySource,
    store: MemoryStore,
    // How many cells were emitted.
    cells: u64,
    // The last moment of a start or an emission.
    clock: u64,
}

impl Model for SourceActor {
    ghost use Rattle.std.specs.Prelude.{◌≡◌};
    ghost use Rattle.abt_keep.specs.declared.plan.StorePlan.TheVariants.{Works};
    ghost use Rattle.abt_actor.specs.Actor.{ActorView, IsSound};
    ghost use Rattle.abt_actor.specs.Sources.{actor_in};

    ghost Value = { ActorView };

    ghost view = { λ a. actor_in a.running a.store.kept a.cells a.clock };

    ghost invariant = { λ a. (a.store.plan ≡ Works) × IsSound (actor_in a.running a.store.kept a.cells a.clock) };
}

impl SourceActor {
    /// The actor of a connection to which nothing has happened: its source is down, and its store empty.
    pub fn new(vc: Vc) -> SourceActor
        ensures { result ≡ actor_of vc [] }
    {
        SourceActor {
            vc,
            running: AnySource::Down(Source::new(vc)),
            store: MemoryStore::new(0),
            cells: 0,
            clock: 0,
        }
    }

    /// Carries out a command (docs/FORMATS.md, "Events and outcomes"). The plan of an ask is for its one write alone.
    pub fn step(&mut self, command: &SourceCommand) -> Outcome
        ensures { CarriesOut self.old command.now result self.new }
    {
        let (outcome, _) = self.carry_out(command);
        outcome
    }

    /// Carries out a command as [`SourceActor::step`] does, and gives the facts that it adds to those of the
    /// connection too.
    pub fn carry_out(&mut self, command: &SourceCommand) -> (Outcome, Added)
        ensures { Carries self.old command.now result.0 (facts_in result.1) self.new }
    {
        match *command {
            SourceCommand::Start { now } => self.start(now),
            SourceCommand::Ask { rate, plan } => self.ask(rate, plan),
            SourceCommand::Again => (self.again(), Added::Nothing),
            SourceCommand::Crash => self.crash(),
            SourceCommand::Emit { now } => self.emit(now),
            SourceCommand::Told(answer) => self.told(&answer),
        }
    }

    /// The rate at which the source shapes, which is zero while it is down.
    pub fn rate(&self) -> Rate
        ensures { result ≡ self.now.source.rate }
    {
        self.running.rate()
    }

    /// How many cells the source emitted, over restarts too.
    pub fn cells(&self) -> u64
        ensures { result ≡ self.now.cells }
    {
        self.cells
    }

    /// Whether the source waits for an answer.
    pub fn is_asking(&self) -> bool
        ensures { result ≡ is_asking_in self.now.state }
    {
        matches!(self.running, AnySource::Asking(_))
    }

    /// The number of the request whose answer the source waits for, if it waits for one.
    pub fn awaited(&self) -> Option<u32>
        ensures { result ≡ awaited_in self.now.state }
    {
        self.running.awaited()
    }

    /// The greatest moment of a start or an emission, over restarts too, in picoseconds; 0 before the first.
    pub fn clock(&self) -> u64
        ensures { result ≡ self.now.clock }
    {
        self.clock
    }

    fn start(&mut self, now: u64) -> (Outcome, Added)
        ensures { Carries self.old (SourceCommand.Start now) result.0 (facts_in result.1) self.new }
    {
        if !self.running.is_down() {
            return not_enabled(Cause::Running);
        }
        if now < self.clock {
            return not_enabled(Cause::ClockBack);
        }
        let AnySource::Down(source) = taken_out(&mut self.running, self.vc) else {
            unreachable!()
        };
        match source.start(&mut self.store, now) {
            Ok(source) => {
                let kept = source.kept();
                self.running = AnySource::Idle(source);
                self.clock = now;
                (Outcome::Started, Added::One(Fact::Started { now, kept }))
            }
            Err(StartRefused { source, fault }) => {
                self.running = AnySource::Down(source);
                (Outcome::StartRefused(fault), Added::Nothing)
            }
        }
    }

    fn ask(&mut self, rate: Rate, plan: StorePlan) -> (Outcome, Added)
        ensures { Carries self.old (SourceCommand.Ask rate plan) result.0 (facts_in result.1) self.new }
    {
        if self.running.is_down() {
            return not_enabled(Cause::Down);
        }
        let written = self.running.record_to_write(rate);
        self.store.plan(plan);
        let asked = taken_out(&mut self.running, self.vc).ask(&mut self.store, rate);
        self.store.plan(StorePlan::Works);
        match asked {
            Ok((source, request)) => {
                self.running = AnySource::Asking(source);
                let added = Added::of_request(&request, self.cells, written);
                (Outcome::Asked(request), added)
            }
            Err((running, fault)) => {
                self.running = running;
                let added = Added::of_refusal(fault, plan, written);
                (Outcome::AskRefused(fault), added)
            }
        }
    }

    fn again(&self) -> Outcome
        ensures { Carries self.now SourceCommand.Again result [] self.now }
    {
        match &self.running {
            AnySource::Down(_) => Outcome::NotEnabled(Cause::Down),
            AnySource::Idle(_) => Outcome::NotEnabled(Cause::NotAsking),
            AnySource::Asking(source) => Outcome::Repeated(source.again()),
        }
    }

    fn crash(&mut self) -> (Outcome, Added)
        ensures { Carries self.old SourceCommand.Crash result.0 (facts_in result.1) self.new }
    {
        if self.running.is_down() {
            return not_enabled(Cause::Down);
        }
        let source = taken_out(&mut self.running, self.vc).crash();
        self.running = AnySource::Down(source);
        (Outcome::Crashed, Added::One(Fact::Crashed))
    }

    fn emit(&mut self, at: u64) -> (Outcome, Added)
        ensures { Carries self.old (SourceCommand.Emit at) result.0 (facts_in result.1) self.new }
    {
        if self.running.is_down() {
            return not_enabled(Cause::Down);
        }
        if at < self.clock {
            return not_enabled(Cause::ClockBack);
        }
        let rate = self.running.rate();
        let cell = self.cells;
        match self.running.emit(at) {
            Ok(next) => {
                self.cells = cell + 1;
                self.clock = at;
                let added = Added::One(Fact::Emitted { cell, at, rate });
                (Outcome::Emitted { cell, next }, added)
            }
            Err(fault) => (Outcome::EmitRefused(fault), Added::Nothing),
        }
    }

    fn told(&mut self, answer: &Answer) -> (Outcome, Added)
        ensures { Carries self.old (SourceCommand.Told answer.now) result.0 (facts_in result.1) self.new }
    {
        if !self.is_asking() {
            return (Outcome::Told(Heard::Ignored), Added::Nothing);
        }
        let seq = answer.seq();
        let AnySource::Asking(source) = taken_out(&mut self.running, self.vc) else {
            unreachable!()
        };
        match source.answer(answer) {
            Answered::Raised(source) => {
                self.running = AnySource::Idle(source);
                let added = Added::One(Fact::Heard { seq, granted: true });
                (Outcome::Told(Heard::Raised), added)
            }
            Answered::Refused(source) => {
                self.running = AnySource::Idle(source);
                let added = Added::One(Fact::Heard {
                    seq,
                    granted: false,
                });
                (Outcome::Told(Heard::Refused), added)
            }
            Answered::Ignored(source) => {
                self.running = AnySource::Asking(source);
                (Outcome::Told(Heard::Ignored), Added::Nothing)
            }
        }
    }
}

// Takes a source out of its place, in which one of the same connection stands meanwhile that is down.
fn taken_out(running: &mut AnySource, vc: Vc) -> AnySource
    ensures { result ≡ running.old }
{
    mem::replace(running, AnySource::Down(Source::new(vc)))
}

// A command that can't be carried out.
fn not_enabled(cause: Cause) -> (Outcome, Added)
    ensures { result ≡ (Outcome.NotEnabled cause, Added.Nothing) }
{
    (Outcome::NotEnabled(cause), Added::Nothing)
}
