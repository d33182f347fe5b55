//! A net that events happen to.
ghost use Rattle.std.specs.Prelude.{◌≡◌, ◌∷◌, ◌++◌, [], List, IfOk, OnOk, true};
ghost use Rattle.abt_net.specs.Topology.{Topology};
ghost use Rattle.abt_model.specs.declared.event.Event.{Event as EventSpec};
ghost use Rattle.abt_model.specs.Outcomes.{outcome_of};
ghost use Rattle.abt_model.specs.Run.{facts_after};
ghost use Rattle.abt_reason.specs.Grounds.{grounds_of};
ghost use Rattle.abt_world.specs.Headline.{HeadlineHolds};
ghost use Rattle.abt_step.specs.NetStates.{state_after};
ghost use Rattle.abt_step.specs.Possible.{asked_by, possible_after};
ghost use Rattle.abt_step.specs.Stepped.{shown_after, wanted_possible, wanted_state};
ghost use Rattle.abt_step.specs.Steps.{WorksAt};

use crate::net_state::{NetState, state_of};
use crate::possible::{Possible, possible_of};
use crate::shown::Shown;
use abt_model::{Event, Outcome};
use abt_net::Net;
use abt_node::Onward;
use abt_plans::AnswerForm;
use abt_reason::{Grounds, Sightings, grounds_of};
use abt_world::World;
use std::alloc::{AllocError, Global};

// A net at work, the requests that were asked, by connection and number, and where their messages lie.
#[derive(Drop)]
pub(crate) struct NetAtWork<'net> {
    net: &'net Net,
    world: World<'net>,
    sightings: Sightings,
    asks: Vec<(u16, u32)>,
}

impl<'net> NetAtWork<'net> {
    // The net behind some events, whose outcomes aren't kept.
    pub(crate) fn opened(
        alloc: Global,
        net: &'net Net,
        events: &[Event],
    ) -> Result<NetAtWork<'net>, AllocError>
        ensures { IfOk result (WorksAt net.now events.now) }
    {
        // Names a type within an outcome, without which the checker can't follow one round the loop.
        let _ = Onward::Pass;
        let mut work = NetAtWork {
            net,
            world: World::new(alloc, net)?,
            sightings: Sightings::new(alloc),
            asks: Vec::new(alloc),
        };
        for event in events {
            let _ = work.step(event)?;
        }
        Ok(work)
    }

    // Lets an event happen, and gives its outcome.
    pub(crate) fn step(&mut self, event: &Event) -> Result<Outcome, AllocError>
        ensures { (net : Topology) (events : List EventSpec) → WorksAt net events self.old →
            IfOk result (λ outcome. (outcome ≡ outcome_of net (facts_after net events) event.now)
            × WorksAt net (events ++ event.now ∷ []) self.new) }
    {
        // Names a type within an outcome, without which the checker can't follow one.
        let _ = Onward::Pass;
        let outcome = self.world.step(event)?;
        self.sightings.note(self.net, event, &outcome)?;
        push_asked(&mut self.asks, event, &outcome)?;
        Ok(outcome)
    }

    // What the outcome of an event can be told by.
    pub(crate) fn grounds(&self, event: &Event) -> Grounds
        ensures { (net : Topology) (events : List EventSpec) → WorksAt net events self.now →
            result ≡ grounds_of net (facts_after net events) event.now }
    {
        grounds_of(&self.world, &self.sightings, self.net, event)
    }

    // The state of the net.
    pub(crate) fn state(&self, alloc: Global) -> Result<NetState, AllocError>
        ensures { (net : Topology) (events : List EventSpec) → WorksAt net events self.now →
            IfOk result (λ state. state ≡ state_after net (facts_after net events)) }
    {
        state_of(alloc, self.net, &self.world)
    }

    // What can happen next of what was sent.
    pub(crate) fn possible(&self, alloc: Global) -> Result<Possible, AllocError>
        ensures { (net : Topology) (events : List EventSpec) → WorksAt net events self.now →
            IfOk result (λ possible. possible ≡ possible_after net (facts_after net events)) }
    {
        let asks = self.asks.as_slice();
        possible_of(alloc, self.net, &self.world, &self.sightings, asks)
    }

    // What a form shows behind an answer.
    pub(crate) fn shown(&self, alloc: Global, form: AnswerForm) -> Result<Shown, AllocError>
        ensures { (net : Topology) (events : List EventSpec) → WorksAt net events self.now →
            IfOk result (λ shown. shown ≡ shown_after form net events) }
    {
        Ok(Shown {
            state: self.wanted_state(alloc, form.state)?,
            possible: self.wanted_possible(alloc, form.possible)?,
        })
    }

    fn wanted_state(&self, alloc: Global, is_wanted: bool) -> Result<Option<NetState>, AllocError>
        ensures { (net : Topology) (events : List EventSpec) → WorksAt net events self.now →
            IfOk result (λ state. state ≡ wanted_state is_wanted net events) }
    {
        if is_wanted {
            return Ok(Some(self.state(alloc)?));
        }
        Ok(None)
    }

    fn wanted_possible(
        &self,
        alloc: Global,
        is_wanted: bool,
    ) -> Result<Option<Possible>, AllocError>
        ensures { (net : Topology) (events : List EventSpec) → WorksAt net events self.now →
            IfOk result (λ possible. possible ≡ wanted_possible is_wanted net events) }
    {
        if is_wanted {
            return Ok(Some(self.possible(alloc)?));
        }
        Ok(None)
    }

    // Whether all is safe, as it is.
    pub(crate) fn is_safe(&self) -> bool
        ensures value { (net : Topology) (events : List EventSpec) →
            WorksAt net events self.now → result ≡ true }
        ensures headline { (net : Topology) (events : List EventSpec) →
            WorksAt net events self.now → HeadlineHolds net (facts_after net events) }
    {
        self.world.safe()
    }
}

// Adds the request that an event asks, by its outcome.
fn push_asked(
    asks: &mut Vec<(u16, u32)>,
    event: &Event,
    outcome: &Outcome,
) -> Result<(), AllocError>
    ensures { OnOk result
        (asks.new.items ≡ asks.old.items ++ asked_by event.now outcome.now) }
{
    match *event {
        Event::Ask { conn, .. } => match outcome {
            Outcome::Asked(request) => {
                asks.push((conn, request.seq()))?;
                Ok(())
            }
            _ => Ok(()),
        },
        _ => Ok(()),
    }
}
