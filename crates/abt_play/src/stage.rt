//! The events of a play.
ghost use Rattle.std.specs.Prelude.{◌≡◌, ◌++◌, [], ◌∷◌, List, IfOk, OnOk};
ghost use Rattle.abt_model.specs.Run.{facts_after};
ghost use Rattle.abt_model.specs.declared.event.Event.{Event as EventSpec};
ghost use Rattle.abt_net.specs.Topology.{Topology};
ghost use Rattle.abt_world.specs.Headline.{HeadlineHolds};
ghost use Rattle.abt_play.specs.Played as spec;
ghost use Rattle.abt_play.specs.Played.{Happens, IsPlay};
ghost use Rattle.abt_play.specs.Stage.{IsOnStage};

use crate::fault::StopFault;
use crate::playing::Played;
use abt_model::{Event, Outcome, Sequence};
use abt_net::Net;
use abt_node::Onward;
use abt_world::World;
use std::alloc::{AllocError, Global};

/// The most events of a play.
const EVENTS_MAX: usize = 1_000_000;

/// A net at work, and the events that happened to it with their outcomes. All of them were enabled.
#[derive(Drop)]
pub(crate) struct Stage<'net> {
    pub(crate) world: World<'net>,
    pub(crate) events: Sequence<Event>,
    pub(crate) outcomes: Sequence<Outcome>,
}

impl<'net> Stage<'net> {
    // A net to which nothing has happened.
    pub(crate) fn new(alloc: Global, net: &'net Net) -> Result<Stage<'net>, AllocError>
        ensures { IfOk result (IsOnStage net.now) }
    {
        Ok(Stage {
            world: World::new(alloc, net)?,
            events: Sequence::new(alloc),
            outcomes: Sequence::new(alloc),
        })
    }

    // Lets an event happen, if it is enabled, and gives its outcome; `None` if it isn't enabled.
    pub(crate) fn attempt(&mut self, event: &Event) -> Result<Option<Outcome>, StopFault>
        ensures stage { (net : Topology) → IsOnStage net self.old → OnOk result (IsOnStage net self.new) }
        ensures happens { (net : Topology) → IsOnStage net self.old →
            IfOk result (λ found. Happens net self.old.events event.now found self.new.events) }
    {
        // Names a type within an outcome, without which the checker can't follow one.
        let _ = Onward::Pass;
        if self.events.len() >= EVENTS_MAX {
            return Err(StopFault::Events);
        }
        let outcome = self.world.step(event)?;
        if !is_enabled(&outcome) {
            return Ok(None);
        }
        self.note(event, &outcome)?;
        Ok(Some(outcome))
    }

    // Notes an event that has happened, and its outcome.
    fn note(&mut self, event: &Event, outcome: &Outcome) -> Result<(), AllocError>
        ensures events { OnOk result (self.new.events ≡ self.old.events ++ event.now ∷ []) }
        ensures outcomes { OnOk result (self.new.outcomes ≡ self.old.outcomes ++ outcome.now ∷ []) }
        ensures world { self.new.world ≡ self.old.world }
    {
        // Names a type within an outcome, without which the checker can't follow one.
        let _ = Onward::Pass;
        self.events.push(*event)?;
        self.outcomes.push(*outcome)?;
        Ok(())
    }

    // The whole play, which ends here.
    pub(crate) fn end(self, alloc: Global) -> Result<Played, AllocError>
        ensures play { (net : Topology) → IsOnStage net self.entry → IfOk result (IsPlay net) }
        ensures headline { (net : Topology) → IsOnStage net self.entry → IfOk result (λ played.
            (before after : List EventSpec) → before ++ after ≡ played.events →
            HeadlineHolds net (facts_after net before)) }
    {
        let Stage {
            world,
            events,
            outcomes,
        } = self;
        let trace = world.end(alloc, outcomes)?;
        Ok(Played { events, trace })
    }
}

// Whether an outcome is that of an event that could happen.
fn is_enabled(outcome: &Outcome) -> bool
    ensures { result ≡ spec.is_enabled outcome.now }
{
    !matches!(outcome, Outcome::NotEnabled(_))
}
