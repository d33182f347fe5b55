//! Events that are tried.
ghost use Rattle.std.specs.Prelude.{◌≡◌, List, IfOk};
ghost use Rattle.abt_net.specs.Topology.{Topology};
ghost use Rattle.abt_model.specs.declared.event.Event.{Event as EventSpec};
ghost use Rattle.abt_world.specs.Standing.{StandsFor};
ghost use Rattle.abt_weave.specs.Candidates as candidates;
ghost use Rattle.abt_weave.specs.Tried.{IsOwnVerdict, IsOwnTried, IsVisitVerdict, IsVisitTried, IsTurnTried};

use crate::same::{is_enabled, is_same_outcome, is_same_reply, reply_of};
use abt_journal::PortReply;
use abt_model::{Event, Outcome};
use abt_world::World;
use std::alloc::AllocError;

/// The outcome of trying an event.
#[derive(Clone, Copy, Debug, PartialEq, Eq)]
pub(crate) enum Tried {
    /// Its outcome is the one that the journal has.
    Agrees,
    /// Its outcome is another one.
    Differs,
    /// It can't happen, and nothing has.
    Absent,
}

// Whether an event is an answer that a source is told.
fn is_told(event: &Event) -> bool
    ensures { result ≡ candidates.is_told event.now }
{
    matches!(event, Event::Told { .. })
}

/// Lets a source do something whose outcome the journal has. A command may also be one that isn't enabled.
pub(crate) fn try_own(
    world: &mut World<'_>,
    event: &Event,
    told: &Outcome,
) -> Result<Tried, AllocError>
    ensures { (net : Topology) (events : List EventSpec) → StandsFor net events world.old →
        IfOk result (IsOwnTried net events event.now told.now world.new) }
{
    match world.step(event) {
        Ok(outcome) => Ok(own_tried(event, &outcome, told)),
        Err(refused) => Err(refused),
    }
}

fn own_tried(event: &Event, outcome: &Outcome, told: &Outcome) -> Tried
    ensures { IsOwnVerdict event.now outcome.now told.now result }
{
    if is_told(event) && !is_enabled(outcome) {
        return Tried::Absent;
    }
    if is_same_outcome(outcome, told) {
        return Tried::Agrees;
    }
    Tried::Differs
}

/// Lets an event come to a port whose reply the journal has.
pub(crate) fn try_visit(
    world: &mut World<'_>,
    event: &Event,
    told: &PortReply,
) -> Result<Tried, AllocError>
    ensures { (net : Topology) (events : List EventSpec) → StandsFor net events world.old →
        IfOk result (IsVisitTried net events event.now told.now world.new) }
{
    match world.step(event) {
        Ok(outcome) => Ok(visit_tried(&outcome, told)),
        Err(refused) => Err(refused),
    }
}

fn visit_tried(outcome: &Outcome, told: &PortReply) -> Tried
    ensures { IsVisitVerdict outcome.now told.now result }
{
    if !is_enabled(outcome) {
        return Tried::Absent;
    }
    match reply_of(*outcome) {
        Some(reply) if is_same_reply(&reply, told) => Tried::Agrees,
        _ => Tried::Differs,
    }
}

/// Lets a request that the last hop passed be turned into a yes, and says whether it was.
pub(crate) fn try_turn(world: &mut World<'_>, event: &Event) -> Result<bool, AllocError>
    ensures { (net : Topology) (events : List EventSpec) → StandsFor net events world.old →
        IfOk result (IsTurnTried net events event.now world.new) }
{
    match world.step(event) {
        Ok(outcome) => Ok(is_enabled(&outcome)),
        Err(refused) => Err(refused),
    }
}
