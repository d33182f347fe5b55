//! Whole lists of events.
ghost use Rattle.std.specs.Prelude.{◌≡◌, ◌++◌, List, IfOk, OnOk};
ghost use Rattle.abt_model.specs.Run.{facts_after};
ghost use Rattle.abt_model.specs.declared.event.Event.{Event};
ghost use Rattle.abt_model.specs.Traces.{IsTrace};
ghost use Rattle.abt_world.specs.Headline.{HeadlineHolds};

use crate::world::World;
use abt_model::{Event, Sequence, Trace};
use abt_net::Net;
use abt_node::Onward;
use std::alloc::{AllocError, Global};

/// Lets events happen to a net to which nothing happened before, and gives the outcome of each and what is left in
/// the end.
///
/// # Errors
/// If memory is refused there is no trace, not even of the events before.
pub fn run(alloc: Global, net: &Net, events: &[Event]) -> Result<Trace, AllocError>
    ensures trace { IfOk result (IsTrace net.now events.now) }
    ensures headline { (before after : List Event) → before ++ after ≡ events.now →
        OnOk result (HeadlineHolds net.now (facts_after net.now before)) }
{
    // Names a type within an outcome, without which the checker can't follow one round the loop.
    let _ = Onward::Pass;
    let mut world = World::new(alloc, net)?;
    let mut outcomes = Sequence::with_room(alloc, events.len())?;
    for event in events {
        outcomes.push(world.step(event)?)?;
    }
    world.end(alloc, outcomes)
}
