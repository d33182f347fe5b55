//! Where a net stands after events.
ghost use Rattle.std.specs.Prelude.{◌≡◌, List, IfOk};
ghost use Rattle.abt_audit.specs.Standing.{Stands};

use abt_model::Event;
use abt_net::Net;
use abt_node::Onward;
use abt_reason::Sightings;
use abt_world::World;
use std::alloc::{AllocError, Global};

// A net to which events happened: its world, and where its messages lie.
#[derive(Drop)]
pub(crate) struct Standing<'net> {
    pub world: World<'net>,
    pub sightings: Sightings,
}

// Where a net stands after events.
pub(crate) fn stand_after<'net>(
    alloc: Global,
    net: &'net Net,
    events: &[Event],
) -> Result<Standing<'net>, AllocError>
    ensures { IfOk result (λ standing. Stands net.now events.now standing.world standing.sightings) }
{
    // Names a type within an outcome, without which the checker can't follow one round the loop.
    let _ = Onward::Pass;
    let mut world = World::new(alloc, net)?;
    let mut sightings = Sightings::new(alloc);
    for event in events {
        let outcome = world.step(event)?;
        sightings.note(net, event, &outcome)?;
    }
    Ok(Standing { world, sightings })
}
