//! What stands in a picture at a moment of a run.
ghost use Rattle.std.specs.Prelude.{◌≡◌, List, IfOk, OnOk};
ghost use Rattle.abt_model.specs.declared.event.Event.{Event as EventSpec};
ghost use Rattle.abt_model.specs.Run.{facts_after};
ghost use Rattle.abt_net.specs.Topology.{IsWithinRules};
ghost use Rattle.abt_world.specs.Standing.{StandsFor};
ghost use Rattle.abt_chart.specs.Frames as spec;

use crate::holdings::{capacities_of, leasts_of, rates_of, stacks_of};
use abt_model::Sequence;
use abt_net::Net;
use abt_world::World;
use std::alloc::{AllocError, Global};

/// What ports hold and sources shape at, at a moment of a run. All are units of 1/512 cell/s.
#[derive(Debug, Drop)]
pub struct Frame {
    /// The rate at which the source of each connection shapes.
    pub rates: Sequence<u64>,
    /// The least that a hop of its path holds for each connection.
    pub leasts: Sequence<u64>,
    /// For each port, what each connection of the net holds there.
    pub stacks: Sequence<Sequence<u64>>,
    /// The capacity of each port that is in force.
    pub capacities: Sequence<u64>,
}

/// What stands in a picture after what happened to a world.
///
/// # Errors
/// If memory is refused.
pub fn frame_of(alloc: Global, world: &World<'_>, net: &Net) -> Result<Frame, AllocError>
    ensures value { (events : List EventSpec) → StandsFor net.now events world.now →
        IfOk result (λ frame. frame ≡ spec.frame_after net.now (facts_after net.now events)) }
    ensures rules { OnOk result (IsWithinRules net.now) }
{
    Ok(Frame {
        rates: rates_of(alloc, world, net)?,
        leasts: leasts_of(alloc, world, net)?,
        stacks: stacks_of(alloc, world, net)?,
        capacities: capacities_of(alloc, world, net)?,
    })
}
