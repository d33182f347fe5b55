//! The events that are placed so far.
ghost use Rattle.std.specs.Prelude.{◌≡◌, ◌++◌, ◌∷◌, [], List, length, IfOk, OnOk};
ghost use Rattle.abt_net.specs.Topology.{Topology};
ghost use Rattle.abt_model.specs.declared.event.Event.{Event as EventSpec};
ghost use Rattle.abt_world.specs.Standing.{StandsFor};
ghost use Rattle.abt_weave.specs.Actors.{IsAmong, place_in};
ghost use Rattle.abt_weave.specs.Progress.{IsProgressOf};

use crate::Actor;
use crate::weave_input::WeaveInput;
use abt_model::Event;
use abt_world::World;
use std::alloc::{AllocError, Global};

/// The events that are placed, the world after them, and how many entries of each actor they are.
#[derive(Drop)]
pub(crate) struct Progress<'run> {
    pub world: World<'run>,
    pub events: Vec<Event>,
    pub source_places: Vec<usize>,
    pub port_places: Vec<usize>,
}

impl<'run> Progress<'run> {
    // Nothing is placed.
    pub(crate) fn new(alloc: Global, given: &WeaveInput<'run>) -> Result<Progress<'run>, AllocError>
        ensures { IfOk result
            (λ progress.
            IsProgressOf given.now progress) }
    {
        let world = World::new(alloc, given.net)?;
        let source_places = vec![in alloc; 0usize; given.sources.len()]?;
        let port_places = vec![in alloc; 0usize; given.ports.len()]?;
        Ok(Progress {
            world,
            events: Vec::new(alloc),
            source_places,
            port_places,
        })
    }

    // How many entries of an actor are placed.
    pub(crate) fn place_of(&self, actor: Actor) -> usize
        requires { IsAmong (length self.now.source_places.items) (length self.now.port_places.items) actor }
        ensures { result ≡ place_in self.now.source_places.items self.now.port_places.items actor }
    {
        match actor {
            Actor::Source(conn) => self.source_places[usize::from(conn)],
            Actor::Port(port) => self.port_places[usize::from(port)],
        }
    }
}

// The world after these events.
pub(crate) fn world_after<'run>(
    alloc: Global,
    given: &WeaveInput<'run>,
    events: &[Event],
) -> Result<World<'run>, AllocError>
    ensures { IfOk result (StandsFor given.now.net.now events.now) }
{
    let mut world = World::new(alloc, given.net)?;
    for event in events {
        carry_on(&mut world, event)?;
    }
    Ok(world)
}

// Lets an event happen, whatever its outcome.
fn carry_on(world: &mut World<'_>, event: &Event) -> Result<(), AllocError>
    ensures { (net : Topology) (events : List EventSpec) → StandsFor net events world.old →
        OnOk result (StandsFor net (events ++ event.now ∷ []) world.new) }
{
    match world.step(event) {
        Ok(_) => Ok(()),
        Err(refused) => Err(refused),
    }
}
