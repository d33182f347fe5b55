//! Lists of events with what a walk answers to them.
use crate::generate::Generator;
use crate::walk::{Standing, Walk};
use abt_node::Onward;
use abt_world::{Event, Net, Outcome};
use std::alloc::{AllocError, Global};

/// A list of events, what a walk answered to each, and how the net stood at its end.
#[derive(Debug, Drop)]
pub struct Walked {
    pub events: Vec<Event>,
    pub outcomes: Vec<Outcome>,
    pub end: Standing,
}

/// Walks a net through events.
pub fn walk_through(alloc: Global, net: &Net, events: Vec<Event>) -> Result<Walked, AllocError> {
    // Names a type within an outcome, without which the checker can't follow one round the loop.
    let _ = Onward::Pass;
    let mut walk = Walk::new(alloc, net);
    let mut outcomes = Vec::new(alloc);
    for event in &events {
        outcomes.push(walk.step(alloc, event)?)?;
    }
    let end = walk.standing(alloc)?;
    Ok(Walked {
        events,
        outcomes,
        end,
    })
}

/// A list of so many events that are drawn, each by what has happened before it, so that most are enabled.
pub fn generated(alloc: Global, net: &Net, seed: u64, count: u64) -> Result<Walked, AllocError> {
    // Names a type within an outcome, without which the checker can't follow one round the loop.
    let _ = Onward::Pass;
    let mut generator = Generator::new(seed);
    let mut walk = Walk::new(alloc, net);
    let mut events = Vec::new(alloc);
    let mut outcomes = Vec::new(alloc);
    for _ in 0..count {
        let event = generator.event(alloc, &walk)?;
        outcomes.push(walk.step(alloc, &event)?)?;
        events.push(event)?;
    }
    let end = walk.standing(alloc)?;
    Ok(Walked {
        events,
        outcomes,
        end,
    })
}
