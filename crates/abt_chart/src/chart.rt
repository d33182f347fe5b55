//! Charts of runs.
ghost use Rattle.std.specs.Prelude.{◌≡◌, ◌++◌, [], ◌∷◌, List, IfOk, OnOk};
ghost use Rattle.abt_chart.specs.Tellings.{told_after};
ghost use Rattle.abt_model.specs.Run.{facts_after};
ghost use Rattle.abt_model.specs.declared.event.Event.{Event as EventSpec};
ghost use Rattle.abt_net.specs.Topology.{IsWithinRules};
ghost use Rattle.abt_world.specs.Standing.{StandsFor};
ghost use Rattle.abt_chart.specs.Charts.{IsChart};
ghost use Rattle.abt_chart.specs.Frames.{frame_after, frames_from};

use crate::crossings::{Crossing, crossings_of};
use crate::frame::{Frame, frame_of};
use crate::{Told, told_of};
use abt_model::Sequence;
use abt_net::Net;
use abt_node::Onward;
use abt_world::{Event, World};
use std::alloc::{AllocError, Global};

/// What a picture of a run shows.
#[derive(Debug, Drop)]
pub struct Chart {
    /// What each event of the whole run told.
    pub told: Sequence<Told>,
    /// The first event that is shown, counted from 0.
    pub first: usize,
    /// What each event that is shown brings and sends.
    pub crossings: Sequence<Crossing>,
    /// What is held and shaped before the first event that is shown, and after each.
    pub frames: Sequence<Frame>,
}

/// What a picture shows of the events `shown` of a run over a net to which nothing happened before, in which `before` come before them
/// and `after` behind them.
///
/// # Errors
/// If memory is refused.
pub fn chart_of(
    alloc: Global,
    net: &Net,
    before: &[Event],
    shown: &[Event],
    after: &[Event],
) -> Result<Chart, AllocError>
    ensures { IfOk result (IsChart net.now before.now shown.now after.now) }
{
    let mut world = World::new(alloc, net)?;
    let mut told = Sequence::new(alloc);
    carry(&mut world, net, before, &mut told)?;
    let frames = carry_shown(alloc, &mut world, net, shown, &mut told)?;
    carry(&mut world, net, after, &mut told)?;
    let crossings = crossings_of(alloc, told.as_slice(), before.len(), shown.len())?;
    Ok(Chart {
        told,
        first: before.len(),
        crossings,
        frames,
    })
}

// Lets an event happen, and keeps what it told.
fn take(
    world: &mut World<'_>,
    net: &Net,
    event: &Event,
    told: &mut Sequence<Told>,
) -> Result<(), AllocError>
    ensures stands { (past : List EventSpec) → StandsFor net.now past world.old →
        OnOk result (StandsFor net.now (past ++ event.now ∷ []) world.new) }
    ensures told { (past : List EventSpec) → StandsFor net.now past world.old →
        told.old ≡ told_after net.now past →
        OnOk result (told.new ≡ told_after net.now (past ++ event.now ∷ [])) }
{
    // Names a type within an outcome, without which the checker can't follow one.
    let _ = Onward::Pass;
    let outcome = world.step(event)?;
    told.push(told_of(net, event, &outcome))?;
    Ok(())
}

// Lets events happen, and keeps what they told.
fn carry(
    world: &mut World<'_>,
    net: &Net,
    events: &[Event],
    told: &mut Sequence<Told>,
) -> Result<(), AllocError>
    ensures stands { (past : List EventSpec) → StandsFor net.now past world.old →
        OnOk result (StandsFor net.now (past ++ events.now) world.new) }
    ensures told { (past : List EventSpec) → StandsFor net.now past world.old →
        told.old ≡ told_after net.now past →
        OnOk result (told.new ≡ told_after net.now (past ++ events.now)) }
{
    for event in events {
        take(world, net, event, told)?;
    }
    Ok(())
}

// Lets events happen, and keeps what they told, and what is held and shaped before the first and after each.
fn carry_shown(
    alloc: Global,
    world: &mut World<'_>,
    net: &Net,
    events: &[Event],
    told: &mut Sequence<Told>,
) -> Result<Sequence<Frame>, AllocError>
    ensures stands { (past : List EventSpec) → StandsFor net.now past world.old →
        OnOk result (StandsFor net.now (past ++ events.now) world.new) }
    ensures told { (past : List EventSpec) → StandsFor net.now past world.old →
        told.old ≡ told_after net.now past →
        OnOk result (told.new ≡ told_after net.now (past ++ events.now)) }
    ensures frames { (past : List EventSpec) → StandsFor net.now past world.old →
        IfOk result (λ frames. frames ≡ frames_from net.now (facts_after net.now past) events.now) }
    ensures rules { OnOk result (IsWithinRules net.now) }
{
    let mut frames = opening(alloc, world, net)?;
    for event in events {
        take(world, net, event, told)?;
        let frame = frame_of(alloc, world, net)?;
        frames.push(frame)?;
    }
    Ok(frames)
}

// What is held and shaped before the first event that is shown.
fn opening(alloc: Global, world: &World<'_>, net: &Net) -> Result<Sequence<Frame>, AllocError>
    ensures value { (past : List EventSpec) → StandsFor net.now past world.now →
        IfOk result (λ frames. frames ≡ frame_after net.now (facts_after net.now past) ∷ []) }
    ensures rules { OnOk result (IsWithinRules net.now) }
{
    let mut frames = Sequence::new(alloc);
    let frame = frame_of(alloc, world, net)?;
    frames.push(frame)?;
    Ok(frames)
}
