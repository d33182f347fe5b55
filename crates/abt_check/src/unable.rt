//! Events that aren't enabled, and cells that wait for an answer.
ghost use Rattle.std.specs.Prelude.{◌≡◌, ◌+◌, ◌<◌, ◌^◌, ◌++◌, List, [], IfOk, OnOk, map, take, string_bytes};
ghost use Rattle.abt_model.specs.declared.event.Event.{Event as EventSpec};
ghost use Rattle.abt_model.specs.Run.{facts_after};
ghost use Rattle.abt_net.specs.Topology.{Topology};
ghost use Rattle.abt_world.specs.Standing.{StandsFor};
ghost use Rattle.abt_reason.specs.Sightings.{AreSightings};
ghost use Rattle.abt_check.specs.Seen.{seen};
ghost use Rattle.abt_check.specs.Unable as spec;

use abt_format::push_outcome;
use abt_model::{Cause, Event};
use abt_net::Net;
use abt_node::Onward;
use abt_reason::{Grounds, Numbers, Sightings, Sought, grounds_of, push_reason};
use abt_shaper::ShapeFault;
use abt_world::{Outcome, World};
use std::alloc::{AllocError, Global};

// Which events are looked for in a run.
#[derive(Clone, Copy, Debug, PartialEq, Eq)]
pub(crate) enum Look {
    // Those that aren't enabled.
    Strict,
    // Those, and cells that don't leave at rate 0 while their source waits for an answer that may raise it.
    Wide,
}

// An event that comes to nothing: its place among the events, from 0, and what is said of it.
#[derive(Debug, Drop)]
pub(crate) struct Unable {
    pub(crate) index: usize,
    pub(crate) text: String,
}

// The first so many events of a run that come to nothing.
pub(crate) fn unable_in(
    alloc: Global,
    net: &Net,
    events: &[Event],
    look: Look,
    most: usize,
) -> Result<Vec<Unable>, AllocError>
    ensures { IfOk result
        (λ found. map seen found.items ≡ take most (spec.unable_in look net.now [] 0 events.now)) }
{
    // Names a type within an outcome, without which the checker can't follow one round the loop.
    let _ = Onward::Pass;
    let mut world = World::new(alloc, net)?;
    let mut sightings = Sightings::new(alloc);
    let mut found = Vec::new(alloc);
    for (index, event) in events.iter().enumerate() {
        let grounds = grounds_of(&world, &sightings, net, event);
        let pending = pending(&world, &sightings, event);
        let outcome = world.step(event)?;
        sightings.note(net, event, &outcome)?;
        keep(
            alloc, &mut found, look, index, &grounds, pending, &outcome, most,
        )?;
    }
    Ok(found)
}

// The message whose answer the source of a cell waits for, if that asks for a rate, and where it lies.
fn pending(world: &World<'_>, sightings: &Sightings, event: &Event) -> Option<Sought>
    ensures { (net : Topology) (events : List EventSpec) → StandsFor net events world.now →
        AreSightings net (facts_after net events) sightings.now →
        result ≡ spec.pending net (facts_after net events) event.now }
{
    let Event::Emit { conn, .. } = *event else {
        return None;
    };
    let seq = world.progress(conn)?.awaited?;
    let (_, ask) = world.asked(conn, seq)?;
    if ask.units() == 0 {
        return None;
    }
    let told = Event::Told {
        conn,
        seq,
        granted: true,
    };
    sightings.sought(&told)
}

// Puts an event behind those that come to nothing, if it does, and there is room.
fn keep(
    alloc: Global,
    found: &mut Vec<Unable>,
    look: Look,
    index: usize,
    grounds: &Grounds,
    pending: Option<Sought>,
    outcome: &Outcome,
    most: usize,
) -> Result<(), AllocError>
    requires { index + 1 < 2 ^ 64 }
    ensures { OnOk result (map seen found.new.items ≡
        spec.with_more most (map seen found.old.items)
        (spec.unable_at look index grounds.now pending outcome.now)) }
{
    if found.len() >= most {
        return Ok(());
    }
    let number = index as u64 + 1;
    match (look, outcome, pending) {
        (_, Outcome::NotEnabled(_), _) => {
            let text = said_of(alloc, number, grounds, outcome)?;
            found.push(Unable { index, text })?;
            Ok(())
        }
        (Look::Wide, Outcome::EmitRefused(ShapeFault::Zero), Some(sought)) => {
            let text = waiting_text(alloc, number, grounds, outcome, sought)?;
            found.push(Unable { index, text })?;
            Ok(())
        }
        _ => Ok(()),
    }
}

// The event of a number, from 1, and its outcome with the reason.
fn said_of(
    alloc: Global,
    number: u64,
    grounds: &Grounds,
    outcome: &Outcome,
) -> Result<String, AllocError>
    ensures { IfOk result
        (λ text. string_bytes text ≡ spec.said_of number grounds.now outcome.now) }
{
    let mut answer = String::new(alloc);
    push_outcome(&mut answer, outcome)?;
    push_reason(alloc, &mut answer, grounds, outcome)?;
    format!(in alloc; "event {number} is {answer}")
}

// The same of a cell, and where the message lies whose answer its source waits for.
fn waiting_text(
    alloc: Global,
    number: u64,
    grounds: &Grounds,
    outcome: &Outcome,
    sought: Sought,
) -> Result<String, AllocError>
    ensures { IfOk result
        (λ text. string_bytes text ≡ spec.waiting_text number grounds.now outcome.now sought) }
{
    let mut text = said_of(alloc, number, grounds, outcome)?;
    let lies = Grounds {
        numbers: Numbers::Nothing,
        sought: Some(sought),
    };
    push_reason(
        alloc,
        &mut text,
        &lies,
        &Outcome::NotEnabled(Cause::NotSent),
    )?;
    Ok(text)
}
