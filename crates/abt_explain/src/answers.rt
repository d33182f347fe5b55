//! What sources heard of their requests.
ghost use Rattle.std.specs.Prelude.{◌≡◌, ◌≤◌, ◌++◌, [], List, IfOk, OnOk, string_bytes, sum_by};
ghost use Rattle.abt_model.specs.declared.event.Event.{Event as EventSpec};
ghost use Rattle.abt_model.specs.Run.{facts_after, outcomes_of};
ghost use Rattle.abt_net.specs.Topology.{Topology};
ghost use Rattle.abt_world.specs.Standing.{StandsFor};
ghost use Rattle.abt_explain.specs.Answers as spec;

use abt_format::cells_text;
use abt_model::Heard;
use abt_net::Net;
use abt_node::Onward;
use abt_world::{Event, Outcome, World};
use std::alloc::{AllocError, Global};

// What sources heard of the requests whose answers they waited for.
#[derive(Drop)]
pub(crate) struct Answers {
    // A line for each yes and each no, in the order of the events.
    pub(crate) lines: String,
    // How many were a yes.
    pub(crate) granted: usize,
    // How many were a no.
    pub(crate) refused: usize,
}

// What the sources of a net to which nothing happened before hear in a run of events.
pub(crate) fn answers_of(alloc: Global, net: &Net, events: &[Event]) -> Result<Answers, AllocError>
    ensures lines { IfOk result
        (λ answers. string_bytes answers.lines ≡ spec.answer_lines net.now [] 0 events.now) }
    ensures granted { IfOk result
        (λ answers. answers.granted ≡ sum_by spec.granted_by (outcomes_of net.now events.now)) }
    ensures refused { IfOk result
        (λ answers. answers.refused ≡ sum_by spec.refused_by (outcomes_of net.now events.now)) }
{
    // Names a type within an outcome, without which the checker can't follow one round the loop.
    let _ = Onward::Pass;
    let mut world = World::new(alloc, net)?;
    let mut lines = String::new(alloc);
    let mut granted = 0;
    let mut refused = 0;
    for (index, event) in events.iter().enumerate() {
        let units = units_asked(&world, event);
        let outcome = world.step(event)?;
        granted += granted_by(&outcome);
        refused += refused_by(&outcome);
        push_answer(alloc, &mut lines, index as u64 + 1, event, units, &outcome)?;
    }
    Ok(Answers {
        lines,
        granted,
        refused,
    })
}

// What the request asked for, in units of 1/512 cell/s, that an event tells a source the answer to; 0 if it tells none.
fn units_asked(world: &World<'_>, event: &Event) -> u64
    ensures { (net : Topology) (events : List EventSpec) → StandsFor net events world.now →
        result ≡ spec.units_asked net (facts_after net events) event.now }
{
    let Event::Told { conn, seq, .. } = *event else {
        return 0;
    };
    match world.asked(conn, seq) {
        Some((_, ask)) => ask.units(),
        None => 0,
    }
}

// 1 if a source heard yes to the request whose answer it waited for.
fn granted_by(outcome: &Outcome) -> usize
    ensures value { result ≡ spec.granted_by outcome.now }
    ensures within { result ≤ 1 }
{
    match *outcome {
        Outcome::Told(Heard::Raised) => 1,
        _ => 0,
    }
}

// 1 if it heard no.
fn refused_by(outcome: &Outcome) -> usize
    ensures value { result ≡ spec.refused_by outcome.now }
    ensures within { result ≤ 1 }
{
    match *outcome {
        Outcome::Told(Heard::Refused) => 1,
        _ => 0,
    }
}

// The line of such an answer, behind a text; nothing for another event.
fn push_answer(
    alloc: Global,
    text: &mut String,
    number: u64,
    event: &Event,
    units: u64,
    outcome: &Outcome,
) -> Result<(), AllocError>
    ensures { OnOk result (string_bytes text.new ≡ string_bytes text.old ++
        spec.answer_text number event.now units outcome.now) }
{
    let Event::Told { conn, seq, .. } = *event else {
        return Ok(());
    };
    let Outcome::Told(heard) = *outcome else {
        return Ok(());
    };
    push_heard(alloc, text, number, conn, seq, units, heard)
}

// The line of an answer by what its source made of it, behind a text; nothing if the source didn't wait for it.
fn push_heard(
    alloc: Global,
    text: &mut String,
    number: u64,
    conn: u16,
    seq: u32,
    units: u64,
    heard: Heard,
) -> Result<(), AllocError>
    ensures { OnOk result (string_bytes text.new ≡ string_bytes text.old ++
        spec.heard_text number conn seq units heard) }
{
    match heard {
        Heard::Raised => push_verdict(alloc, text, number, conn, seq, units, "granted"),
        Heard::Refused => push_verdict(alloc, text, number, conn, seq, units, "refused"),
        Heard::Ignored => Ok(()),
    }
}

// What a connection was told of a request that asked for so many units.
fn push_verdict(
    alloc: Global,
    text: &mut String,
    number: u64,
    conn: u16,
    seq: u32,
    units: u64,
    verdict: &str,
) -> Result<(), AllocError>
    ensures { OnOk result (string_bytes text.new ≡ string_bytes text.old ++
        spec.verdict_text number conn seq units verdict.now) }
{
    let rate = cells_text(alloc, units)?;
    write!(
        text,
        "event {number}: connection {conn} is {verdict} {rate} cells/s by request {seq}\n"
    )
}
