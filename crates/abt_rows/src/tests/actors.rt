//! Stories of one source. Each command stands beside the outcome that docs/RULES.md, "Source", and docs/FORMATS.md, "Events
//! and outcomes", give it.
mod cells;
mod facts;
mod requests;
mod restarts;
mod writes;

use super::{same, same_at};
use abt_actor::{Added, Cause, Heard, Outcome, SourceActor, SourceCommand};
use abt_cell::{Answer, Request, Vc};
use abt_facts::Fact;
use abt_keep::StorePlan;
use abt_rate::Rate;
use abt_shaper::ShapeFault;
use abt_source::{AskFault, StartFault};
use std::process::Abort;
use std::test::Fail;

// 400, 600 and 1,000 cells per second.
fn slow() -> Rate {
    Rate::from_code(0x5120)
}

fn middle() -> Rate {
    Rate::from_code(0x5258)
}

fn fast() -> Rate {
    Rate::from_code(0x53e8)
}

// The connection of the worked examples (docs/FORMATS.md, "Test cells").
fn connection() -> Result<Vc, Fail> {
    Ok(Vc::new(1, 100).ok_or("a channel")?)
}

fn request(seq: u32, floor: Rate, ask: Rate) -> Result<Request, Fail> {
    Ok(Request::new(connection()?, seq, floor, ask).ok_or("a request")?)
}

fn ask(rate: Rate) -> SourceCommand {
    SourceCommand::Ask {
        rate,
        plan: StorePlan::Works,
    }
}

fn yes(request: Request) -> SourceCommand {
    SourceCommand::Told(Answer::of(&request, true))
}

fn no(request: Request) -> SourceCommand {
    SourceCommand::Told(Answer::of(&request, false))
}

fn start(now: u64) -> SourceCommand {
    SourceCommand::Start { now }
}

fn emit(now: u64) -> SourceCommand {
    SourceCommand::Emit { now }
}

fn told(heard: Heard) -> Outcome {
    Outcome::Told(heard)
}

fn stopped(cause: Cause) -> Outcome {
    Outcome::NotEnabled(cause)
}

fn too_soon(next: u64) -> Outcome {
    Outcome::EmitRefused(ShapeFault::TooSoon { next })
}

// Carries out each command, which has to answer the outcome beside it.
fn goes(rt: &impl Abort, actor: &mut SourceActor, story: &[(SourceCommand, Outcome)]) {
    for (place, (command, outcome)) in story.iter().enumerate() {
        same_at(rt, &actor.step(command), outcome, &("command", place));
    }
}

// Demands the rate of a source, and whether it waits for an answer.
fn stands(rt: &impl Abort, actor: &SourceActor, rate: Rate, is_asking: bool) {
    same(rt, &(actor.rate(), actor.is_asking()), &(rate, is_asking));
}

// Demands the rate of a source.
fn shapes_at(rt: &impl Abort, actor: &SourceActor, rate: Rate) {
    same(rt, &actor.rate(), &rate);
}

// A source that started, asked for a rate as request 1, and heard a yes.
fn raised(rt: &impl Abort, now: u64, rate: Rate) -> Result<SourceActor, Fail> {
    let first = request(1, Rate::ZERO, rate)?;
    let mut actor = SourceActor::new(connection()?);
    let story = [
        (start(now), Outcome::Started),
        (ask(rate), Outcome::Asked(first)),
        (yes(first), told(Heard::Raised)),
    ];
    goes(rt, &mut actor, &story);
    Ok(actor)
}
