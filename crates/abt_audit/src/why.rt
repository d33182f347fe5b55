//! Why the protocol answers as it does at an entry that mismatches.
ghost use Rattle.std.specs.Prelude.{◌≡◌, ◌↔◌, ◌<◌, [], length, if◌then◌else◌, IfOk, IsTrue, OnOk, option_and_then, string_bytes};
ghost use Rattle.abt_journal.specs.Replay.{replay};
ghost use Rattle.abt_reason.specs.Reasons.{reason_text};
ghost use Rattle.abt_journal_text.specs.Books.{lists_of};
ghost use Rattle.abt_model.specs.PortTable.{port_table};
ghost use Rattle.abt_text.specs.Text.{◌⋅◌};
ghost use Rattle.abt_audit.specs.Why as spec;
ghost use Rattle.abt_audit.specs.Why.{IsLastChange, IsNoWhy, IsSourceWhy, IsWhy, IsWhyAt};
ghost use Rattle.abt_audit.specs.Stuck.{item_at};

use crate::obeying::source_answer;
use crate::protocol::{port_answer, serve};
use crate::stuck::spot_of;
use abt_journal::{Entry, PortInput, PortReply};
use abt_journal_text::{Run, Spot};
use abt_model::Outcome;
use abt_net::Net;
use abt_node::Port;
use abt_reason::{Grounds, Numbers, push_reason};
use abt_weave::{Actor, Stuck};
use abt_world::opening_port;
use std::alloc::{AllocError, Global};

// Why the protocol answers as it does at an entry.
#[derive(Debug, Drop)]
pub(crate) struct Why {
    /// In words; empty if there is no reason.
    pub reason: String,
    /// The line that made a port's numbers what they are, if one did.
    pub since: Option<Spot>,
}

// The numbers by which a port decides an input.
fn numbers_at(port: &Port, input: &PortInput) -> Numbers
    ensures { result ≡ spec.numbers_at port.now input.now }
{
    match input {
        PortInput::Request(request) => Numbers::AtHop {
            seq: request.seq(),
            newest: port.newest(request.vc()).unwrap_or(0),
            asks: request.ask().units(),
            holds: port.held(request.vc()).map_or(0, |rate| rate.units()),
            total: port.total(),
            capacity: port.capacity(),
        },
        PortInput::Answer(answer) => Numbers::Newest {
            newest: port.newest(answer.vc()).unwrap_or(0),
        },
        PortInput::Arrive { .. } => Numbers::Nothing,
        PortInput::Capacity(_) => Numbers::Reserved {
            total: port.total(),
        },
    }
}

fn is_same(one: &Numbers, other: &Numbers) -> bool
    ensures { IsTrue result ↔ (one.now ≡ other.now) }
{
    *one == *other
}

// The place of a change, or the last one before it if nothing changed.
fn later(last: Option<u64>, place: u64, is_same: bool) -> Option<u64>
    ensures { result ≡ (if is_same then last else Some place) }
{
    if is_same { last } else { Some(place) }
}

// The numbers by which a port decides an input after these entries, and the last of them that changed one.
fn numbers_after(
    alloc: Global,
    net: &Net,
    id: u16,
    entries: &[Entry],
    input: &PortInput,
) -> Result<(Numbers, Option<u64>), AllocError>
    requires { id < length net.now.capacities }
    ensures numbers { IfOk result (λ found. found.0 ≡
        spec.numbers_at (replay (port_table net.now [] id) entries.now) input.now) }
    ensures last { IfOk result (λ found. IsLastChange (port_table net.now [] id) entries.now input.now found.1) }
{
    let mut port = opening_port(alloc, net, id)?;
    let mut numbers = numbers_at(&port, input);
    let mut last = None;
    for (place, entry) in entries.iter().enumerate() {
        serve(&mut port, &entry.input);
        let next = numbers_at(&port, input);
        last = later(last, place as u64, is_same(&next, &numbers));
        numbers = next;
    }
    Ok((numbers, last))
}

// Adds the reason of an outcome that these numbers decide.
fn push_by(
    alloc: Global,
    text: &mut String,
    numbers: Numbers,
    outcome: &Outcome,
) -> Result<(), AllocError>
    ensures { OnOk result (string_bytes text.new ≡ string_bytes text.old ⋅
        reason_text (record { numbers = numbers; sought = None }) outcome.now) }
{
    let grounds = Grounds {
        numbers,
        sought: None,
    };
    push_reason(alloc, text, &grounds, outcome)
}

// Adds the reason of a port's reply, by its numbers.
fn push_port_reason(
    alloc: Global,
    text: &mut String,
    numbers: Numbers,
    reply: PortReply,
) -> Result<(), AllocError>
    ensures { OnOk result (string_bytes text.new ≡ string_bytes text.old ⋅ spec.port_reason numbers reply) }
{
    match reply {
        PortReply::Requested(reply) => push_by(alloc, text, numbers, &Outcome::Requested(reply)),
        PortReply::Answered(reply) => push_by(alloc, text, numbers, &Outcome::Answered(reply)),
        PortReply::Capped(Err(fault)) => push_by(
            alloc,
            text,
            numbers,
            &Outcome::CapacityRefused(fault),
        ),
        PortReply::Arrived(_) | PortReply::Capped(Ok(())) => Ok(()),
    }
}

fn port_reason(
    alloc: Global,
    numbers: Numbers,
    reply: Option<PortReply>,
) -> Result<String, AllocError>
    ensures { IfOk result (λ text. string_bytes text ≡ spec.reason_by numbers reply) }
{
    let mut text = String::new(alloc);
    if let Some(reply) = reply {
        push_port_reason(alloc, &mut text, numbers, reply)?;
    }
    Ok(text)
}

// The reason of a source's outcome, as far as no number decides it.
fn source_reason(alloc: Global, outcome: Option<Outcome>) -> Result<String, AllocError>
    ensures { IfOk result (λ text. string_bytes text ≡ spec.source_reason outcome) }
{
    let mut text = String::new(alloc);
    if let Some(outcome) = outcome {
        push_by(alloc, &mut text, Numbers::Nothing, &outcome)?;
    }
    Ok(text)
}

// Where the entry of a place stands in the journal of a port, if there is a place.
fn spot_if(run: &Run, port: u16, place: Option<u64>) -> Option<Spot>
    ensures { result ≡ option_and_then (item_at (lists_of run.now.port_spots) port) place }
{
    spot_of(run, port, place?)
}

// No reason.
fn no_why(alloc: Global) -> Why
    ensures { IsNoWhy result }
{
    Why {
        reason: String::new(alloc),
        since: None,
    }
}

// Why the protocol replies as it does to the entry of a place in the journal of a port.
fn entry_why(
    alloc: Global,
    run: &Run,
    port: u16,
    place: u64,
    entries: &[Entry],
) -> Result<Why, AllocError>
    requires { port < length run.now.net.capacities }
    ensures { IfOk result (λ why. IsWhyAt run.now port place (Some entries.now) why) }
{
    let Some(entry) = entries.get(place as usize) else {
        return Ok(no_why(alloc));
    };
    let earlier = &entries[..place as usize];
    let (numbers, last) = numbers_after(alloc, &run.net, port, earlier, &entry.input)?;
    let reply = port_answer(alloc, &run.net, port, entries, place)?;
    let reason = port_reason(alloc, numbers, reply)?;
    let since = spot_if(run, port, last);
    Ok(Why { reason, since })
}

fn port_why(alloc: Global, run: &Run, port: u16, place: u64) -> Result<Why, AllocError>
    requires { length run.now.journals ≡ length run.now.net.capacities }
    ensures { IfOk result (λ why. IsWhy run.now (Actor.Port port) place why) }
{
    let Some(entries) = run.journals.ports.get(usize::from(port)) else {
        return Ok(no_why(alloc));
    };
    entry_why(alloc, run, port, place, entries.as_slice())
}

fn source_why(alloc: Global, run: &Run, source: u16, place: u64) -> Result<Why, AllocError>
    ensures { IfOk result (λ why. IsSourceWhy run.now source place why) }
{
    let Some(conn) = run.net.conns().get(usize::from(source)) else {
        return Ok(no_why(alloc));
    };
    let Some(journal) = run.sources.get(usize::from(source)) else {
        return Ok(no_why(alloc));
    };
    let outcome = source_answer(conn.vc, journal.entries.as_slice(), place);
    let reason = source_reason(alloc, outcome)?;
    let since = None;
    Ok(Why { reason, since })
}

// Why the protocol answers as it does at the entry of an actor.
pub(crate) fn why_of(alloc: Global, run: &Run, stuck: Stuck) -> Result<Why, AllocError>
    requires { length run.now.journals ≡ length run.now.net.capacities }
    ensures { IfOk result (λ why. IsWhy run.now stuck.actor stuck.place why) }
{
    match stuck.actor {
        Actor::Port(port) => port_why(alloc, run, port, stuck.place),
        Actor::Source(source) => source_why(alloc, run, source, stuck.place),
    }
}
