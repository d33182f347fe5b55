//! The protocol's answers for entries.
ghost use Rattle.std.specs.Prelude.{◌≡◌, ◌<◌, [], codes, length, option_map, IfOk, OnOk};
ghost use Rattle.abt_entry.specs.EntryWritten.{reply_json, outcome_json};
ghost use Rattle.abt_journal.specs.Replay.{reply_by, table_after, replay};
ghost use Rattle.abt_model.specs.PortTable.{port_table};
ghost use Rattle.abt_text.specs.Text.{◌⋅◌, newline};
ghost use Rattle.abt_audit.specs.EntryObjects.{printed};
ghost use Rattle.abt_audit.specs.Protocol.{protocol_line};
ghost use Rattle.abt_audit.specs.Protocol as spec;

use crate::obeying::source_answer;
use abt_entry::{outcome_text, reply_text};
use abt_journal::{Entry, PortInput, PortReply};
use abt_journal_text::Run;
use abt_model::Outcome;
use abt_net::Net;
use abt_node::Port;
use abt_weave::{Actor, Stuck};
use abt_world::opening_port;
use std::alloc::{AllocError, Global};

// Hands an input to a port.
pub(crate) fn serve(port: &mut Port, input: &PortInput) -> PortReply
    ensures value { result ≡ reply_by port.old input.now }
    ensures table { port.new ≡ table_after port.old input.now }
{
    match input {
        PortInput::Request(request) => PortReply::Requested(port.request(request)),
        PortInput::Answer(answer) => PortReply::Answered(port.answer(answer)),
        PortInput::Arrive { vc, at } => PortReply::Arrived(port.arrive(*vc, *at)),
        PortInput::Capacity(capacity) => PortReply::Capped(port.set_capacity(*capacity)),
    }
}

// The port of a net that has taken the inputs of these entries.
fn port_after(alloc: Global, net: &Net, id: u16, entries: &[Entry]) -> Result<Port, AllocError>
    requires { id < length net.now.capacities }
    ensures { IfOk result (λ port. port ≡ replay (port_table net.now [] id) entries.now) }
{
    let mut port = opening_port(alloc, net, id)?;
    for entry in entries {
        serve(&mut port, &entry.input);
    }
    Ok(port)
}

// The reply of a port to the input of the entry of a place, after the inputs of the entries before.
pub(crate) fn port_answer(
    alloc: Global,
    net: &Net,
    id: u16,
    entries: &[Entry],
    place: u64,
) -> Result<Option<PortReply>, AllocError>
    requires { id < length net.now.capacities }
    ensures { IfOk result (λ reply. reply ≡ spec.port_answer net.now id entries.now place) }
{
    let place = place as usize;
    let Some(entry) = entries.get(place) else {
        return Ok(None);
    };
    let mut port = port_after(alloc, net, id, &entries[..place])?;
    Ok(Some(serve(&mut port, &entry.input)))
}

// Adds the line of an answer.
fn add_answer(text: &mut Vec<u8>, answer: &[u8]) -> Result<(), AllocError>
    ensures { OnOk result (text.new.items ≡ text.old.items ⋅ codes "protocol: " ⋅ answer.now ⋅ newline) }
{
    text.extend_from_slice(b"protocol: ")?;
    text.extend_from_slice(answer)?;
    Ok(text.push(b'\n')?)
}

fn reply_said(alloc: Global, reply: Option<PortReply>) -> Result<Option<Vec<u8>>, AllocError>
    ensures { IfOk result (λ answer. option_map (λ octets. octets.items) answer ≡
        option_map printed (option_map reply_json reply)) }
{
    match reply {
        Some(reply) => Ok(Some(reply_text(alloc, &reply)?)),
        None => Ok(None),
    }
}

fn outcome_said(alloc: Global, outcome: Option<Outcome>) -> Result<Option<Vec<u8>>, AllocError>
    ensures { IfOk result (λ answer. option_map (λ octets. octets.items) answer ≡
        option_map printed (option_map outcome_json outcome)) }
{
    match outcome {
        Some(outcome) => Ok(Some(outcome_text(alloc, &outcome)?)),
        None => Ok(None),
    }
}

fn port_said(alloc: Global, run: &Run, port: u16, place: u64) -> Result<Option<Vec<u8>>, AllocError>
    requires { length run.now.journals ≡ length run.now.net.capacities }
    ensures { IfOk result (λ answer. option_map (λ octets. octets.items) answer ≡
        option_map printed (spec.protocol_answer run.now (Actor.Port port) place)) }
{
    let Some(entries) = run.journals.ports.get(usize::from(port)) else {
        return Ok(None);
    };
    let reply = port_answer(alloc, &run.net, port, entries.as_slice(), place)?;
    reply_said(alloc, reply)
}

fn source_said(
    alloc: Global,
    run: &Run,
    source: u16,
    place: u64,
) -> Result<Option<Vec<u8>>, AllocError>
    ensures { IfOk result (λ answer. option_map (λ octets. octets.items) answer ≡
        option_map printed (spec.protocol_answer run.now (Actor.Source source) place)) }
{
    let Some(conn) = run.net.conns().get(usize::from(source)) else {
        return Ok(None);
    };
    let Some(journal) = run.sources.get(usize::from(source)) else {
        return Ok(None);
    };
    outcome_said(
        alloc,
        source_answer(conn.vc, journal.entries.as_slice(), place),
    )
}

// What the protocol answers for an actor's entry of a place, as it is written.
pub(crate) fn protocol_answer(
    alloc: Global,
    run: &Run,
    stuck: Stuck,
) -> Result<Option<Vec<u8>>, AllocError>
    requires { length run.now.journals ≡ length run.now.net.capacities }
    ensures { IfOk result (λ answer. option_map (λ octets. octets.items) answer ≡
        option_map printed (spec.protocol_answer run.now stuck.actor stuck.place)) }
{
    match stuck.actor {
        Actor::Port(port) => port_said(alloc, run, port, stuck.place),
        Actor::Source(source) => source_said(alloc, run, source, stuck.place),
    }
}

// Adds the line of an answer, if there is one.
pub(crate) fn add_protocol(text: &mut Vec<u8>, answer: &Option<Vec<u8>>) -> Result<(), AllocError>
    ensures { OnOk result (text.new.items ≡
        text.old.items ⋅ protocol_line (option_map (λ octets. octets.items) answer.now)) }
{
    match answer {
        Some(answer) => add_answer(text, answer.as_slice()),
        None => Ok(()),
    }
}
