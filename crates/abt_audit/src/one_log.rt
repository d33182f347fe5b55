//! The log of one port, or of one source, judged alone.
ghost use Rattle.std.specs.Prelude.{◌≡◌, ◌↔◌, ◌<◌, length, slice_get, IfOk, IsTrue};
ghost use Rattle.abt_net.specs.Topology.{conn_at};
ghost use Rattle.abt_audit.specs.OneLog as spec;
ghost use Rattle.abt_audit.specs.OneLog.{IsLogVerdict, IsPortVerdict, IsSourceVerdict, IsVerdictOf, PortObeys};
ghost use Rattle.abt_audit.specs.Settling.{FitsTo};

use crate::protocol::serve;
use crate::settling::reach;
use abt_cell::Vc;
use abt_journal::{Entry, PortReply};
use abt_journal_text::Run;
use abt_model::SourceEntry;
use abt_net::Net;
use abt_weave::Actor;
use abt_world::opening_port;
use std::alloc::{AllocError, Global};

/// What is found of one log.
#[derive(Clone, Copy, Debug, PartialEq, Eq)]
pub enum LogVerdict {
    /// The net has no such port, or no such connection.
    Absent,
    /// All entries are those that the protocol gives.
    Obeys,
    /// The entry of this place is the first that isn't.
    Differs(u64),
}

/// Judges the log of one port or one source of a run by the entries of that log alone. What comes in is taken as sent.
///
/// # Errors
/// Memory was refused.
pub fn judge_log(alloc: Global, run: &Run, actor: Actor) -> Result<LogVerdict, AllocError>
    requires { length run.now.journals ≡ length run.now.net.capacities }
    ensures { IfOk result (IsLogVerdict run.now actor) }
{
    match actor {
        Actor::Port(port) => judge_port(alloc, run, port),
        Actor::Source(source) => Ok(judge_source(run, source)),
    }
}

fn judge_port(alloc: Global, run: &Run, port: u16) -> Result<LogVerdict, AllocError>
    requires { length run.now.journals ≡ length run.now.net.capacities }
    ensures { IfOk result (IsPortVerdict run.now.net port (slice_get run.now.journals port)) }
{
    let Some(entries) = run.journals.ports.get(usize::from(port)) else {
        return Ok(LogVerdict::Absent);
    };
    steps_verdict(alloc, &run.net, port, entries.as_slice())
}

fn judge_source(run: &Run, source: u16) -> LogVerdict
    ensures { IsSourceVerdict (conn_at run.now.net source) (slice_get run.now.sources.items source) result }
{
    let Some(conn) = run.net.conns().get(usize::from(source)) else {
        return LogVerdict::Absent;
    };
    let Some(journal) = run.sources.get(usize::from(source)) else {
        return LogVerdict::Absent;
    };
    deeds_verdict(conn.vc, journal.entries.as_slice())
}

fn is_same(one: &PortReply, other: &PortReply) -> bool
    ensures { IsTrue result ↔ (one.now ≡ other.now) }
{
    *one == *other
}

// What is found of the steps of a port.
fn steps_verdict(
    alloc: Global,
    net: &Net,
    id: u16,
    entries: &[Entry],
) -> Result<LogVerdict, AllocError>
    requires { id < length net.now.capacities }
    ensures { IfOk result (IsVerdictOf (PortObeys net.now id entries.now) (length entries.now)) }
{
    let mut port = opening_port(alloc, net, id)?;
    for (place, entry) in entries.iter().enumerate() {
        let reply = serve(&mut port, &entry.input);
        if !is_same(&reply, &entry.reply) {
            return Ok(LogVerdict::Differs(place as u64));
        }
    }
    Ok(LogVerdict::Obeys)
}

// What is found of what the source of a connection did.
fn deeds_verdict(vc: Vc, entries: &[SourceEntry]) -> LogVerdict
    ensures { IsVerdictOf (FitsTo vc entries.now) (length entries.now) result }
{
    let reached = reach(vc, entries);
    if reached < entries.len() {
        return LogVerdict::Differs(reached as u64);
    }
    LogVerdict::Obeys
}

// How many entries say that a source did something.
fn deeds(entries: &[SourceEntry]) -> u64
    ensures { result ≡ spec.deeds entries.now }
{
    let mut count = 0;
    for entry in entries {
        if let SourceEntry::Did(..) = entry {
            count += 1;
        }
    }
    count
}

// How many entries of a log are judged.
pub(crate) fn entries_judged(run: &Run, actor: Actor) -> u64
    ensures { result ≡ spec.entries_judged run.now actor }
{
    match actor {
        Actor::Port(port) => match run.journals.ports.get(usize::from(port)) {
            Some(entries) => entries.len() as u64,
            None => 0,
        },
        Actor::Source(source) => match run.sources.get(usize::from(source)) {
            Some(journal) => deeds(journal.entries.as_slice()),
            None => 0,
        },
    }
}
