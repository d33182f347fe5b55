//! Entries of sources, written.
ghost use Rattle.json.specs.Tree.{json_tokens};
ghost use Rattle.abt_entry.specs.Written.{Puts, only};
ghost use Rattle.abt_entry.specs.declared.member.Member.TheVariants as of;
ghost use Rattle.abt_entry.specs.EntryWritten as written;

use crate::put_port::{put_only_number, put_only_request, put_only_word};
use crate::text_words::plan_word;
use crate::{Member, put_number, put_rate, put_word};
use abt_format::{ask_fault_name, cause_name, heard_name, start_fault_name};
use abt_keep::StorePlan;
use abt_model::{Event, Outcome, SourceEntry};
use abt_rate::Rate;
use abt_shaper::ShapeFault;
use json::Writer;
use std::alloc::{AllocError, Global};

fn put_ask(
    alloc: Global,
    writer: &mut Writer,
    rate: Rate,
    plan: StorePlan,
) -> Result<(), AllocError>
    ensures { Puts result writer.old writer.new (json_tokens (written.ask_json rate plan)) }
{
    writer.begin_object()?;
    put_ask_members(alloc, writer, rate, plan)?;
    writer.end_object()
}

fn put_ask_members(
    alloc: Global,
    writer: &mut Writer,
    rate: Rate,
    plan: StorePlan,
) -> Result<(), AllocError>
    ensures { Puts result writer.old writer.new (written.ask_tokens rate plan) }
{
    put_rate(alloc, writer, Member::Ask, rate)?;
    put_word(writer, Member::Store, plan_word(plan))
}

fn put_told(writer: &mut Writer, seq: u32, granted: bool) -> Result<(), AllocError>
    ensures { Puts result writer.old writer.new (json_tokens (written.told_json seq granted)) }
{
    writer.begin_object()?;
    put_answered(writer, seq, granted)?;
    writer.end_object()
}

fn put_answered(writer: &mut Writer, seq: u32, granted: bool) -> Result<(), AllocError>
    ensures { Puts result writer.old writer.new (written.answered_tokens seq granted) }
{
    put_number(writer, Member::Told, u64::from(seq))?;
    put_granted(writer, granted)
}

fn put_granted(writer: &mut Writer, granted: bool) -> Result<(), AllocError>
    ensures { Puts result writer.old writer.new (written.granted_tokens granted) }
{
    writer.key(Member::Granted.name())?;
    writer.boolean(granted)
}

// Writes what a source was to do.
fn put_did(alloc: Global, writer: &mut Writer, event: &Event) -> Result<(), AllocError>
    ensures { Puts result writer.old writer.new (json_tokens (written.did_json event.now)) }
{
    match event {
        Event::Start { conn: _, now } => put_only_number(writer, Member::Start, *now),
        Event::Ask {
            conn: _,
            rate,
            plan,
        } => put_ask(alloc, writer, *rate, *plan),
        Event::Again { conn: _ } => writer.string("again"),
        Event::Crash { conn: _ } => writer.string("crash"),
        Event::Emit { conn: _, now } => put_only_number(writer, Member::Emit, *now),
        Event::Told {
            conn: _,
            seq,
            granted,
        } => put_told(writer, *seq, *granted),
        _ => writer.string(""),
    }
}

fn put_emitted(writer: &mut Writer, cell: u64, next: u64) -> Result<(), AllocError>
    ensures { Puts result writer.old writer.new (json_tokens (written.emitted_json cell next)) }
{
    writer.begin_object()?;
    put_departure(writer, cell, next)?;
    writer.end_object()
}

fn put_departure(writer: &mut Writer, cell: u64, next: u64) -> Result<(), AllocError>
    ensures { Puts result writer.old writer.new (written.departure_tokens cell next) }
{
    writer.key(Member::Emitted.name())?;
    put_numbers(writer, (Member::Cell, cell), (Member::Next, next))
}

// Writes an object of two members, which are numbers.
fn put_numbers(
    writer: &mut Writer,
    first: (Member, u64),
    second: (Member, u64),
) -> Result<(), AllocError>
    ensures { Puts result writer.old writer.new (json_tokens (written.numbers_json first second)) }
{
    writer.begin_object()?;
    put_both(writer, first, second)?;
    writer.end_object()
}

fn put_both(
    writer: &mut Writer,
    first: (Member, u64),
    second: (Member, u64),
) -> Result<(), AllocError>
    ensures { Puts result writer.old writer.new (written.both_tokens first second) }
{
    put_number(writer, first.0, first.1)?;
    put_number(writer, second.0, second.1)
}

fn put_shape_fault(writer: &mut Writer, fault: &ShapeFault) -> Result<(), AllocError>
    ensures { Puts result writer.old writer.new (json_tokens (written.shape_json fault.now)) }
{
    match fault {
        ShapeFault::ClockBack => writer.string("ClockBack"),
        ShapeFault::TimeRange => writer.string("TimeRange"),
        ShapeFault::Zero => writer.string("Zero"),
        ShapeFault::TooSoon { next } => put_only_number(writer, Member::TooSoon, *next),
    }
}

fn put_emit_refused(writer: &mut Writer, fault: &ShapeFault) -> Result<(), AllocError>
    ensures { Puts result writer.old writer.new
        (json_tokens (only of.Refused (written.shape_json fault.now))) }
{
    writer.begin_object()?;
    writer.key(Member::Refused.name())?;
    put_shape_fault(writer, fault)?;
    writer.end_object()
}

// Writes what came of it.
pub(crate) fn put_outcome(
    alloc: Global,
    writer: &mut Writer,
    outcome: &Outcome,
) -> Result<(), AllocError>
    ensures { Puts result writer.old writer.new (json_tokens (written.outcome_json outcome.now)) }
{
    match outcome {
        Outcome::Started => writer.string("started"),
        Outcome::StartRefused(fault) => {
            put_only_word(writer, Member::Refused, start_fault_name(*fault))
        }
        Outcome::Asked(request) => put_only_request(alloc, writer, Member::Asked, request),
        Outcome::AskRefused(fault) => {
            put_only_word(writer, Member::Refused, ask_fault_name(*fault))
        }
        Outcome::Repeated(request) => put_only_request(alloc, writer, Member::Again, request),
        Outcome::Crashed => writer.string("crashed"),
        Outcome::Emitted { cell, next } => put_emitted(writer, *cell, *next),
        Outcome::EmitRefused(fault) => put_emit_refused(writer, fault),
        Outcome::Told(heard) => put_only_word(writer, Member::Told, heard_name(*heard)),
        Outcome::NotEnabled(cause) => {
            put_only_word(writer, Member::NotEnabled, cause_name(*cause))
        }
        _ => writer.string(""),
    }
}

fn put_deed(
    alloc: Global,
    writer: &mut Writer,
    event: &Event,
    outcome: &Outcome,
) -> Result<(), AllocError>
    ensures { Puts result writer.old writer.new (written.deed_tokens event.now outcome.now) }
{
    put_done(alloc, writer, event)?;
    put_came_of(alloc, writer, outcome)
}

fn put_done(alloc: Global, writer: &mut Writer, event: &Event) -> Result<(), AllocError>
    ensures { Puts result writer.old writer.new (written.done_tokens event.now) }
{
    writer.key(Member::Did.name())?;
    put_did(alloc, writer, event)
}

fn put_came_of(alloc: Global, writer: &mut Writer, outcome: &Outcome) -> Result<(), AllocError>
    ensures { Puts result writer.old writer.new (written.came_of_tokens outcome.now) }
{
    writer.key(Member::Outcome.name())?;
    put_outcome(alloc, writer, outcome)
}

fn put_arrived(writer: &mut Writer, cell: u64, place: u64) -> Result<(), AllocError>
    ensures { Puts result writer.old writer.new (written.arrived_tokens cell place) }
{
    writer.key(Member::Arrived.name())?;
    put_numbers(writer, (Member::Cell, cell), (Member::Place, place))
}

/// Writes an entry of the source of a connection.
pub(crate) fn put_entry(
    alloc: Global,
    writer: &mut Writer,
    conn: u16,
    entry: &SourceEntry,
) -> Result<(), AllocError>
    ensures { Puts result writer.old writer.new (json_tokens (written.entry_json conn entry.now)) }
{
    writer.begin_object()?;
    put_members(alloc, writer, conn, entry)?;
    writer.end_object()
}

fn put_members(
    alloc: Global,
    writer: &mut Writer,
    conn: u16,
    entry: &SourceEntry,
) -> Result<(), AllocError>
    ensures { Puts result writer.old writer.new (written.members_tokens conn entry.now) }
{
    put_number(writer, Member::Source, u64::from(conn))?;
    put_kind(alloc, writer, entry)
}

// Writes all of an entry but its source.
fn put_kind(alloc: Global, writer: &mut Writer, entry: &SourceEntry) -> Result<(), AllocError>
    ensures { Puts result writer.old writer.new (written.kind_tokens entry.now) }
{
    match entry {
        SourceEntry::Did(event, outcome) => put_deed(alloc, writer, event, outcome),
        SourceEntry::Sent { place } => put_number(writer, Member::Sent, *place),
        SourceEntry::Arrived { cell, place } => put_arrived(writer, *cell, *place),
    }
}
