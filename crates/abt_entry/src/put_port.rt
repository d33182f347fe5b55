//! Steps of ports, written.
ghost use Rattle.json.specs.Tree.{json_tokens};
ghost use Rattle.json.specs.Json.{string};
ghost use Rattle.abt_entry.specs.Written.{Puts, only, number_json, request_json, answer_json};
ghost use Rattle.abt_entry.specs.declared.member.Member.TheVariants as of;
ghost use Rattle.abt_entry.specs.EntryWritten as written;

use crate::text_words::arrive_fault_word;
use crate::{Member, put_answer, put_channel, put_number, put_request, put_word};
use abt_cell::{Answer, Request, Vc};
use abt_format::{capacity_fault_name, verdict_name};
use abt_journal::{Entry, PortInput, PortReply};
use abt_node::{Back, Onward};
use json::Writer;
use std::alloc::{AllocError, Global};

// Writes an object of one member, which is a word.
pub(crate) fn put_only_word(
    writer: &mut Writer,
    member: Member,
    word: &str,
) -> Result<(), AllocError>
    ensures { Puts result writer.old writer.new (json_tokens (only member (string word.now))) }
{
    writer.begin_object()?;
    put_word(writer, member, word)?;
    writer.end_object()
}

// Writes an object of one member, which is a number.
pub(crate) fn put_only_number(
    writer: &mut Writer,
    member: Member,
    number: u64,
) -> Result<(), AllocError>
    ensures { Puts result writer.old writer.new (json_tokens (only member (number_json number))) }
{
    writer.begin_object()?;
    put_number(writer, member, number)?;
    writer.end_object()
}

// Writes an object of one member, which is a request.
pub(crate) fn put_only_request(
    alloc: Global,
    writer: &mut Writer,
    member: Member,
    request: &Request,
) -> Result<(), AllocError>
    ensures { Puts result writer.old writer.new (json_tokens (only member (request_json request.now))) }
{
    writer.begin_object()?;
    writer.key(member.name())?;
    put_request(alloc, writer, request)?;
    writer.end_object()
}

fn put_arrive(writer: &mut Writer, vc: Vc, at: u64) -> Result<(), AllocError>
    ensures { Puts result writer.old writer.new (json_tokens (written.arrive_json vc at)) }
{
    writer.begin_object()?;
    put_arrival(writer, vc, at)?;
    writer.end_object()
}

fn put_arrival(writer: &mut Writer, vc: Vc, at: u64) -> Result<(), AllocError>
    ensures { Puts result writer.old writer.new (written.arrival_tokens vc at) }
{
    put_channel(writer, vc)?;
    put_number(writer, Member::At, at)
}

// Writes what came to a port.
fn put_input(alloc: Global, writer: &mut Writer, input: &PortInput) -> Result<(), AllocError>
    ensures { Puts result writer.old writer.new (json_tokens (written.input_json input.now)) }
{
    match input {
        PortInput::Request(request) => put_only_request(alloc, writer, Member::Request, request),
        PortInput::Answer(answer) => put_only_answer(alloc, writer, Member::Answer, answer),
        PortInput::Arrive { vc, at } => put_only_arrive(writer, *vc, *at),
        PortInput::Capacity(capacity) => put_only_number(writer, Member::Capacity, *capacity),
    }
}

fn put_only_arrive(writer: &mut Writer, vc: Vc, at: u64) -> Result<(), AllocError>
    ensures { Puts result writer.old writer.new (json_tokens (only of.Arrive (written.arrive_json vc at))) }
{
    writer.begin_object()?;
    writer.key(Member::Arrive.name())?;
    put_arrive(writer, vc, at)?;
    writer.end_object()
}

// Writes an object of one member, which is an answer.
fn put_only_answer(
    alloc: Global,
    writer: &mut Writer,
    member: Member,
    answer: &Answer,
) -> Result<(), AllocError>
    ensures { Puts result writer.old writer.new (json_tokens (only member (answer_json answer.now))) }
{
    writer.begin_object()?;
    writer.key(member.name())?;
    put_answer(alloc, writer, answer)?;
    writer.end_object()
}

fn put_onward(alloc: Global, writer: &mut Writer, onward: &Onward) -> Result<(), AllocError>
    ensures { Puts result writer.old writer.new (json_tokens (written.onward_json onward.now)) }
{
    match onward {
        Onward::Pass => writer.string("passed"),
        Onward::Refuse(answer) => put_only_answer(alloc, writer, Member::Refused, answer),
        Onward::Drop(cause) => put_only_word(writer, Member::Dropped, cause.name()),
    }
}

fn put_back(writer: &mut Writer, back: &Back) -> Result<(), AllocError>
    ensures { Puts result writer.old writer.new (json_tokens (written.back_json back.now)) }
{
    match back {
        Back::Pass => writer.string("passed"),
        Back::Drop(cause) => put_only_word(writer, Member::Dropped, cause.name()),
    }
}

// Writes what a port replied.
pub(crate) fn put_reply(
    alloc: Global,
    writer: &mut Writer,
    reply: &PortReply,
) -> Result<(), AllocError>
    ensures { Puts result writer.old writer.new (json_tokens (written.reply_json reply.now)) }
{
    match reply {
        PortReply::Requested(onward) => put_onward(alloc, writer, onward),
        PortReply::Answered(back) => put_back(writer, back),
        PortReply::Arrived(Ok(verdict)) => {
            put_only_word(writer, Member::Arrived, verdict_name(*verdict))
        }
        PortReply::Arrived(Err(fault)) => {
            put_only_word(writer, Member::Refused, arrive_fault_word(*fault))
        }
        PortReply::Capped(Ok(())) => writer.string("set"),
        PortReply::Capped(Err(fault)) => {
            put_only_word(writer, Member::Refused, capacity_fault_name(*fault))
        }
    }
}

// Writes what came, and what was replied.
fn put_served(alloc: Global, writer: &mut Writer, entry: &Entry) -> Result<(), AllocError>
    ensures { Puts result writer.old writer.new (written.served_tokens entry.now) }
{
    put_came(alloc, writer, &entry.input)?;
    put_replied(alloc, writer, &entry.reply)
}

fn put_came(alloc: Global, writer: &mut Writer, input: &PortInput) -> Result<(), AllocError>
    ensures { Puts result writer.old writer.new (written.came_tokens input.now) }
{
    writer.key(Member::Input.name())?;
    put_input(alloc, writer, input)
}

fn put_replied(alloc: Global, writer: &mut Writer, reply: &PortReply) -> Result<(), AllocError>
    ensures { Puts result writer.old writer.new (written.replied_tokens reply.now) }
{
    writer.key(Member::Reply.name())?;
    put_reply(alloc, writer, reply)
}

// Writes the place, and then who had the step done.
fn put_place(writer: &mut Writer, entry: &Entry) -> Result<(), AllocError>
    ensures { Puts result writer.old writer.new (written.place_tokens entry.now) }
{
    put_number(writer, Member::Place, entry.place)?;
    put_number(writer, Member::Caller, u64::from(entry.caller))
}

// Writes all of a step but its port.
fn put_rest(alloc: Global, writer: &mut Writer, entry: &Entry) -> Result<(), AllocError>
    ensures { Puts result writer.old writer.new (written.rest_tokens entry.now) }
{
    put_place(writer, entry)?;
    put_served(alloc, writer, entry)
}

// Writes the members of a step.
fn put_members(
    alloc: Global,
    writer: &mut Writer,
    port: u16,
    entry: &Entry,
) -> Result<(), AllocError>
    ensures { Puts result writer.old writer.new (written.step_tokens port entry.now) }
{
    put_number(writer, Member::Port, u64::from(port))?;
    put_rest(alloc, writer, entry)
}

/// Writes a step of a port.
pub(crate) fn put_step(
    alloc: Global,
    writer: &mut Writer,
    port: u16,
    entry: &Entry,
) -> Result<(), AllocError>
    ensures { Puts result writer.old writer.new (json_tokens (written.step_json port entry.now)) }
{
    writer.begin_object()?;
    put_members(alloc, writer, port, entry)?;
    writer.end_object()
}
