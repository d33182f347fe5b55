//! Members, written.
ghost use Rattle.std.specs.Prelude.{◌∷◌, []};
ghost use Rattle.std.specs.Fmt.{decimal};
ghost use Rattle.json.specs.Token as token;
ghost use Rattle.json.specs.Tree.{json_tokens};
ghost use Rattle.abt_entry.specs.Members.{member_name};
ghost use Rattle.abt_entry.specs.Written.{Puts, rate_text, channel_tokens, rates_tokens, asked_tokens, terms_tokens, request_json, answer_json};

use crate::member::Member;
use abt_cell::{Answer, Request, Rm, Vc};
use abt_rate::Rate;
use json::Writer;
use std::alloc::{AllocError, Global};

/// Writes a member that is a number.
pub fn put_number(writer: &mut Writer, member: Member, number: u64) -> Result<(), AllocError>
    ensures { Puts result writer.old writer.new
        (token.key (member_name member) ∷ token.number (decimal number) ∷ []) }
{
    writer.key(member.name())?;
    writer.u64(number)
}

/// Writes a member that is a word.
pub fn put_word(writer: &mut Writer, member: Member, word: &str) -> Result<(), AllocError>
    ensures { Puts result writer.old writer.new
        (token.key (member_name member) ∷ token.string word.now ∷ []) }
{
    writer.key(member.name())?;
    writer.string(word)
}

/// Writes a member that is a rate, by its code.
pub fn put_rate(
    alloc: Global,
    writer: &mut Writer,
    member: Member,
    rate: Rate,
) -> Result<(), AllocError>
    ensures { Puts result writer.old writer.new
        (token.key (member_name member) ∷ token.string (rate_text rate) ∷ []) }
{
    let digits = hex::encode(alloc, rate.code().to_be_bytes())?;
    put_word(writer, member, digits.as_str())
}

/// Writes the members of a channel.
pub fn put_channel(writer: &mut Writer, vc: Vc) -> Result<(), AllocError>
    ensures { Puts result writer.old writer.new (channel_tokens vc) }
{
    put_number(writer, Member::Vpi, u64::from(vc.vpi()))?;
    put_number(writer, Member::Vci, u64::from(vc.vci()))
}

// Writes the floor and the asked rate of a request.
fn put_rates(alloc: Global, writer: &mut Writer, floor: Rate, ask: Rate) -> Result<(), AllocError>
    ensures { Puts result writer.old writer.new (rates_tokens floor ask) }
{
    put_rate(alloc, writer, Member::Floor, floor)?;
    put_rate(alloc, writer, Member::Ask, ask)
}

// Writes the number and the rates of a request.
fn put_asked(alloc: Global, writer: &mut Writer, request: &Request) -> Result<(), AllocError>
    ensures { Puts result writer.old writer.new (asked_tokens request.now) }
{
    put_number(writer, Member::Seq, u64::from(request.seq()))?;
    put_rates(alloc, writer, request.floor(), request.ask())
}

// Writes the channel of a request.
fn put_channel_of(writer: &mut Writer, request: &Request) -> Result<(), AllocError>
    ensures { Puts result writer.old writer.new (channel_tokens request.now.vc) }
{
    put_channel(writer, request.vc())
}

// Writes the members of a request.
fn put_terms(alloc: Global, writer: &mut Writer, request: &Request) -> Result<(), AllocError>
    ensures { Puts result writer.old writer.new (terms_tokens request.now) }
{
    put_channel_of(writer, request)?;
    put_asked(alloc, writer, request)
}

/// Writes a request, by its fields.
pub fn put_request(alloc: Global, writer: &mut Writer, request: &Request) -> Result<(), AllocError>
    ensures { Puts result writer.old writer.new (json_tokens (request_json request.now)) }
{
    writer.begin_object()?;
    put_terms(alloc, writer, request)?;
    writer.end_object()
}

/// Writes an answer, by its fields.
pub fn put_answer(alloc: Global, writer: &mut Writer, answer: &Answer) -> Result<(), AllocError>
    ensures { Puts result writer.old writer.new (json_tokens (answer_json answer.now)) }
{
    writer.begin_object()?;
    put_terms(alloc, writer, &Rm::Answer(*answer).request())?;
    writer.key(Member::Granted.name())?;
    writer.boolean(answer.granted())?;
    writer.end_object()
}
