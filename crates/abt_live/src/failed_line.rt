//! The line of an ask whose record the store didn't keep.
ghost use Rattle.std.specs.Prelude.{◌≡◌, IfOk, codes};
ghost use Rattle.json.specs.Json.{string};
ghost use Rattle.json.specs.Tree.{json_tokens};
ghost use Rattle.abt_entry.specs.Written.{Puts, only};
ghost use Rattle.abt_entry.specs.declared.member.Member.TheVariants as of;
ghost use Rattle.abt_live.specs.FailedLine.{ask_tokens, did_tokens, failed_ask_json, failed_json, failed_line, outcome_tokens, source_tokens};

use abt_entry::{Member, put_number, put_rate, put_word};
use abt_rate::Rate;
use json::Writer;
use std::alloc::{AllocError, Global};

// The line of an ask whose record the store didn't keep: whether it is stored all the same is left open.
pub(crate) fn failed_line(alloc: Global, conn: u16, rate: Rate) -> Result<Vec<u8>, AllocError>
    ensures { IfOk result (λ line. line.items ≡ failed_line conn rate) }
{
    let mut writer = Writer::new(Vec::new(alloc));
    put_failed(alloc, &mut writer, conn, rate)?;
    let mut line = writer.into_inner();
    line.push(b'\n')?;
    Ok(line)
}

fn put_failed(alloc: Global, writer: &mut Writer, conn: u16, rate: Rate) -> Result<(), AllocError>
    ensures { Puts result writer.old writer.new (json_tokens (failed_json conn rate)) }
{
    writer.begin_object()?;
    put_source(alloc, writer, conn, rate)?;
    writer.end_object()
}

fn put_source(alloc: Global, writer: &mut Writer, conn: u16, rate: Rate) -> Result<(), AllocError>
    ensures { Puts result writer.old writer.new (source_tokens conn rate) }
{
    put_number(writer, Member::Source, u64::from(conn))?;
    put_did(alloc, writer, rate)
}

fn put_did(alloc: Global, writer: &mut Writer, rate: Rate) -> Result<(), AllocError>
    ensures { Puts result writer.old writer.new (did_tokens rate) }
{
    writer.key(Member::Did.name())?;
    put_ask(alloc, writer, rate)?;
    put_outcome(writer)
}

fn put_ask(alloc: Global, writer: &mut Writer, rate: Rate) -> Result<(), AllocError>
    ensures { Puts result writer.old writer.new (json_tokens (failed_ask_json rate)) }
{
    writer.begin_object()?;
    put_ask_members(alloc, writer, rate)?;
    writer.end_object()
}

fn put_ask_members(alloc: Global, writer: &mut Writer, rate: Rate) -> Result<(), AllocError>
    ensures { Puts result writer.old writer.new (ask_tokens rate) }
{
    put_rate(alloc, writer, Member::Ask, rate)?;
    put_word(writer, Member::Store, "failed")
}

fn put_outcome(writer: &mut Writer) -> Result<(), AllocError>
    ensures { Puts result writer.old writer.new outcome_tokens }
{
    writer.key(Member::Outcome.name())?;
    put_refused(writer)
}

fn put_refused(writer: &mut Writer) -> Result<(), AllocError>
    ensures { Puts result writer.old writer.new (json_tokens (only of.Refused (string (codes "Keep")))) }
{
    writer.begin_object()?;
    put_word(writer, Member::Refused, "Keep")?;
    writer.end_object()
}
