//! Lines, written.
ghost use Rattle.std.specs.Prelude.{◌≡◌, IfOk};
ghost use Rattle.json.specs.Print.{print};
ghost use Rattle.json.specs.Tree.{json_tokens};
ghost use Rattle.abt_entry.specs.EntryWritten.{step_json, entry_json, reply_json, outcome_json};

use crate::put_port::{put_reply, put_step};
use crate::put_source::{put_entry, put_outcome};
use abt_journal::{Entry, PortReply};
use abt_model::{Outcome, SourceEntry};
use json::Writer;
use std::alloc::{AllocError, Global};

/// The line of a step of a port, without the line feed that ends it.
pub fn step_line(alloc: Global, port: u16, entry: &Entry) -> Result<Vec<u8>, AllocError>
    ensures { IfOk result (λ line. line.items ≡ print (json_tokens (step_json port entry.now))) }
{
    let mut writer = Writer::new(Vec::new(alloc));
    put_step(alloc, &mut writer, port, entry)?;
    Ok(writer.into_inner())
}

/// The line of an entry of the source of a connection, without the line feed that ends it.
pub fn entry_line(alloc: Global, conn: u16, entry: &SourceEntry) -> Result<Vec<u8>, AllocError>
    ensures { IfOk result (λ line. line.items ≡ print (json_tokens (entry_json conn entry.now))) }
{
    let mut writer = Writer::new(Vec::new(alloc));
    put_entry(alloc, &mut writer, conn, entry)?;
    Ok(writer.into_inner())
}

/// The text of a port's reply.
pub fn reply_text(alloc: Global, reply: &PortReply) -> Result<Vec<u8>, AllocError>
    ensures { IfOk result (λ text. text.items ≡ print (json_tokens (reply_json reply.now))) }
{
    let mut writer = Writer::new(Vec::new(alloc));
    put_reply(alloc, &mut writer, reply)?;
    Ok(writer.into_inner())
}

/// The text of the outcome of a source's deed.
pub fn outcome_text(alloc: Global, outcome: &Outcome) -> Result<Vec<u8>, AllocError>
    ensures { IfOk result (λ text. text.items ≡ print (json_tokens (outcome_json outcome.now))) }
{
    let mut writer = Writer::new(Vec::new(alloc));
    put_outcome(alloc, &mut writer, outcome)?;
    Ok(writer.into_inner())
}
