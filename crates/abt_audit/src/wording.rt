//! What entries at which journals are stuck wait for, in words.
ghost use Rattle.std.specs.Prelude.{◌≡◌, [], codes, IfOk, string_bytes};
ghost use Rattle.abt_rate.specs.Code.{code_of};
ghost use Rattle.abt_reason.specs.Reasons as reasons;
ghost use Rattle.abt_text.specs.Text.{◌⋅◌, code_text, decimal};
ghost use Rattle.abt_audit.specs.Waits as spec;
ghost use Rattle.abt_audit.specs.declared.missing.Missing.TheVariants as missing;

use crate::missing::Missing;
use crate::stuck::name_of;
use abt_cell::Vc;
use abt_format::seconds_text;
use abt_journal_text::Spot;
use abt_model::{Cause, Event, Outcome};
use abt_rate::Rate;
use abt_reason::{Grounds, Numbers, Sought, push_reason};
use abt_text::HexCode;
use std::alloc::{AllocError, Global};

// What an answer says.
fn verdict_text(granted: bool) -> &'static str
    ensures { result.now ≡ reasons.verdict_text granted }
{
    if granted { "yes " } else { "no " }
}

// The message that an event takes on, and where it is to be.
fn message_words(alloc: Global, event: Event) -> Result<String, AllocError>
    ensures { IfOk result (λ text. string_bytes text ≡ spec.message_words event) }
{
    match event {
        Event::Request { conn, hop, seq } => {
            format!(in alloc; "request {seq} of connection {conn} at hop {hop}")
        }
        Event::Answer {
            conn,
            hop,
            seq,
            granted,
        } => {
            let verdict = verdict_text(granted);
            format!(in alloc; "{verdict}{seq} of connection {conn} at hop {hop}")
        }
        Event::Told { conn, seq, granted } => {
            let verdict = verdict_text(granted);
            format!(in alloc; "{verdict}{seq} of connection {conn} at its source")
        }
        _ => Ok(String::new(alloc)),
    }
}

// A message that isn't where an event takes it on, and where it lies.
fn message_text(alloc: Global, event: Event, sought: Option<Sought>) -> Result<String, AllocError>
    ensures { IfOk result (λ text. string_bytes text ≡ spec.waits_words [] (missing.Message event sought)) }
{
    let words = message_words(alloc, event)?;
    let mut text = format!(in alloc; ": waits for {words}")?;
    let grounds = Grounds {
        numbers: Numbers::Nothing,
        sought,
    };
    push_reason(
        alloc,
        &mut text,
        &grounds,
        &Outcome::NotEnabled(Cause::NotSent),
    )?;
    Ok(text)
}

fn channel_text(alloc: Global, vc: Vc) -> Result<String, AllocError>
    ensures { IfOk result (λ text. string_bytes text ≡ spec.waits_words [] (missing.NoChannel vc)) }
{
    let vpi = vc.vpi();
    let vci = vc.vci();
    format!(in alloc; ": no connection has the channel {vpi}/{vci}")
}

// A rate, as its code.
fn code_words(alloc: Global, rate: Rate) -> Result<String, AllocError>
    ensures { IfOk result (λ text. string_bytes text ≡ code_text (code_of rate)) }
{
    let code = HexCode(rate.code());
    format!(in alloc; "{code}")
}

// The request of a number, with the codes that it has.
fn asked_words(
    alloc: Global,
    conn: u16,
    seq: u32,
    floor: &str,
    ask: &str,
) -> Result<String, AllocError>
    ensures { IfOk result (λ text. string_bytes text ≡ codes ": request " ⋅ decimal seq
        ⋅ codes " of connection " ⋅ decimal conn ⋅ codes " has the floor " ⋅ floor.now
        ⋅ codes " and asks for " ⋅ ask.now) }
{
    format!(in alloc;
        ": request {seq} of connection {conn} has the floor {floor} and asks for {ask}"
    )
}

fn rates_text(
    alloc: Global,
    conn: u16,
    seq: u32,
    floor: Rate,
    ask: Rate,
) -> Result<String, AllocError>
    ensures { IfOk result
        (λ text. string_bytes text ≡ spec.waits_words [] (missing.OtherRates conn seq floor ask)) }
{
    let floor = code_words(alloc, floor)?;
    let ask = code_words(alloc, ask)?;
    asked_words(alloc, conn, seq, floor.as_str(), ask.as_str())
}

fn cell_text(alloc: Global, conn: u16, cell: u64, from: u64, to: u64) -> Result<String, AllocError>
    ensures { IfOk result (λ text. string_bytes text ≡ spec.waits_words [] (missing.Cell conn cell from to)) }
{
    let from = seconds_text(alloc, from)?;
    let to = seconds_text(alloc, to)?;
    format!(in alloc;
        ": of connection {conn} the oldest cell that can still come is {cell}, from {from} s to {to} s"
    )
}

// Where a step stands, if a text has it.
fn spot_words(alloc: Global, names: &[String], spot: Option<Spot>) -> Result<String, AllocError>
    ensures { IfOk result (λ text. string_bytes text ≡ spec.spot_words names.now spot) }
{
    let Some(spot) = spot else {
        return String::from_str(alloc, ", which no text has");
    };
    let name = name_of(names, spot.text);
    let line = spot.line;
    format!(in alloc; ", {name}:{line}")
}

fn step_text(
    alloc: Global,
    names: &[String],
    port: u16,
    place: u64,
    spot: Option<Spot>,
) -> Result<String, AllocError>
    ensures { IfOk result
        (λ text. string_bytes text ≡ spec.waits_words names.now (missing.Step port place spot)) }
{
    let there = spot_words(alloc, names, spot)?;
    format!(in alloc; ": goes with step {place} of port {port}{there}")
}

// What an entry waits for, by what it misses.
pub(crate) fn waits_words(
    alloc: Global,
    names: &[String],
    missing: Missing,
) -> Result<String, AllocError>
    ensures { IfOk result (λ text. string_bytes text ≡ spec.waits_words names.now missing) }
{
    match missing {
        Missing::Nothing => Ok(String::new(alloc)),
        Missing::NoChannel { vc } => channel_text(alloc, vc),
        Missing::OffPath { conn, port } => {
            format!(in alloc; ": the path of connection {conn} doesn't visit port {port}")
        }
        Missing::NotFirst { conn, port } => format!(in alloc;
            ": cells of connection {conn} come to the first port of its path, and not to port {port}"
        ),
        Missing::Unasked { conn, seq } => format!(in alloc;
            ": waits for request {seq} of connection {conn}, which its source hasn't asked"
        ),
        Missing::OtherRates {
            conn,
            seq,
            floor,
            ask,
        } => rates_text(alloc, conn, seq, floor, ask),
        Missing::Beside { conn, place } => format!(in alloc;
            ": waits for source {conn} to say that it was sent at place {place}"
        ),
        Missing::Message { event, sought } => message_text(alloc, event, sought),
        Missing::NoCell { conn, cell } => {
            format!(in alloc; ": waits for cell {cell} of connection {conn}, which hasn't left")
        }
        Missing::Cell {
            conn,
            cell,
            from,
            to,
        } => cell_text(alloc, conn, cell, from, to),
        Missing::Step { port, place, spot } => step_text(alloc, names, port, place, spot),
    }
}
