//! Channels, requests and answers.
ghost use Rattle.std.specs.Prelude.{◌≡◌};
ghost use Rattle.json.specs.Value.{value_view};
ghost use Rattle.abt_entry.specs.Cells as cells;

use crate::fault::LineFault;
use crate::member::Member;
use crate::value::{long_at, rate_at, short_at, truth_at};
use abt_cell::{Answer, Cell, Request, Rm, Vc, read_rm};
use hex::FromHex;
use json::Value;

/// The channel that the members `vpi` and `vci` name.
pub fn channel_in(value: &Value<'_>) -> Result<Vc, LineFault>
    ensures { result ≡ cells.channel_in (value_view value.now) }
{
    let vpi = short_at(value, Member::Vpi, 4096)?;
    let vci = short_at(value, Member::Vci, 65536)?;
    match Vc::new(vpi, vci) {
        Some(vc) => Ok(vc),
        None => Err(LineFault::Member(Member::Vpi)),
    }
}

// A request by its fields.
fn terms_in(value: &Value<'_>) -> Result<Request, LineFault>
    ensures { result ≡ cells.terms_in (value_view value.now) }
{
    let vc = channel_in(value)?;
    let seq = long_at(value, Member::Seq, 4_294_967_296)?;
    let floor = rate_at(value, Member::Floor)?;
    let ask = rate_at(value, Member::Ask)?;
    if seq == 0 {
        return Err(LineFault::Member(Member::Seq));
    }
    match Request::new(vc, seq, floor, ask) {
        Some(request) => Ok(request),
        None => Err(LineFault::Member(Member::Ask)),
    }
}

// An answer by its fields.
fn reply_in(value: &Value<'_>) -> Result<Answer, LineFault>
    ensures { result ≡ cells.reply_in (value_view value.now) }
{
    let request = terms_in(value)?;
    let granted = truth_at(value, Member::Granted)?;
    Ok(Answer::of(&request, granted))
}

// The message of an RM cell of 52 octets in hexadecimal digits.
fn message_of(text: &str) -> Result<Rm, LineFault>
    ensures { result ≡ cells.message_of text.now }
{
    let Ok(octets) = <[u8; 52] as FromHex>::from_hex(text) else {
        return Err(LineFault::Hex);
    };
    let Ok(cell) = Cell::from_octets(&octets) else {
        return Err(LineFault::Hex);
    };
    match read_rm(&cell) {
        Ok(message) => Ok(message),
        Err(fault) => Err(LineFault::Cell(fault)),
    }
}

/// A request that is the value of a member: its RM cell as a text, or else its fields.
pub fn request_in(value: &Value<'_>, member: Member) -> Result<Request, LineFault>
    ensures { result ≡ cells.request_in member (value_view value.now) }
{
    let Some(text) = value.as_str() else {
        return terms_in(value);
    };
    match message_of(text)? {
        Rm::Request(request) => Ok(request),
        Rm::Answer(_) => Err(LineFault::Member(member)),
    }
}

/// An answer that is the value of a member: its RM cell as a text, or else its fields.
pub fn answer_in(value: &Value<'_>, member: Member) -> Result<Answer, LineFault>
    ensures { result ≡ cells.answer_in member (value_view value.now) }
{
    let Some(text) = value.as_str() else {
        return reply_in(value);
    };
    match message_of(text)? {
        Rm::Answer(answer) => Ok(answer),
        Rm::Request(_) => Err(LineFault::Member(member)),
    }
}
