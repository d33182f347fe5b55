//! Lines of ports.
ghost use Rattle.std.specs.Prelude.{◌≡◌, option_map};
ghost use Rattle.json.specs.Value.{value_view};
ghost use Rattle.abt_entry.specs.PortLines as lines;

use crate::words::{arrive_fault_in, capacity_fault_in, drop_in, verdict_in};
use crate::{
    LineFault, Member, answer_in, channel_in, find, member_at, number_at, number_of, request_in,
    short_of,
};
use abt_journal::{Entry, PortInput, PortReply};
use abt_node::{Back, Onward};
use json::Value;

fn arrive_in(value: &Value<'_>) -> Result<PortInput, LineFault>
    ensures { result ≡ lines.arrive_in (value_view value.now) }
{
    let vc = channel_in(value)?;
    let at = number_at(value, Member::At)?;
    Ok(PortInput::Arrive { vc, at })
}

// The input of the port.
fn input_in(value: &Value<'_>) -> Result<PortInput, LineFault>
    ensures { result ≡ lines.input_in (value_view value.now) }
{
    if let Some(cell) = find(value, Member::Request) {
        return Ok(PortInput::Request(request_in(cell, Member::Request)?));
    }
    if let Some(cell) = find(value, Member::Answer) {
        return Ok(PortInput::Answer(answer_in(cell, Member::Answer)?));
    }
    if let Some(cell) = find(value, Member::Arrive) {
        return arrive_in(cell);
    }
    if let Some(units) = find(value, Member::Capacity) {
        return Ok(PortInput::Capacity(number_of(units, Member::Capacity)?));
    }
    Err(LineFault::Kind)
}

// The reply to a request.
fn onward_in(value: &Value<'_>) -> Result<Onward, LineFault>
    ensures { result ≡ lines.onward_in (value_view value.now) }
{
    if let Some(word) = value.as_str() {
        return match word {
            "passed" => Ok(Onward::Pass),
            _ => Err(LineFault::Member(Member::Reply)),
        };
    }
    if let Some(cell) = find(value, Member::Refused) {
        return Ok(Onward::Refuse(answer_in(cell, Member::Refused)?));
    }
    if let Some(word) = find(value, Member::Dropped) {
        return Ok(Onward::Drop(drop_in(word)?));
    }
    Err(LineFault::Kind)
}

// The reply to an answer.
fn back_in(value: &Value<'_>) -> Result<Back, LineFault>
    ensures { result ≡ lines.back_in (value_view value.now) }
{
    if let Some(word) = value.as_str() {
        return match word {
            "passed" => Ok(Back::Pass),
            _ => Err(LineFault::Member(Member::Reply)),
        };
    }
    if let Some(word) = find(value, Member::Dropped) {
        return Ok(Back::Drop(drop_in(word)?));
    }
    Err(LineFault::Kind)
}

// The verdict on a data cell, or why it has none.
fn judged_in(value: &Value<'_>) -> Result<PortReply, LineFault>
    ensures { result ≡ lines.judged_in (value_view value.now) }
{
    if let Some(word) = find(value, Member::Arrived) {
        return Ok(PortReply::Arrived(Ok(verdict_in(word)?)));
    }
    if let Some(word) = find(value, Member::Refused) {
        return Ok(PortReply::Arrived(Err(arrive_fault_in(word)?)));
    }
    Err(LineFault::Kind)
}

// Whether the link has its capacity now.
fn capped_in(value: &Value<'_>) -> Result<PortReply, LineFault>
    ensures { result ≡ lines.capped_in (value_view value.now) }
{
    if let Some(word) = value.as_str() {
        return match word {
            "set" => Ok(PortReply::Capped(Ok(()))),
            _ => Err(LineFault::Member(Member::Reply)),
        };
    }
    if let Some(word) = find(value, Member::Refused) {
        return Ok(PortReply::Capped(Err(capacity_fault_in(word)?)));
    }
    Err(LineFault::Kind)
}

// The reply of the port to an input.
fn reply_in(input: &PortInput, value: &Value<'_>) -> Result<PortReply, LineFault>
    ensures { result ≡ lines.reply_in input.now (value_view value.now) }
{
    match input {
        PortInput::Request(_) => Ok(PortReply::Requested(onward_in(value)?)),
        PortInput::Answer(_) => Ok(PortReply::Answered(back_in(value)?)),
        PortInput::Arrive { .. } => judged_in(value),
        PortInput::Capacity(_) => capped_in(value),
    }
}

// Who had the step done, nobody in particular if that isn't said.
fn caller_in(value: Option<&Value<'_>>) -> Result<u16, LineFault>
    ensures { result ≡ lines.caller_in (option_map (λ found. value_view found.now) value.entry) }
{
    match value {
        Some(value) => short_of(value, Member::Caller, 65536),
        None => Ok(0),
    }
}

// The place of the step, 0 if that isn't said.
fn place_in(value: Option<&Value<'_>>) -> Result<u64, LineFault>
    ensures { result ≡ lines.place_in (option_map (λ found. value_view found.now) value.entry) }
{
    match value {
        Some(value) => number_of(value, Member::Place),
        None => Ok(0),
    }
}

/// A step of a port.
pub(crate) fn step_in(value: &Value<'_>) -> Result<Entry, LineFault>
    ensures { result ≡ lines.step_in (value_view value.now) }
{
    let place = place_in(find(value, Member::Place))?;
    let caller = caller_in(find(value, Member::Caller))?;
    let input = input_in(member_at(value, Member::Input)?)?;
    let reply = reply_in(&input, member_at(value, Member::Reply)?)?;
    Ok(Entry {
        place,
        caller,
        input,
        reply,
    })
}
