//! Lines of sources.
ghost use Rattle.std.specs.Prelude.{◌≡◌, option_map};
ghost use Rattle.json.specs.Find.{as_str};
ghost use Rattle.json.specs.Value.{value_view};
ghost use Rattle.abt_entry.specs.SourceLines as lines;
ghost use Rattle.abt_entry.specs.Values.{find as find_in};
ghost use Rattle.abt_entry.specs.declared.member.Member.TheVariants as of;

use crate::words::{ask_fault_in, cause_in, heard_in, is_failed_in, plan_word_in, start_fault_in};
use crate::{
    LineFault, Member, find, long_of, member_at, number_at, number_of, rate_as, request_in,
    truth_at,
};
use abt_keep::StorePlan;
use abt_model::{Event, Outcome, SourceEntry};
use abt_shaper::ShapeFault;
use abt_source::AskFault;
use json::Value;

// How the store does at an ask.
fn plan_in(value: Option<&Value<'_>>) -> Result<StorePlan, LineFault>
    ensures { result ≡ lines.plan_in (option_map (λ found. value_view found.now) value.entry) }
{
    match value {
        Some(value) => plan_word_in(value),
        None => Ok(StorePlan::Works),
    }
}

fn ask_in(conn: u16, value: &Value<'_>, code: &Value<'_>) -> Result<Event, LineFault>
    ensures { result ≡ lines.ask_in conn (value_view value.now) (value_view code.now) }
{
    let rate = rate_as(code, Member::Ask)?;
    let plan = plan_in(find(value, Member::Store))?;
    Ok(Event::Ask { conn, rate, plan })
}

fn told_in(conn: u16, value: &Value<'_>, number: &Value<'_>) -> Result<Event, LineFault>
    ensures { result ≡ lines.told_in conn (value_view value.now) (value_view number.now) }
{
    let seq = long_of(number, Member::Told, 4_294_967_296)?;
    let granted = truth_at(value, Member::Granted)?;
    Ok(Event::Told { conn, seq, granted })
}

// The deed of the source of a connection.
fn did_in(conn: u16, value: &Value<'_>) -> Result<Event, LineFault>
    ensures { result ≡ lines.did_in conn (value_view value.now) }
{
    if let Some(word) = value.as_str() {
        return match word {
            "again" => Ok(Event::Again { conn }),
            "crash" => Ok(Event::Crash { conn }),
            _ => Err(LineFault::Member(Member::Did)),
        };
    }
    if let Some(moment) = find(value, Member::Start) {
        let now = number_of(moment, Member::Start)?;
        return Ok(Event::Start { conn, now });
    }
    if let Some(code) = find(value, Member::Ask) {
        return ask_in(conn, value, code);
    }
    if let Some(moment) = find(value, Member::Emit) {
        let now = number_of(moment, Member::Emit)?;
        return Ok(Event::Emit { conn, now });
    }
    if let Some(number) = find(value, Member::Told) {
        return told_in(conn, value, number);
    }
    Err(LineFault::Kind)
}

// Why no cell left.
fn shape_fault_in(value: &Value<'_>) -> Result<ShapeFault, LineFault>
    ensures { result ≡ lines.shape_by (value_view value.now) (as_str (value_view value.now)) }
{
    let Some(word) = value.as_str() else {
        let next = number_at(value, Member::TooSoon)?;
        return Ok(ShapeFault::TooSoon { next });
    };
    match word {
        "ClockBack" => Ok(ShapeFault::ClockBack),
        "TimeRange" => Ok(ShapeFault::TimeRange),
        "Zero" => Ok(ShapeFault::Zero),
        _ => Err(LineFault::Member(Member::Refused)),
    }
}

// Why a source didn't do what it was to.
fn refusal_in(event: &Event, value: &Value<'_>) -> Result<Outcome, LineFault>
    ensures { result ≡ lines.refusal_in event.now (value_view value.now) }
{
    match event {
        Event::Start { .. } => Ok(Outcome::StartRefused(start_fault_in(value)?)),
        Event::Ask { .. } => Ok(Outcome::AskRefused(ask_fault_in(value)?)),
        Event::Emit { .. } => Ok(Outcome::EmitRefused(shape_fault_in(value)?)),
        _ => Err(LineFault::Member(Member::Refused)),
    }
}

fn emitted_in(value: &Value<'_>) -> Result<Outcome, LineFault>
    ensures { result ≡ lines.emitted_in (value_view value.now) }
{
    let cell = number_at(value, Member::Cell)?;
    let next = number_at(value, Member::Next)?;
    Ok(Outcome::Emitted { cell, next })
}

// The outcome of an event.
fn outcome_in(event: &Event, value: &Value<'_>) -> Result<Outcome, LineFault>
    ensures { result ≡ lines.outcome_in event.now (value_view value.now) }
{
    if let Some(word) = value.as_str() {
        return match word {
            "started" => Ok(Outcome::Started),
            "crashed" => Ok(Outcome::Crashed),
            _ => Err(LineFault::Member(Member::Outcome)),
        };
    }
    if let Some(why) = find(value, Member::Refused) {
        return refusal_in(event, why);
    }
    if let Some(cell) = find(value, Member::Asked) {
        return Ok(Outcome::Asked(request_in(cell, Member::Asked)?));
    }
    if let Some(cell) = find(value, Member::Again) {
        return Ok(Outcome::Repeated(request_in(cell, Member::Again)?));
    }
    if let Some(cell) = find(value, Member::Emitted) {
        return emitted_in(cell);
    }
    if let Some(word) = find(value, Member::Told) {
        return Ok(Outcome::Told(heard_in(word)?));
    }
    if let Some(word) = find(value, Member::NotEnabled) {
        return Ok(Outcome::NotEnabled(cause_in(word)?));
    }
    Err(LineFault::Kind)
}

fn deed_in(conn: u16, value: &Value<'_>, did: &Value<'_>) -> Result<SourceEntry, LineFault>
    ensures { result ≡ lines.deed_in conn (value_view value.now) (value_view did.now) }
{
    let event = did_in(conn, did)?;
    let outcome = outcome_in(&event, member_at(value, Member::Outcome)?)?;
    Ok(SourceEntry::Did(event, outcome))
}

fn arrived_in(value: &Value<'_>) -> Result<SourceEntry, LineFault>
    ensures { result ≡ lines.arrived_in (value_view value.now) }
{
    let cell = number_at(value, Member::Cell)?;
    let place = number_at(value, Member::Place)?;
    Ok(SourceEntry::Arrived { cell, place })
}

// Whether the source refused since its record isn't stored.
fn lacks_record(outcome: &Outcome) -> bool
    ensures { result ≡ lines.lacks_record outcome.now }
{
    matches!(outcome, Outcome::AskRefused(AskFault::Keep))
}

// Whether a write failed of which it isn't said whether it was stored.
fn is_untold(store: Option<&Value<'_>>, outcome: &Outcome) -> bool
    ensures { result ≡ lines.is_untold outcome.now (option_map (λ found. value_view found.now) store.entry) }
{
    match store {
        Some(_) => is_failed_in(store),
        None => lacks_record(outcome),
    }
}

// Whether what a source did leaves open whether a write that failed was stored.
fn leaves_open(event: &Event, outcome: &Outcome, did: &Value<'_>) -> bool
    ensures { result ≡ lines.leaves_open event.now outcome.now (value_view did.now) }
{
    match event {
        Event::Ask { .. } => is_untold(find(did, Member::Store), outcome),
        _ => false,
    }
}

// Whether an entry leaves that open, which the value says.
pub(crate) fn is_open_in(value: &Value<'_>, entry: &SourceEntry) -> bool
    ensures { result ≡ lines.is_open_in entry.now (find_in of.Did (value_view value.now)) }
{
    let SourceEntry::Did(event, outcome) = entry else {
        return false;
    };
    match find(value, Member::Did) {
        Some(did) => leaves_open(event, outcome, did),
        None => false,
    }
}

// Puts an ask under the plan that nothing was stored.
pub(crate) fn leave_unstored(entry: &mut SourceEntry)
    ensures { entry.new ≡ lines.unstored entry.old }
{
    if let SourceEntry::Did(Event::Ask { plan, .. }, _) = entry {
        *plan = StorePlan::FailsBefore;
    }
}

/// An entry of the source of a connection.
pub(crate) fn entry_in(conn: u16, value: &Value<'_>) -> Result<SourceEntry, LineFault>
    ensures { result ≡ lines.entry_in conn (value_view value.now) }
{
    if let Some(did) = find(value, Member::Did) {
        return deed_in(conn, value, did);
    }
    if let Some(number) = find(value, Member::Sent) {
        let place = number_of(number, Member::Sent)?;
        return Ok(SourceEntry::Sent { place });
    }
    if let Some(cell) = find(value, Member::Arrived) {
        return arrived_in(cell);
    }
    Err(LineFault::Kind)
}
