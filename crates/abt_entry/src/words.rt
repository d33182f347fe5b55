//! The words of entries.
ghost use Rattle.std.specs.Prelude.{◌≡◌, Some, option_map, option_and_then};
ghost use Rattle.json.specs.Find.{as_str};
ghost use Rattle.json.specs.Value.{value_view};
ghost use Rattle.abt_entry.specs.Words as words;
ghost use Rattle.abt_entry.specs.Reading.{needed};
ghost use Rattle.abt_entry.specs.declared.member.Member.TheVariants as of;

use crate::{LineFault, Member};
use abt_gcra::Verdict;
use abt_keep::StorePlan;
use abt_ledger::CapacityFault;
use abt_model::{Cause, Heard};
use abt_node::{ArriveFault, DropCause};
use abt_source::{AskFault, StartFault};
use json::Value;

fn drop_of(word: &str) -> Option<DropCause>
    ensures { result ≡ words.drop_of word.now }
{
    match word {
        "UnknownVc" => Some(DropCause::UnknownVc),
        "Stale" => Some(DropCause::Stale),
        "Conflict" => Some(DropCause::Conflict),
        "FloorAbove" => Some(DropCause::FloorAbove),
        _ => None,
    }
}

fn verdict_of(word: &str) -> Option<Verdict>
    ensures { result ≡ words.verdict_of word.now }
{
    match word {
        "Conforming" => Some(Verdict::Conforming),
        "TooEarly" => Some(Verdict::TooEarly),
        "NoRate" => Some(Verdict::NoRate),
        _ => None,
    }
}

fn arrive_fault_of(word: &str) -> Option<ArriveFault>
    ensures { result ≡ words.arrive_fault_of word.now }
{
    match word {
        "UnknownVc" => Some(ArriveFault::UnknownVc),
        "NotIngress" => Some(ArriveFault::NotIngress),
        "ClockBack" => Some(ArriveFault::ClockBack),
        "TimeRange" => Some(ArriveFault::TimeRange),
        _ => None,
    }
}

fn capacity_fault_of(word: &str) -> Option<CapacityFault>
    ensures { result ≡ words.capacity_fault_of word.now }
{
    match word {
        "BelowSum" => Some(CapacityFault::BelowSum),
        "AboveLimit" => Some(CapacityFault::AboveLimit),
        _ => None,
    }
}

fn start_fault_of(word: &str) -> Option<StartFault>
    ensures { result ≡ words.start_fault_of word.now }
{
    match word {
        "Keep" => Some(StartFault::Keep),
        "TimeRange" => Some(StartFault::TimeRange),
        _ => None,
    }
}

fn ask_fault_of(word: &str) -> Option<AskFault>
    ensures { result ≡ words.ask_fault_of word.now }
{
    match word {
        "SeqExhausted" => Some(AskFault::SeqExhausted),
        "Keep" => Some(AskFault::Keep),
        _ => None,
    }
}

fn heard_of(word: &str) -> Option<Heard>
    ensures { result ≡ words.heard_of word.now }
{
    match word {
        "Raised" => Some(Heard::Raised),
        "Refused" => Some(Heard::Refused),
        "Ignored" => Some(Heard::Ignored),
        _ => None,
    }
}

fn cause_of(word: &str) -> Option<Cause>
    ensures { result ≡ words.cause_of word.now }
{
    match word {
        "Down" => Some(Cause::Down),
        "Running" => Some(Cause::Running),
        "NotSent" => Some(Cause::NotSent),
        "Fenced" => Some(Cause::Fenced),
        "Delay" => Some(Cause::Delay),
        "ClockBack" => Some(Cause::ClockBack),
        "Unknown" => Some(Cause::Unknown),
        "NotAsking" => Some(Cause::NotAsking),
        _ => None,
    }
}

fn plan_of(word: &str) -> Option<StorePlan>
    ensures { result ≡ words.plan_of word.now }
{
    match word {
        "works" => Some(StorePlan::Works),
        "before" => Some(StorePlan::FailsBefore),
        "after" => Some(StorePlan::FailsAfter),
        "failed" => Some(StorePlan::FailsBefore),
        _ => None,
    }
}

fn is_failed_word(word: &str) -> bool
    ensures { result ≡ words.is_failed (Some word.now) }
{
    match word {
        "failed" => true,
        _ => false,
    }
}

// Whether the value of a member, if it is there, tells no more than that a write failed.
pub(crate) fn is_failed_in(value: Option<&Value<'_>>) -> bool
    ensures { result ≡ words.is_failed (option_and_then as_str
        (option_map (λ found. value_view found.now) value.entry)) }
{
    let Some(found) = value else {
        return false;
    };
    match found.as_str() {
        Some(word) => is_failed_word(word),
        None => false,
    }
}

// The cause of a drop that the value of a member names.
pub(crate) fn drop_in(value: &Value<'_>) -> Result<DropCause, LineFault>
    ensures { result ≡ needed of.Dropped (option_and_then words.drop_of (as_str (value_view value.now))) }
{
    match value.as_str() {
        Some(word) => drop_of(word).ok_or(LineFault::Member(Member::Dropped)),
        None => Err(LineFault::Member(Member::Dropped)),
    }
}

// The verdict that the value of a member names.
pub(crate) fn verdict_in(value: &Value<'_>) -> Result<Verdict, LineFault>
    ensures { result ≡ needed of.Arrived (option_and_then words.verdict_of (as_str (value_view value.now))) }
{
    match value.as_str() {
        Some(word) => verdict_of(word).ok_or(LineFault::Member(Member::Arrived)),
        None => Err(LineFault::Member(Member::Arrived)),
    }
}

// The fault of an arrival that the value of a member names.
pub(crate) fn arrive_fault_in(value: &Value<'_>) -> Result<ArriveFault, LineFault>
    ensures { result ≡
        needed of.Refused (option_and_then words.arrive_fault_of (as_str (value_view value.now))) }
{
    match value.as_str() {
        Some(word) => arrive_fault_of(word).ok_or(LineFault::Member(Member::Refused)),
        None => Err(LineFault::Member(Member::Refused)),
    }
}

// The fault of a capacity that the value of a member names.
pub(crate) fn capacity_fault_in(value: &Value<'_>) -> Result<CapacityFault, LineFault>
    ensures { result ≡
        needed of.Refused (option_and_then words.capacity_fault_of (as_str (value_view value.now))) }
{
    match value.as_str() {
        Some(word) => capacity_fault_of(word).ok_or(LineFault::Member(Member::Refused)),
        None => Err(LineFault::Member(Member::Refused)),
    }
}

// The fault of a start that the value of a member names.
pub(crate) fn start_fault_in(value: &Value<'_>) -> Result<StartFault, LineFault>
    ensures { result ≡
        needed of.Refused (option_and_then words.start_fault_of (as_str (value_view value.now))) }
{
    match value.as_str() {
        Some(word) => start_fault_of(word).ok_or(LineFault::Member(Member::Refused)),
        None => Err(LineFault::Member(Member::Refused)),
    }
}

// The fault of an ask that the value of a member names.
pub(crate) fn ask_fault_in(value: &Value<'_>) -> Result<AskFault, LineFault>
    ensures { result ≡
        needed of.Refused (option_and_then words.ask_fault_of (as_str (value_view value.now))) }
{
    match value.as_str() {
        Some(word) => ask_fault_of(word).ok_or(LineFault::Member(Member::Refused)),
        None => Err(LineFault::Member(Member::Refused)),
    }
}

// What a source made of an answer, as the value of a member names it.
pub(crate) fn heard_in(value: &Value<'_>) -> Result<Heard, LineFault>
    ensures { result ≡ needed of.Told (option_and_then words.heard_of (as_str (value_view value.now))) }
{
    match value.as_str() {
        Some(word) => heard_of(word).ok_or(LineFault::Member(Member::Told)),
        None => Err(LineFault::Member(Member::Told)),
    }
}

// The cause for which an event isn't enabled, as the value of a member names it.
pub(crate) fn cause_in(value: &Value<'_>) -> Result<Cause, LineFault>
    ensures { result ≡ needed of.NotEnabled (option_and_then words.cause_of (as_str (value_view value.now))) }
{
    match value.as_str() {
        Some(word) => cause_of(word).ok_or(LineFault::Member(Member::NotEnabled)),
        None => Err(LineFault::Member(Member::NotEnabled)),
    }
}

// The plan of a store that the value of a member names.
pub(crate) fn plan_word_in(value: &Value<'_>) -> Result<StorePlan, LineFault>
    ensures { result ≡ needed of.Store (option_and_then words.plan_of (as_str (value_view value.now))) }
{
    match value.as_str() {
        Some(word) => plan_of(word).ok_or(LineFault::Member(Member::Store)),
        None => Err(LineFault::Member(Member::Store)),
    }
}
