//! The texts of events.
ghost use Rattle.std.specs.Prelude.{◌≡◌, ◌++◌, OnOk, string_bytes};
ghost use Rattle.abt_format.specs.EventText.{event_text, plan_text, answer_word, told_word};

use abt_keep::StorePlan;
use abt_model::Event;
use abt_text::HexCode;
use std::alloc::AllocError;

/// Adds the text of an event, as scenarios have it (docs/FORMATS.md, "Scenario"): codes are canonical, and numbers have no zeros in
/// front.
pub fn push_event(text: &mut String, event: &Event) -> Result<(), AllocError>
    ensures { OnOk result (string_bytes text.new ≡ string_bytes text.old ++ event_text event.now) }
{
    match *event {
        Event::Start { conn, now } => write!(text, "start {conn} {now}"),
        Event::Ask { conn, rate, plan } => {
            let code = HexCode(rate.code());
            let plan = plan_text(plan);
            write!(text, "ask {conn} {code}{plan}")
        }
        Event::Again { conn } => write!(text, "again {conn}"),
        Event::Crash { conn } => write!(text, "crash {conn}"),
        Event::Emit { conn, now } => write!(text, "emit {conn} {now}"),
        Event::Arrive { conn, cell, at } => write!(text, "arrive {conn} {cell} {at}"),
        Event::Request { conn, hop, seq } => write!(text, "request {conn} {hop} {seq}"),
        Event::Turn { conn, seq } => write!(text, "turn {conn} {seq}"),
        Event::Answer {
            conn,
            hop,
            seq,
            granted,
        } => {
            let word = answer_word(granted);
            write!(text, "{word} {conn} {hop} {seq}")
        }
        Event::Told { conn, seq, granted } => {
            let word = told_word(granted);
            write!(text, "{word} {conn} {seq}")
        }
        Event::Capacity { port, capacity } => write!(text, "capacity {port} {capacity}"),
    }
}

// How the store fails, if it does.
fn plan_text(plan: StorePlan) -> &'static str
    ensures { result.now ≡ plan_text plan }
{
    match plan {
        StorePlan::Works => "",
        StorePlan::FailsBefore => " before",
        StorePlan::FailsAfter => " after",
    }
}

// The first word of an answer at a hop.
fn answer_word(granted: bool) -> &'static str
    ensures { result.now ≡ answer_word granted }
{
    if granted { "yes" } else { "no" }
}

// The first word of an answer at its source.
fn told_word(granted: bool) -> &'static str
    ensures { result.now ≡ told_word granted }
{
    if granted { "told-yes" } else { "told-no" }
}
