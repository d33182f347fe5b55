//! The texts of events.
ghost use Rattle.std.specs.Prelude.{◌≡◌, map};
ghost use Rattle.abt_format.specs.EventTexts.{event_of, said, verb_of, said_by};
ghost use Rattle.abt_format.specs.EventTexts.{start_of, ask_of, ask_with, again_of, crash_of, emit_of, arrive_of, request_of, turn_of, answer_of, told_of, capacity_of};

use crate::value::{plan_of, rate_of};
use abt_keep::StorePlan;
use abt_model::Event;
use abt_text::{u16_of, u32_of, u64_of, words_of};

/// The words of an event's text at most: the verb and what three more say.
const WORDS_MAX: usize = 4;

/// The event that a text says, or `None` if it says none (docs/FORMATS.md, "Scenario").
pub fn event_of(text: &str) -> Option<Event>
    ensures { result ≡ event_of text.now }
{
    let mut words = [""; WORDS_MAX];
    let count = words_of(text, &mut words)?;
    said(&words[..count])
}

fn said(words: &[&str]) -> Option<Event>
    ensures { result ≡ said (map (λ word. word.now) words.now) }
{
    let (verb, words) = words.split_first()?;
    said_by(verb_of(verb)?, words)
}

/// What the first word of an event's text says that happens.
#[derive(Clone, Copy)]
pub enum Verb {
    Start,
    Ask,
    Again,
    Crash,
    Emit,
    Arrive,
    Request,
    Turn,
    Yes,
    No,
    ToldYes,
    ToldNo,
    Capacity,
}

fn verb_of(word: &str) -> Option<Verb>
    ensures { result ≡ verb_of word.now }
{
    // The words that come most often are looked at first.
    match word {
        "request" => Some(Verb::Request),
        "yes" => Some(Verb::Yes),
        "arrive" => Some(Verb::Arrive),
        "emit" => Some(Verb::Emit),
        "turn" => Some(Verb::Turn),
        "told-yes" => Some(Verb::ToldYes),
        "ask" => Some(Verb::Ask),
        "told-no" => Some(Verb::ToldNo),
        "no" => Some(Verb::No),
        "again" => Some(Verb::Again),
        "start" => Some(Verb::Start),
        "crash" => Some(Verb::Crash),
        "capacity" => Some(Verb::Capacity),
        _ => None,
    }
}

fn said_by(verb: Verb, words: &[&str]) -> Option<Event>
    ensures { result ≡ said_by verb (map (λ word. word.now) words.now) }
{
    match verb {
        Verb::Start => start_of(words),
        Verb::Ask => ask_of(words),
        Verb::Again => again_of(words),
        Verb::Crash => crash_of(words),
        Verb::Emit => emit_of(words),
        Verb::Arrive => arrive_of(words),
        Verb::Request => request_of(words),
        Verb::Turn => turn_of(words),
        Verb::Yes => answer_of(words, true),
        Verb::No => answer_of(words, false),
        Verb::ToldYes => told_of(words, true),
        Verb::ToldNo => told_of(words, false),
        Verb::Capacity => capacity_of(words),
    }
}

fn start_of(words: &[&str]) -> Option<Event>
    ensures { result ≡ start_of (map (λ word. word.now) words.now) }
{
    let [conn, now] = words else {
        return None;
    };
    Some(Event::Start {
        conn: u16_of(conn)?,
        now: u64_of(now)?,
    })
}

fn ask_of(words: &[&str]) -> Option<Event>
    ensures { result ≡ ask_of (map (λ word. word.now) words.now) }
{
    match words {
        [conn, code] => ask_with(conn, code, StorePlan::Works),
        [conn, code, plan] => ask_with(conn, code, plan_of(plan)?),
        _ => None,
    }
}

fn ask_with(conn: &str, code: &str, plan: StorePlan) -> Option<Event>
    ensures { result ≡ ask_with conn.now code.now plan }
{
    Some(Event::Ask {
        conn: u16_of(conn)?,
        rate: rate_of(code)?,
        plan,
    })
}

fn again_of(words: &[&str]) -> Option<Event>
    ensures { result ≡ again_of (map (λ word. word.now) words.now) }
{
    let [conn] = words else {
        return None;
    };
    Some(Event::Again {
        conn: u16_of(conn)?,
    })
}

fn crash_of(words: &[&str]) -> Option<Event>
    ensures { result ≡ crash_of (map (λ word. word.now) words.now) }
{
    let [conn] = words else {
        return None;
    };
    Some(Event::Crash {
        conn: u16_of(conn)?,
    })
}

fn emit_of(words: &[&str]) -> Option<Event>
    ensures { result ≡ emit_of (map (λ word. word.now) words.now) }
{
    let [conn, now] = words else {
        return None;
    };
    Some(Event::Emit {
        conn: u16_of(conn)?,
        now: u64_of(now)?,
    })
}

fn arrive_of(words: &[&str]) -> Option<Event>
    ensures { result ≡ arrive_of (map (λ word. word.now) words.now) }
{
    let [conn, cell, at] = words else {
        return None;
    };
    Some(Event::Arrive {
        conn: u16_of(conn)?,
        cell: u64_of(cell)?,
        at: u64_of(at)?,
    })
}

fn request_of(words: &[&str]) -> Option<Event>
    ensures { result ≡ request_of (map (λ word. word.now) words.now) }
{
    let [conn, hop, seq] = words else {
        return None;
    };
    Some(Event::Request {
        conn: u16_of(conn)?,
        hop: u16_of(hop)?,
        seq: u32_of(seq)?,
    })
}

fn turn_of(words: &[&str]) -> Option<Event>
    ensures { result ≡ turn_of (map (λ word. word.now) words.now) }
{
    let [conn, seq] = words else {
        return None;
    };
    Some(Event::Turn {
        conn: u16_of(conn)?,
        seq: u32_of(seq)?,
    })
}

fn answer_of(words: &[&str], granted: bool) -> Option<Event>
    ensures { result ≡ answer_of granted (map (λ word. word.now) words.now) }
{
    let [conn, hop, seq] = words else {
        return None;
    };
    Some(Event::Answer {
        conn: u16_of(conn)?,
        hop: u16_of(hop)?,
        seq: u32_of(seq)?,
        granted,
    })
}

fn told_of(words: &[&str], granted: bool) -> Option<Event>
    ensures { result ≡ told_of granted (map (λ word. word.now) words.now) }
{
    let [conn, seq] = words else {
        return None;
    };
    Some(Event::Told {
        conn: u16_of(conn)?,
        seq: u32_of(seq)?,
        granted,
    })
}

fn capacity_of(words: &[&str]) -> Option<Event>
    ensures { result ≡ capacity_of (map (λ word. word.now) words.now) }
{
    let [port, units] = words else {
        return None;
    };
    Some(Event::Capacity {
        port: u16_of(port)?,
        capacity: u64_of(units)?,
    })
}
