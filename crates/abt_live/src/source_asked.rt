//! What the lines of a source ask for.
ghost use Rattle.std.specs.Prelude.{◌≡◌, IfOk, map};
ghost use Rattle.std.specs.Option.{option_map};
ghost use Rattle.abt_live.specs.SourceAsked.{again_or_answer, answer_asked, asked_by, asked_in, asked_of, asked_on, asked_rate, deed_asked, emitted_at, heard_in, started_at};

use crate::fault::LiveFault;
use abt_cell::{Answer, Rm};
use abt_format::rate_of;
use abt_perform::{Fault, message_of};
use abt_rate::Rate;
use abt_text::{u64_of, words_of};
use std::alloc::{AllocError, Global};

/// The words of a line at most.
const WORDS_MAX: usize = 2;

/// What a line of a source asks for (docs/LIVE.md, "A source").
#[derive(Clone, Copy, Debug, PartialEq, Eq)]
pub enum SourceAsked {
    /// That it starts, at a moment in picoseconds.
    Start { now: u64 },
    /// That it asks for a rate.
    Ask { rate: Rate },
    /// That it repeats its open request.
    Again,
    /// That it emits a cell, at a moment in picoseconds.
    Emit { now: u64 },
    /// That it hears an answer.
    Told(Answer),
    /// Nothing that can be done.
    Wrong(LiveFault),
}

// What a line asks for, which is too long if there is `None`.
pub(crate) fn asked_on(alloc: Global, line: Option<&[u8]>) -> Result<SourceAsked, AllocError>
    ensures { IfOk result (λ asked. asked ≡ asked_on (option_map (λ line. line.now) line.entry)) }
{
    match line {
        Some(octets) => asked_in(alloc, octets),
        None => Ok(SourceAsked::Wrong(LiveFault::TooLong)),
    }
}

// What octets ask for, which is nothing that can be done if they are no text.
fn asked_in(alloc: Global, octets: &[u8]) -> Result<SourceAsked, AllocError>
    ensures { IfOk result (λ asked. asked ≡ asked_in octets.now) }
{
    match std::str::from_utf8(octets) {
        Ok(text) => asked_by(alloc, text),
        Err(_) => Ok(SourceAsked::Wrong(LiveFault::NotUtf8)),
    }
}

// What a text asks for.
#[tactic(auto, using(crate::proofs::LineTexts::source_many))]
fn asked_by(alloc: Global, text: &str) -> Result<SourceAsked, AllocError>
    ensures { IfOk result (λ asked. asked ≡ asked_by text.now) }
{
    let mut room = [""; WORDS_MAX];
    let Some(count) = words_of(text, &mut room) else {
        return Ok(SourceAsked::Wrong(LiveFault::Words));
    };
    asked_of(alloc, &room[..count])
}

// What some words ask for.
fn asked_of(alloc: Global, words: &[&str]) -> Result<SourceAsked, AllocError>
    ensures { IfOk result (λ asked. asked ≡ asked_of (map (λ word. word.now) words.now)) }
{
    match words {
        [word] => again_or_answer(alloc, word),
        [word, more] => Ok(deed_asked(word, more)),
        _ => Ok(SourceAsked::Wrong(LiveFault::Words)),
    }
}

// What a word alone asks for.
fn again_or_answer(alloc: Global, word: &str) -> Result<SourceAsked, AllocError>
    ensures { IfOk result (λ asked. asked ≡ again_or_answer word.now) }
{
    if word == "again" {
        return Ok(SourceAsked::Again);
    }
    answer_asked(alloc, word)
}

// What two words ask for.
fn deed_asked(word: &str, more: &str) -> SourceAsked
    ensures { result ≡ deed_asked word.now more.now }
{
    match word {
        "start" => started_at(more),
        "ask" => asked_rate(more),
        "emit" => emitted_at(more),
        _ => SourceAsked::Wrong(LiveFault::Words),
    }
}

// That the source hears the answer of the cell that a word spells.
fn answer_asked(alloc: Global, hex: &str) -> Result<SourceAsked, AllocError>
    ensures { IfOk result (λ asked. asked ≡ answer_asked hex.now) }
{
    match message_of(alloc, hex.as_bytes()) {
        Ok(rm) => Ok(heard_in(&rm)),
        Err(Fault::Memory) => Err(AllocError),
        Err(fault) => Ok(SourceAsked::Wrong(LiveFault::Cell(fault))),
    }
}

// A message, as it comes to a source.
pub(crate) fn heard_in(rm: &Rm) -> SourceAsked
    ensures { result ≡ heard_in rm.now }
{
    match rm {
        Rm::Answer(answer) => SourceAsked::Told(*answer),
        Rm::Request(_) => SourceAsked::Wrong(LiveFault::Request),
    }
}

// That the source starts at the moment that a word says.
fn started_at(word: &str) -> SourceAsked
    ensures { result ≡ started_at word.now }
{
    match u64_of(word) {
        Some(now) => SourceAsked::Start { now },
        None => SourceAsked::Wrong(LiveFault::Words),
    }
}

// That the source emits a cell at the moment that a word says.
fn emitted_at(word: &str) -> SourceAsked
    ensures { result ≡ emitted_at word.now }
{
    match u64_of(word) {
        Some(now) => SourceAsked::Emit { now },
        None => SourceAsked::Wrong(LiveFault::Words),
    }
}

// That the source asks for the rate whose code a word is.
fn asked_rate(word: &str) -> SourceAsked
    ensures { result ≡ asked_rate word.now }
{
    match rate_of(word) {
        Some(rate) => SourceAsked::Ask { rate },
        None => SourceAsked::Wrong(LiveFault::Words),
    }
}
