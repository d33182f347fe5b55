//! What the lines of a switch ask for.
ghost use Rattle.std.specs.Prelude.{◌≡◌, IfOk, map};
ghost use Rattle.std.specs.Option.{option_map};
ghost use Rattle.abt_live.specs.SwitchAsked.{asked_by, asked_by_word, asked_in, asked_of, asked_on};
ghost use Rattle.abt_live.specs.SwitchAsked.{capacity_asked, capacity_said, channel_of, data_asked, data_said, input_of, message_alone};
ghost use Rattle.abt_live.specs.SwitchAsked.{message_asked, or_wrong};

use crate::fault::LiveFault;
use abt_cell::{Rm, Vc};
use abt_journal::PortInput;
use abt_perform::{Fault, message_of};
use abt_text::{u16_of, u64_of, words_of};
use std::alloc::{AllocError, Global};

/// The words of a line at most.
const WORDS_MAX: usize = 6;

/// What a line of a switch asks for (docs/LIVE.md, "A switch").
#[derive(Clone, Copy, Debug, PartialEq, Eq)]
pub enum SwitchAsked {
    /// That a port takes an input, which for a data cell has the number that its source gave it.
    Step {
        port: u16,
        input: PortInput,
        cell: Option<u64>,
    },
    /// Nothing that can be done.
    Wrong(LiveFault),
}

// What a line asks for, which is too long if there is `None`.
pub(crate) fn asked_on(alloc: Global, line: Option<&[u8]>) -> Result<SwitchAsked, AllocError>
    ensures { IfOk result (λ asked. asked ≡ asked_on (option_map (λ line. line.now) line.entry)) }
{
    match line {
        Some(octets) => asked_in(alloc, octets),
        None => Ok(SwitchAsked::Wrong(LiveFault::TooLong)),
    }
}

// What octets ask for, which is nothing that can be done if they are no text.
fn asked_in(alloc: Global, octets: &[u8]) -> Result<SwitchAsked, AllocError>
    ensures { IfOk result (λ asked. asked ≡ asked_in octets.now) }
{
    match std::str::from_utf8(octets) {
        Ok(text) => asked_by(alloc, text),
        Err(_) => Ok(SwitchAsked::Wrong(LiveFault::NotUtf8)),
    }
}

// What a text asks for.
#[tactic(auto, using(crate::proofs::LineTexts::switch_many))]
fn asked_by(alloc: Global, text: &str) -> Result<SwitchAsked, AllocError>
    ensures { IfOk result (λ asked. asked ≡ asked_by text.now) }
{
    let mut room = [""; WORDS_MAX];
    let Some(count) = words_of(text, &mut room) else {
        return Ok(SwitchAsked::Wrong(LiveFault::Words));
    };
    asked_of(alloc, &room[..count])
}

// What some words ask for.
fn asked_of(alloc: Global, words: &[&str]) -> Result<SwitchAsked, AllocError>
    ensures { IfOk result (λ asked. asked ≡ asked_of (map (λ word. word.now) words.now)) }
{
    let Some((port, words)) = words.split_first() else {
        return Ok(SwitchAsked::Wrong(LiveFault::Words));
    };
    let Some((word, more)) = words.split_first() else {
        return Ok(SwitchAsked::Wrong(LiveFault::Words));
    };
    asked_by_word(alloc, port, word, more)
}

// What the words of a port ask for, by the first of them.
fn asked_by_word(
    alloc: Global,
    port: &str,
    word: &str,
    more: &[&str],
) -> Result<SwitchAsked, AllocError>
    ensures { IfOk result (λ asked. asked
        ≡ asked_by_word port.now word.now (map (λ word. word.now) more.now)) }
{
    match word {
        "data" => Ok(data_asked(port, more)),
        "capacity" => Ok(capacity_asked(port, more)),
        _ => message_alone(alloc, port, word, more),
    }
}

// That a port takes the message of the cell that a word spells, if it stands alone.
fn message_alone(
    alloc: Global,
    port: &str,
    hex: &str,
    more: &[&str],
) -> Result<SwitchAsked, AllocError>
    ensures { IfOk result (λ asked. asked
        ≡ message_alone port.now hex.now (map (λ word. word.now) more.now)) }
{
    let [] = more else {
        return Ok(SwitchAsked::Wrong(LiveFault::Words));
    };
    message_asked(alloc, port, hex)
}

// That a port takes the message of the cell that a word spells.
fn message_asked(alloc: Global, port: &str, hex: &str) -> Result<SwitchAsked, AllocError>
    ensures { IfOk result (λ asked. asked ≡ message_asked port.now hex.now) }
{
    let Some(port) = u16_of(port) else {
        return Ok(SwitchAsked::Wrong(LiveFault::Words));
    };
    match message_of(alloc, hex.as_bytes()) {
        Ok(rm) => Ok(SwitchAsked::Step {
            port,
            input: input_of(&rm),
            cell: None,
        }),
        Err(Fault::Memory) => Err(AllocError),
        Err(fault) => Ok(SwitchAsked::Wrong(LiveFault::Cell(fault))),
    }
}

// A message, as it comes to a port.
pub(crate) fn input_of(rm: &Rm) -> PortInput
    ensures { result ≡ input_of rm.now }
{
    match rm {
        Rm::Request(request) => PortInput::Request(*request),
        Rm::Answer(answer) => PortInput::Answer(*answer),
    }
}

// That a port judges a data cell.
fn data_asked(port: &str, words: &[&str]) -> SwitchAsked
    ensures { result ≡ data_asked port.now (map (λ word. word.now) words.now) }
{
    let [cell, vpi, vci, at] = words else {
        return SwitchAsked::Wrong(LiveFault::Words);
    };
    data_said(port, cell, vpi, vci, at)
}

fn data_said(port: &str, cell: &str, vpi: &str, vci: &str, at: &str) -> SwitchAsked
    ensures { result ≡ or_wrong (data_said port.now cell.now vpi.now vci.now at.now) }
{
    let Some(port) = u16_of(port) else {
        return SwitchAsked::Wrong(LiveFault::Words);
    };
    let Some(cell) = u64_of(cell) else {
        return SwitchAsked::Wrong(LiveFault::Words);
    };
    let Some(vc) = channel_of(vpi, vci) else {
        return SwitchAsked::Wrong(LiveFault::Words);
    };
    let Some(at) = u64_of(at) else {
        return SwitchAsked::Wrong(LiveFault::Words);
    };
    SwitchAsked::Step {
        port,
        input: PortInput::Arrive { vc, at },
        cell: Some(cell),
    }
}

// The channel that two words say.
fn channel_of(vpi: &str, vci: &str) -> Option<Vc>
    ensures { result ≡ channel_of vpi.now vci.now }
{
    Vc::new(u16_of(vpi)?, u16_of(vci)?)
}

// That the link behind a port gets another capacity.
fn capacity_asked(port: &str, words: &[&str]) -> SwitchAsked
    ensures { result ≡ capacity_asked port.now (map (λ word. word.now) words.now) }
{
    let [units] = words else {
        return SwitchAsked::Wrong(LiveFault::Words);
    };
    capacity_said(port, units)
}

fn capacity_said(port: &str, units: &str) -> SwitchAsked
    ensures { result ≡ or_wrong (capacity_said port.now units.now) }
{
    let Some(port) = u16_of(port) else {
        return SwitchAsked::Wrong(LiveFault::Words);
    };
    let Some(units) = u64_of(units) else {
        return SwitchAsked::Wrong(LiveFault::Words);
    };
    SwitchAsked::Step {
        port,
        input: PortInput::Capacity(units),
        cell: None,
    }
}
