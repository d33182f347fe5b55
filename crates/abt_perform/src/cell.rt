//! Cells as hexadecimal text, and the text of `abt cell`.
ghost use Rattle.std.specs.Prelude.{◌≡◌, ◌⊎◌, Ok, Err, IfOk, IfErr, OnOk, string_bytes};
ghost use Rattle.abt_text.specs.Text.{◌⋅◌, decimal};
ghost use Rattle.abt_perform.specs.CellText.{message_in, message_of, message_hex, message_text, kind_text, vc_text, rates_text, terms_text, cell_line, cell_text};
ghost use Rattle.abt_perform.specs.declared.fault.Fault.TheVariants.{Memory};

use crate::fault::Fault;
use abt_cell::{Cell, Rm, Vc, read_rm, write_rm};
use abt_rate::Rate;
use abt_text::HexCode;
use hex::{FromHex, FromHexError};
use itoa::Buffer;
use std::alloc::{AllocError, Global};

/// The text of `abt cell`: what the RM cell says that a text spells.
pub fn cell_text(alloc: Global, hex: &str) -> Result<String, Fault>
    ensures ok { IfOk result (λ text. cell_text hex.now ≡ Ok (string_bytes text)) }
    ensures err { IfErr result (λ fault. (fault ≡ Memory) ⊎ (cell_text hex.now ≡ Err fault)) }
{
    let rm = message_of(alloc, hex.as_bytes())?;
    Ok(cell_line(alloc, &rm)?)
}

/// The request or answer of the RM cell that a text spells, given its octets, or the first thing that is wrong with it.
pub fn message_of(alloc: Global, hex: &[u8]) -> Result<Rm, Fault>
    ensures ok { IfOk result (λ rm. message_of hex.now ≡ Ok rm) }
    ensures err { IfErr result (λ fault. (fault ≡ Memory) ⊎ (message_of hex.now ≡ Err fault)) }
{
    match <[u8; 52] as FromHex>::from_hex(hex) {
        Ok(octets) => message_in(&octets),
        Err(FromHexError::InvalidStringLength) => message_of_any_length(alloc, hex),
        Err(_) => Err(Fault::Hex),
    }
}

// The message that a text of any length spells. Of one that isn't a cell's, bad digits are told before the length.
fn message_of_any_length(alloc: Global, hex: &[u8]) -> Result<Rm, Fault>
    ensures ok { IfOk result (λ rm. message_of hex.now ≡ Ok rm) }
    ensures err { IfErr result (λ fault. (fault ≡ Memory) ⊎ (message_of hex.now ≡ Err fault)) }
{
    match hex::decode(alloc, hex) {
        Ok(octets) => message_in(octets.as_slice()),
        Err(FromHexError::OutOfMemory) => Err(Fault::Memory),
        Err(_) => Err(Fault::Hex),
    }
}

// The message of the octets of a cell.
fn message_in(octets: &[u8]) -> Result<Rm, Fault>
    ensures { result ≡ message_in (Ok octets.now) }
{
    let Ok(cell) = Cell::from_octets(octets) else {
        return Err(Fault::Length);
    };
    read_rm(&cell).map_err(Fault::Rm)
}

/// A request or an answer as the hexadecimal text of the cell that is written for it.
pub fn message_hex(alloc: Global, rm: &Rm) -> Result<String, AllocError>
    ensures { IfOk result (λ text. string_bytes text ≡ message_hex rm.now) }
{
    hex::encode(alloc, write_rm(rm).to_octets())
}

// The line of `abt cell`.
fn cell_line(alloc: Global, rm: &Rm) -> Result<String, AllocError>
    ensures { IfOk result (λ line. string_bytes line ≡ cell_line rm.now) }
{
    let mut line = String::new(alloc);
    push_message_text(&mut line, rm)?;
    line.push_str("\n")?;
    Ok(line)
}

/// Adds what a request or an answer says to a text, without a line feed: which message it is, the connection, the number and the rates.
pub fn push_message_text(text: &mut String, rm: &Rm) -> Result<(), AllocError>
    ensures { OnOk result (string_bytes text.new ≡ string_bytes text.old ⋅ message_text rm.now) }
{
    text.push_str(kind_text(rm))?;
    text.push_str(" ")?;
    let request = rm.request();
    push_terms(
        text,
        request.vc(),
        request.seq(),
        request.floor(),
        request.ask(),
    )
}

// Which message it is.
fn kind_text(rm: &Rm) -> &'static str
    ensures { result.now ≡ kind_text rm.now }
{
    match rm {
        Rm::Request(_) => "request",
        Rm::Answer(answer) if answer.granted() => "answer yes",
        Rm::Answer(_) => "answer no",
    }
}

#[tactic(auto, unfolding(crate::specs::CellText::terms_text))]
fn push_terms(text: &mut String, vc: Vc, seq: u32, floor: Rate, ask: Rate) -> Result<(), AllocError>
    ensures { OnOk result (string_bytes text.new ≡ string_bytes text.old
        ⋅ terms_text (record { vc = vc; seq = seq; floor = floor; ask = ask })) }
{
    push_vc(text, vc)?;
    push_number(text, " seq ", u64::from(seq))?;
    text.push_str(" ")?;
    push_rates(text, floor, ask)
}

#[tactic(auto, unfolding(crate::specs::CellText::vc_text))]
fn push_vc(text: &mut String, vc: Vc) -> Result<(), AllocError>
    ensures { OnOk result (string_bytes text.new ≡ string_bytes text.old ⋅ vc_text vc) }
{
    push_number(text, "vpi ", u64::from(vc.vpi()))?;
    push_number(text, " vci ", u64::from(vc.vci()))
}

#[tactic(auto, unfolding(crate::specs::CellText::rates_text))]
fn push_rates(text: &mut String, floor: Rate, ask: Rate) -> Result<(), AllocError>
    ensures { OnOk result (string_bytes text.new ≡ string_bytes text.old ⋅ rates_text floor ask) }
{
    text.push_str("floor ")?;
    HexCode(floor.code()).push_to(text)?;
    text.push_str(" ask ")?;
    HexCode(ask.code()).push_to(text)
}

// Adds a word and the digits of a number behind it to a text.
fn push_number(text: &mut String, word: &str, number: u64) -> Result<(), AllocError>
    ensures { OnOk result (string_bytes text.new ≡ string_bytes text.old ⋅ word.now ⋅ decimal number) }
{
    let mut digits = Buffer::new();
    text.push_str(word)?;
    text.push_str(digits.format(number))
}
