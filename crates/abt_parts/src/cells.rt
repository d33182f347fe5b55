//! Cells on lines, and what they say.
ghost use Rattle.std.specs.Prelude.{◌≡◌, ◌⊎◌, Ok, Err, IfOk, IfErr, OnOk, string_bytes};
ghost use Rattle.std.specs.Option.{option_map};
ghost use Rattle.abt_text.specs.Text.{◌⋅◌};
ghost use Rattle.abt_perform.specs.CellText.{message_in, message_of};
ghost use Rattle.abt_perform.specs.PortText.{fault_text};
ghost use Rattle.abt_perform.specs.declared.fault.Fault.TheVariants.{Memory};
ghost use Rattle.abt_parts.specs.Cells.{message_on, read_text};

use crate::hex_digits::octets_of;
use crate::moment::push_number;
use abt_cell::{Cell, Rm, read_rm};
use abt_lines::LineServer;
use abt_perform::{Fault, message_of, push_message_text};
use std::alloc::{AllocError, Global};

/// Cells, line by line: each is answered by what it says, or by its fault (docs/FORMATS.md, "Parts by hand").
#[derive(Clone, Copy, Debug, PartialEq, Eq)]
pub struct ReadLines;

impl LineServer for ReadLines {
    ghost use Rattle.abt_parts.specs.Cells.{EndsReading, ReadsLine};

    ghost steps = { ReadsLine };

    ghost ends = { EndsReading };

    fn answer(
        &mut self,
        alloc: Global,
        number: u64,
        line: Option<&[u8]>,
        text: &mut String,
    ) -> Result<(), AllocError> {
        push_number(text, "", number)?;
        text.push_str(" ")?;
        push_read(alloc, text, line)?;
        text.push_str("\n")
    }

    fn end(&self, _alloc: Global, _number: u64, _text: &mut String) -> Result<(), AllocError> {
        Ok(())
    }
}

// Adds what the cell on a line says, or its fault, to a text.
fn push_read(alloc: Global, text: &mut String, line: Option<&[u8]>) -> Result<(), AllocError>
    ensures { OnOk result (string_bytes text.new ≡ string_bytes text.old
        ⋅ read_text (message_on (option_map (λ line. line.now) line.entry))) }
{
    match message_on(alloc, line) {
        Ok(rm) => push_message_text(text, &rm),
        Err(Fault::Memory) => Err(AllocError),
        Err(fault) => push_fault(text, fault),
    }
}

// The request or answer of the cell that a line spells, or the first thing that is wrong with it.
pub(crate) fn message_on(alloc: Global, line: Option<&[u8]>) -> Result<Rm, Fault>
    ensures ok { IfOk result (λ rm. message_on (option_map (λ line. line.now) line.entry) ≡ Ok rm) }
    ensures err { IfErr result (λ fault. (fault ≡ Memory)
        ⊎ (message_on (option_map (λ line. line.now) line.entry) ≡ Err fault)) }
{
    match line {
        Some(hex) => message_by(alloc, hex),
        None => Err(Fault::TooLong),
    }
}

// The message of the cell that a text spells, by its digits at once, where it is as long as a cell's.
fn message_by(alloc: Global, hex: &[u8]) -> Result<Rm, Fault>
    ensures ok { IfOk result (λ rm. message_of hex.now ≡ Ok rm) }
    ensures err { IfErr result (λ fault. (fault ≡ Memory) ⊎ (message_of hex.now ≡ Err fault)) }
{
    match octets_of(hex) {
        Some(octets) => message_in(&octets),
        None => message_of(alloc, hex),
    }
}

// The message of the octets of a cell, or the first thing that is wrong with it.
fn message_in(octets: &[u8]) -> Result<Rm, Fault>
    ensures { result ≡ message_in (Ok octets.now) }
{
    let Ok(cell) = Cell::from_octets(octets) else {
        return Err(Fault::Length);
    };
    read_rm(&cell).map_err(Fault::Rm)
}

// Adds the answer to a cell that has a fault to a text.
pub(crate) fn push_fault(text: &mut String, fault: Fault) -> Result<(), AllocError>
    ensures { OnOk result (string_bytes text.new ≡ string_bytes text.old ⋅ fault_text fault) }
{
    write!(text, "fault {fault}")
}
