//! Cells on lines, and what they say, as objects.
ghost use Rattle.std.specs.Prelude.{◌≡◌, OnOk, codes, string_bytes};
ghost use Rattle.std.specs.Option.{option_map};
ghost use Rattle.abt_json.specs.Objects.{message_members};
ghost use Rattle.abt_text.specs.Text.{◌⋅◌};
ghost use Rattle.abt_parts.specs.Cells.{message_on};
ghost use Rattle.abt_parts.specs.LineObjects.{line_object};
ghost use Rattle.abt_parts.specs.PartObjects.{cell_fault_object, read_object};

use crate::cells::message_on;
use crate::line_object::{begin_line, push_named_fault};
use abt_cell::Rm;
use abt_json::{end_line, push_message};
use abt_lines::LineServer;
use abt_perform::Fault;
use std::alloc::{AllocError, Global};

/// Cells, line by line, as [`ReadLines`](crate::ReadLines) reads them, answered by objects (docs/FORMATS.md, "Parts by hand").
#[derive(Clone, Copy, Debug, PartialEq, Eq)]
pub struct ReadObjects;

impl LineServer for ReadObjects {
    ghost use Rattle.abt_parts.specs.PartObjects.{EndsSilent, ReadsObject};

    ghost steps = { ReadsObject };

    ghost ends = { EndsSilent };

    fn answer(
        &mut self,
        alloc: Global,
        number: u64,
        line: Option<&[u8]>,
        text: &mut String,
    ) -> Result<(), AllocError> {
        push_read(alloc, text, number, line)
    }

    fn end(&self, _alloc: Global, _number: u64, _text: &mut String) -> Result<(), AllocError> {
        Ok(())
    }
}

// Adds what the cell on a line says, or its fault.
fn push_read(
    alloc: Global,
    text: &mut String,
    number: u64,
    line: Option<&[u8]>,
) -> Result<(), AllocError>
    ensures { OnOk result (string_bytes text.new ≡ string_bytes text.old
        ⋅ read_object number (message_on (option_map (λ line. line.now) line.entry))) }
{
    match message_on(alloc, line) {
        Ok(rm) => push_message_object(alloc, text, number, &rm),
        Err(Fault::Memory) => Err(AllocError),
        Err(fault) => push_cell_fault(alloc, text, number, fault),
    }
}

fn push_message_object(
    alloc: Global,
    text: &mut String,
    number: u64,
    rm: &Rm,
) -> Result<(), AllocError>
    ensures { OnOk result (string_bytes text.new ≡ string_bytes text.old
        ⋅ line_object (codes "message") number (message_members rm.now)) }
{
    let mut object = begin_line(alloc, "message", number)?;
    push_message(alloc, &mut object, rm)?;
    end_line(object, text)
}

// Adds the answer to a cell that has a fault.
pub(crate) fn push_cell_fault(
    alloc: Global,
    text: &mut String,
    number: u64,
    fault: Fault,
) -> Result<(), AllocError>
    ensures { OnOk result
        (string_bytes text.new ≡ string_bytes text.old ⋅ cell_fault_object number fault) }
{
    let name = format!(in alloc; "{fault}")?;
    push_named_fault(alloc, text, number, name.as_str())
}
