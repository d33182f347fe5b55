//! A port that is handed cells line by line.
ghost use Rattle.std.specs.Prelude.{◌≡◌, OnOk, string_bytes};
ghost use Rattle.std.specs.Option.{option_map};
ghost use Rattle.abt_text.specs.Text.{◌⋅◌};
ghost use Rattle.abt_parts.specs.Cells.{served_past, served_text};

use crate::cells::{message_on, push_fault};
use crate::moment::push_number;
use abt_lines::LineServer;
use abt_node::Port;
use abt_perform::{Fault, push_served};
use std::alloc::{AllocError, Global};

/// A port that is handed cells line by line. A connection is added when its first readable cell comes (docs/FORMATS.md, "Parts by hand").
#[derive(Debug, Drop)]
pub struct ServedLines {
    /// The port as it is behind the lines so far.
    pub port: Port,
}

impl LineServer for ServedLines {
    ghost use Rattle.abt_parts.specs.Cells.{EndsServing, ServesLine};

    ghost steps = { ServesLine };

    ghost ends = { EndsServing };

    fn answer(
        &mut self,
        alloc: Global,
        number: u64,
        line: Option<&[u8]>,
        text: &mut String,
    ) -> Result<(), AllocError> {
        push_number(text, "", number)?;
        text.push_str(" ")?;
        push_line(alloc, text, &mut self.port, line)?;
        text.push_str("\n")
    }

    fn end(&self, _alloc: Global, _number: u64, text: &mut String) -> Result<(), AllocError> {
        let total = self.port.total();
        push_number(text, "total ", total)?;
        text.push_str("\n")
    }
}

// Adds the answer to a line: what the port does with the cell that it spells, or the cell's fault.
fn push_line(
    alloc: Global,
    text: &mut String,
    port: &mut Port,
    line: Option<&[u8]>,
) -> Result<(), AllocError>
    ensures answer { OnOk result (string_bytes text.new ≡ string_bytes text.old
        ⋅ served_text port.old (option_map (λ line. line.now) line.entry)) }
    ensures table { OnOk result (port.new ≡ served_past port.old (option_map (λ line. line.now) line.entry)) }
{
    match message_on(alloc, line) {
        Ok(rm) => push_served(alloc, text, port, &rm),
        Err(Fault::Memory) => Err(AllocError),
        Err(fault) => push_fault(text, fault),
    }
}
