//! A shaper that is handed moments line by line.
ghost use Rattle.std.specs.Prelude.{◌≡◌, OnOk, string_bytes};
ghost use Rattle.std.specs.Option.{option_map};
ghost use Rattle.abt_text.specs.Text.{◌⋅◌};
ghost use Rattle.abt_parts.specs.Shape.{leaving_text, past_ready, ready_text, shaped_past, shaped_text};

use crate::fault::{LineFault, push_fault};
use crate::moment::{moment_of, push_number};
use abt_lines::LineServer;
use abt_rate::Rate;
use abt_shaper::{EMIT_MAX, Shaper};
use std::alloc::{AllocError, Global};

/// A shaper that is handed line by line the moments at which cells are ready, in picoseconds, where cells leave at one rate all the time
/// (docs/FORMATS.md, "Parts by hand").
#[derive(Clone, Copy, Debug, PartialEq, Eq)]
pub struct ShapedLines {
    /// The shaper as it is behind the lines so far.
    pub shaper: Shaper,
    /// The rate at which cells leave.
    pub rate: Rate,
}

impl LineServer for ShapedLines {
    ghost use Rattle.abt_parts.specs.Shape.{EndsShaping, ShapesLine};

    ghost steps = { ShapesLine };

    ghost ends = { EndsShaping };

    fn answer(
        &mut self,
        _alloc: Global,
        number: u64,
        line: Option<&[u8]>,
        text: &mut String,
    ) -> Result<(), AllocError> {
        push_number(text, "", number)?;
        text.push_str(" ")?;
        push_line(text, &mut self.shaper, self.rate, line)?;
        text.push_str("\n")
    }

    fn end(&self, _alloc: Global, _number: u64, _text: &mut String) -> Result<(), AllocError> {
        Ok(())
    }
}

// Adds the answer to a line: when a cell leaves that is ready at the moment that it says, or the line's fault.
fn push_line(
    text: &mut String,
    shaper: &mut Shaper,
    rate: Rate,
    line: Option<&[u8]>,
) -> Result<(), AllocError>
    ensures answer { OnOk result (string_bytes text.new ≡ string_bytes text.old
        ⋅ shaped_text rate shaper.old (option_map (λ line. line.now) line.entry)) }
    ensures shaper { shaper.new ≡ shaped_past rate shaper.old (option_map (λ line. line.now) line.entry) }
{
    match moment_of(line) {
        Ok(ready) => push_ready(text, shaper, rate, ready),
        Err(fault) => push_fault(text, fault),
    }
}

// Adds the answer to a cell that is ready at a moment.
fn push_ready(
    text: &mut String,
    shaper: &mut Shaper,
    rate: Rate,
    ready: u64,
) -> Result<(), AllocError>
    ensures answer { OnOk result
        (string_bytes text.new ≡ string_bytes text.old ⋅ ready_text shaper.old rate ready) }
    ensures shaper { shaper.new ≡ past_ready shaper.old rate ready }
{
    let leaves = ready.max(shaper.next());
    if leaves > EMIT_MAX {
        return push_fault(text, LineFault::TimeRange);
    }
    match shaper.emit(leaves, rate) {
        Ok(next) => push_leaving(text, ready, leaves, next),
        Err(_) => push_fault(text, LineFault::Zero),
    }
}

fn push_leaving(text: &mut String, ready: u64, leaves: u64, next: u64) -> Result<(), AllocError>
    ensures { OnOk result
        (string_bytes text.new ≡ string_bytes text.old ⋅ leaving_text ready leaves next) }
{
    push_number(text, "ready ", ready)?;
    push_number(text, " leaves ", leaves)?;
    push_number(text, " next ", next)
}
