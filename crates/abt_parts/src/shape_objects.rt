//! A shaper that is handed moments line by line, and answers by objects.
ghost use Rattle.std.specs.Prelude.{◌≡◌, OnOk, codes, string_bytes};
ghost use Rattle.std.specs.Option.{option_map};
ghost use Rattle.abt_entry.specs.ObjectMembers.{Adds};
ghost use Rattle.abt_text.specs.Text.{◌⋅◌};
ghost use Rattle.abt_parts.specs.LineObjects.{line_object};
ghost use Rattle.abt_parts.specs.PartObjects.{leaving_members, ready_object, shaped_object};
ghost use Rattle.abt_parts.specs.Shape.{past_ready, shaped_past};

use crate::fault::LineFault;
use crate::line_object::{begin_line, push_fault_object};
use crate::moment::moment_of;
use abt_json::{end_line, push_exact};
use abt_lines::LineServer;
use abt_rate::Rate;
use abt_shaper::{EMIT_MAX, Shaper};
use json::Writer;
use std::alloc::{AllocError, Global};

/// A shaper as [`ShapedLines`](crate::ShapedLines) is, which answers by objects (docs/FORMATS.md, "Parts by hand").
#[derive(Clone, Copy, Debug, PartialEq, Eq)]
pub struct ShapedObjects {
    /// The shaper as it is behind the lines so far.
    pub shaper: Shaper,
    /// The rate at which cells leave.
    pub rate: Rate,
}

impl LineServer for ShapedObjects {
    ghost use Rattle.abt_parts.specs.PartObjects.{EndsSilent, ShapesObject};

    ghost steps = { ShapesObject };

    ghost ends = { EndsSilent };

    fn answer(
        &mut self,
        alloc: Global,
        number: u64,
        line: Option<&[u8]>,
        text: &mut String,
    ) -> Result<(), AllocError> {
        push_line(alloc, text, number, &mut self.shaper, self.rate, line)
    }

    fn end(&self, _alloc: Global, _number: u64, _text: &mut String) -> Result<(), AllocError> {
        Ok(())
    }
}

// Adds the answer to a line: when a cell leaves that is ready at the moment that it says, or the line's fault.
fn push_line(
    alloc: Global,
    text: &mut String,
    number: u64,
    shaper: &mut Shaper,
    rate: Rate,
    line: Option<&[u8]>,
) -> Result<(), AllocError>
    ensures answer { OnOk result (string_bytes text.new ≡ string_bytes text.old
        ⋅ shaped_object rate number shaper.old (option_map (λ line. line.now) line.entry)) }
    ensures shaper { shaper.new ≡ shaped_past rate shaper.old (option_map (λ line. line.now) line.entry) }
{
    match moment_of(line) {
        Ok(ready) => push_ready(alloc, text, number, shaper, rate, ready),
        Err(fault) => push_fault_object(alloc, text, number, fault),
    }
}

// Adds the answer to a cell that is ready at a moment.
fn push_ready(
    alloc: Global,
    text: &mut String,
    number: u64,
    shaper: &mut Shaper,
    rate: Rate,
    ready: u64,
) -> Result<(), AllocError>
    ensures answer { OnOk result (string_bytes text.new ≡ string_bytes text.old
        ⋅ ready_object number shaper.old rate ready) }
    ensures shaper { shaper.new ≡ past_ready shaper.old rate ready }
{
    let leaves = ready.max(shaper.next());
    if leaves > EMIT_MAX {
        return push_fault_object(alloc, text, number, LineFault::TimeRange);
    }
    match shaper.emit(leaves, rate) {
        Ok(next) => push_leaving(alloc, text, number, ready, leaves, next),
        Err(_) => push_fault_object(alloc, text, number, LineFault::Zero),
    }
}

fn push_leaving(
    alloc: Global,
    text: &mut String,
    number: u64,
    ready: u64,
    leaves: u64,
    next: u64,
) -> Result<(), AllocError>
    ensures { OnOk result (string_bytes text.new ≡ string_bytes text.old
        ⋅ line_object (codes "leaving") number (leaving_members ready leaves next)) }
{
    let mut object = begin_line(alloc, "leaving", number)?;
    push_leaving_members(&mut object, ready, leaves, next)?;
    end_line(object, text)
}

fn push_leaving_members(
    object: &mut Writer,
    ready: u64,
    leaves: u64,
    next: u64,
) -> Result<(), AllocError>
    ensures { OnOk result (Adds (leaving_members ready leaves next) object.old object.new) }
{
    push_exact(object, "ready", "ready_text", ready)?;
    push_exact(object, "leaves", "leaves_text", leaves)?;
    push_exact(object, "next", "next_text", next)
}
