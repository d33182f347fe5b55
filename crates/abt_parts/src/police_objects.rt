//! A policer that is handed arrivals line by line, and answers by objects.
ghost use Rattle.std.specs.Prelude.{◌≡◌, OnOk, string_bytes};
ghost use Rattle.std.specs.Option.{option_map};
ghost use Rattle.abt_entry.specs.ObjectMembers.{Adds};
ghost use Rattle.abt_text.specs.Text.{◌⋅◌};
ghost use Rattle.abt_parts.specs.LineObjects.{line_object};
ghost use Rattle.abt_parts.specs.PartObjects.{arrival_object, judged_members, policed_object, tat_members, verdict_members};
ghost use Rattle.abt_parts.specs.Police.{past_arrival, policed_past};
ghost use Rattle.std.specs.Prelude.{codes};

use crate::fault::LineFault;
use crate::line_object::{begin_line, push_fault_object, push_moment};
use crate::moment::moment_of;
use crate::police::early_of;
use abt_entry::{push_number, push_text};
use abt_format::verdict_name;
use abt_gcra::{GcraFault, Policer, Verdict};
use abt_json::{end_line, push_exact};
use abt_lines::LineServer;
use abt_rate::Rate;
use json::Writer;
use std::alloc::{AllocError, Global};

/// A policer as [`PolicedLines`](crate::PolicedLines) is, which answers by objects (docs/FORMATS.md, "Parts by hand").
#[derive(Clone, Copy, Debug, PartialEq, Eq)]
pub struct PolicedObjects {
    /// The policer as it is behind the lines so far.
    pub policer: Policer,
    /// The rate that is held.
    pub held: Rate,
}

impl LineServer for PolicedObjects {
    ghost use Rattle.abt_parts.specs.PartObjects.{EndsSilent, PolicesObject};

    ghost steps = { PolicesObject };

    ghost ends = { EndsSilent };

    fn answer(
        &mut self,
        alloc: Global,
        number: u64,
        line: Option<&[u8]>,
        text: &mut String,
    ) -> Result<(), AllocError> {
        push_line(alloc, text, number, &mut self.policer, self.held, line)
    }

    fn end(&self, _alloc: Global, _number: u64, _text: &mut String) -> Result<(), AllocError> {
        Ok(())
    }
}

// Adds the answer to a line: the verdict on a cell that arrives at the moment that it says, or the line's fault.
fn push_line(
    alloc: Global,
    text: &mut String,
    number: u64,
    policer: &mut Policer,
    held: Rate,
    line: Option<&[u8]>,
) -> Result<(), AllocError>
    ensures answer { OnOk result (string_bytes text.new ≡ string_bytes text.old
        ⋅ policed_object held number policer.old (option_map (λ line. line.now) line.entry)) }
    ensures policer { policer.new ≡ policed_past held policer.old (option_map (λ line. line.now) line.entry) }
{
    match moment_of(line) {
        Ok(at) => push_arrival(alloc, text, number, policer, held, at),
        Err(fault) => push_fault_object(alloc, text, number, fault),
    }
}

// Adds the answer to a cell that arrives at a moment.
fn push_arrival(
    alloc: Global,
    text: &mut String,
    number: u64,
    policer: &mut Policer,
    held: Rate,
    at: u64,
) -> Result<(), AllocError>
    ensures answer { OnOk result (string_bytes text.new ≡ string_bytes text.old
        ⋅ arrival_object number policer.old held at) }
    ensures policer { policer.new ≡ past_arrival policer.old held at }
{
    let before = *policer;
    match policer.arrive(at, held) {
        Ok(verdict) => push_verdict(alloc, text, number, before, at, verdict, *policer),
        Err(GcraFault::ClockBack) => push_fault_object(alloc, text, number, LineFault::ClockBack),
        Err(GcraFault::TimeRange) => push_fault_object(alloc, text, number, LineFault::TimeRange),
    }
}

fn push_verdict(
    alloc: Global,
    text: &mut String,
    number: u64,
    before: Policer,
    at: u64,
    verdict: Verdict,
    after: Policer,
) -> Result<(), AllocError>
    ensures { OnOk result (string_bytes text.new ≡ string_bytes text.old
        ⋅ line_object (codes "arrival") number (verdict_members before at (verdict, after))) }
{
    let mut object = begin_line(alloc, "arrival", number)?;
    push_verdict_members(&mut object, before, at, verdict, after)?;
    end_line(object, text)
}

fn push_verdict_members(
    object: &mut Writer,
    before: Policer,
    at: u64,
    verdict: Verdict,
    after: Policer,
) -> Result<(), AllocError>
    ensures { OnOk result (Adds (verdict_members before at (verdict, after)) object.old object.new) }
{
    push_exact(object, "at", "at_text", at)?;
    push_judged(object, verdict, early_of(before, at))?;
    push_tat(object, before, after)
}

fn push_judged(object: &mut Writer, verdict: Verdict, early: u64) -> Result<(), AllocError>
    ensures { OnOk result (Adds (judged_members verdict early) object.old object.new) }
{
    push_text(object, "verdict", verdict_name(verdict))?;
    push_number(object, "early", early)
}

// Adds the theoretical arrival time before a cell and after it.
fn push_tat(object: &mut Writer, before: Policer, after: Policer) -> Result<(), AllocError>
    ensures { OnOk result (Adds (tat_members before after) object.old object.new) }
{
    push_moment(object, "tat", "tat_text", before.tat())?;
    push_moment(object, "then", "then_text", after.tat())
}
