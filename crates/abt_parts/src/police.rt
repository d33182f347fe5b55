//! A policer that is handed arrivals line by line.
ghost use Rattle.std.specs.Prelude.{◌≡◌, OnOk, string_bytes};
ghost use Rattle.std.specs.Option.{option_map};
ghost use Rattle.abt_text.specs.Text.{◌⋅◌};
ghost use Rattle.abt_parts.specs.Police.{arrival_text, early_of, past_arrival, policed_past, policed_text, tat_text, verdict_text};

use crate::fault::{LineFault, push_fault};
use crate::moment::{moment_of, push_number};
use abt_format::verdict_name;
use abt_gcra::{GcraFault, Policer, Verdict};
use abt_lines::LineServer;
use abt_rate::Rate;
use std::alloc::{AllocError, Global};

/// A policer that is handed arrivals line by line, in picoseconds, where one rate is held all the time (docs/FORMATS.md, "Parts by hand").
#[derive(Clone, Copy, Debug, PartialEq, Eq)]
pub struct PolicedLines {
    /// The policer as it is behind the lines so far.
    pub policer: Policer,
    /// The rate that is held.
    pub held: Rate,
}

impl LineServer for PolicedLines {
    ghost use Rattle.abt_parts.specs.Police.{EndsPolicing, PolicesLine};

    ghost steps = { PolicesLine };

    ghost ends = { EndsPolicing };

    fn answer(
        &mut self,
        _alloc: Global,
        number: u64,
        line: Option<&[u8]>,
        text: &mut String,
    ) -> Result<(), AllocError> {
        push_number(text, "", number)?;
        text.push_str(" ")?;
        push_line(text, &mut self.policer, self.held, line)?;
        text.push_str("\n")
    }

    fn end(&self, _alloc: Global, _number: u64, _text: &mut String) -> Result<(), AllocError> {
        Ok(())
    }
}

// Adds the answer to a line: the verdict on a cell that arrives at the moment that it says, or the line's fault.
fn push_line(
    text: &mut String,
    policer: &mut Policer,
    held: Rate,
    line: Option<&[u8]>,
) -> Result<(), AllocError>
    ensures answer { OnOk result (string_bytes text.new ≡ string_bytes text.old
        ⋅ policed_text held policer.old (option_map (λ line. line.now) line.entry)) }
    ensures policer { policer.new ≡ policed_past held policer.old (option_map (λ line. line.now) line.entry) }
{
    match moment_of(line) {
        Ok(at) => push_arrival(text, policer, held, at),
        Err(fault) => push_fault(text, fault),
    }
}

// Adds the answer to a cell that arrives at a moment.
fn push_arrival(
    text: &mut String,
    policer: &mut Policer,
    held: Rate,
    at: u64,
) -> Result<(), AllocError>
    ensures answer { OnOk result
        (string_bytes text.new ≡ string_bytes text.old ⋅ arrival_text policer.old held at) }
    ensures policer { policer.new ≡ past_arrival policer.old held at }
{
    let before = *policer;
    match policer.arrive(at, held) {
        Ok(verdict) => push_verdict(text, before, at, verdict, *policer),
        Err(GcraFault::ClockBack) => push_fault(text, LineFault::ClockBack),
        Err(GcraFault::TimeRange) => push_fault(text, LineFault::TimeRange),
    }
}

fn push_verdict(
    text: &mut String,
    before: Policer,
    at: u64,
    verdict: Verdict,
    after: Policer,
) -> Result<(), AllocError>
    ensures { OnOk result
        (string_bytes text.new ≡ string_bytes text.old ⋅ verdict_text before at (verdict, after)) }
{
    push_number(text, "at ", at)?;
    text.push_str(" ")?;
    text.push_str(verdict_name(verdict))?;
    push_number(text, " early ", early_of(before, at))?;
    push_tat(text, " tat ", before.tat())?;
    push_tat(text, " then ", after.tat())
}

// How much earlier than due a cell comes, in picoseconds.
pub(crate) fn early_of(before: Policer, at: u64) -> u64
    ensures { result ≡ early_of before at }
{
    match before.tat() {
        Some(due) => due.saturating_sub(at),
        None => 0,
    }
}

// Adds a word and a theoretical arrival time behind it.
fn push_tat(text: &mut String, word: &str, tat: Option<u64>) -> Result<(), AllocError>
    ensures { OnOk result (string_bytes text.new ≡ string_bytes text.old ⋅ word.now ⋅ tat_text tat) }
{
    match tat {
        Some(moment) => push_number(text, word, moment),
        None => {
            text.push_str(word)?;
            text.push_str("absent")
        }
    }
}
