//! What is told of the rate of a command, beside what it prints.
ghost use Rattle.std.specs.Prelude.{◌≡◌, IfOk, string_bytes};
ghost use Rattle.std.specs.Option.{option_map};
ghost use Rattle.abt_cli.specs.RateNotes as spec;
ghost use Rattle.abt_cli.specs.RateNotes.{IsCodeNote, IsRateNote};

use crate::command::Command;
use abt_codes::{SaidRate, code_doubt};
use abt_perform::rate_line;
use std::alloc::{AllocError, Global};

// What is told of a policer or a shaper at rate 0.
const ZERO: &str = "this rate is 0, so no cell passes; cells per second are written as 1000cps\n";

/// What is told of the rate of a command: that a code says rate 0, and was maybe to be cells per second; of a policer or a shaper, if no
/// code says its rate, the code that stands in its place, the nearest below, or else that it is 0 (docs/FORMATS.md, "Parts by hand").
///
/// # Errors
/// If memory is refused.
pub fn rate_note(alloc: Global, command: &Command) -> Result<Option<String>, AllocError>
    ensures { IfOk result (λ note. IsRateNote command.now (option_map string_bytes note)) }
{
    match command {
        Command::Rate { code, .. } => code_note(alloc, code.as_str()),
        Command::Police { rate, .. } | Command::Shape { rate, .. } => said_note(alloc, *rate),
        _ => Ok(None),
    }
}

// What is told of a code that a word says.
fn code_note(alloc: Global, word: &str) -> Result<Option<String>, AllocError>
    ensures { IfOk result (λ note. IsCodeNote word.now (option_map string_bytes note)) }
{
    match code_doubt(alloc, word)? {
        Some(doubt) => {
            let doubt = doubt.as_str();
            Ok(Some(format!(in alloc; "{doubt}\n")?))
        }
        None => Ok(None),
    }
}

// What is told of the rate of a policer or a shaper.
fn said_note(alloc: Global, said: SaidRate) -> Result<Option<String>, AllocError>
    ensures { IfOk result (λ note. option_map string_bytes note ≡ spec.said_note said) }
{
    if !said.is_exact {
        let line = rate_line(alloc, said.rate)?;
        let line = line.as_str();
        return Ok(Some(format!(in alloc; "no code says this rate: below {line}")?));
    }
    if said.rate.units() == 0 {
        return Ok(Some(String::from_str(alloc, ZERO)?));
    }
    Ok(None)
}
