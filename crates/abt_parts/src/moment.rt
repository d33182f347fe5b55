//! Moments in lines, and numbers in answers.
ghost use Rattle.std.specs.Prelude.{◌≡◌, OnOk, string_bytes};
ghost use Rattle.std.specs.Option.{option_map};
ghost use Rattle.abt_text.specs.Text.{◌⋅◌, decimal};
ghost use Rattle.abt_text.specs.Words.{number_of};
ghost use Rattle.abt_parts.specs.Lines.{moment_of};

use crate::fault::LineFault;
use abt_text::u64_of;
use itoa::Buffer;
use std::alloc::AllocError;

// The moment that a line says, in picoseconds.
pub(crate) fn moment_of(line: Option<&[u8]>) -> Result<u64, LineFault>
    ensures { result ≡ moment_of (option_map (λ line. line.now) line.entry) }
{
    match line {
        Some(octets) => number_of(octets).ok_or(LineFault::Number),
        None => Err(LineFault::TooLong),
    }
}

// The number that octets are, which are no text if they are none.
fn number_of(octets: &[u8]) -> Option<u64>
    ensures { result ≡ number_of octets.now }
{
    match std::str::from_utf8(octets) {
        Ok(text) => u64_of(text),
        Err(_) => None,
    }
}

// Adds a word and the digits of a number behind it to a text.
pub(crate) fn push_number(text: &mut String, word: &str, number: u64) -> Result<(), AllocError>
    ensures { OnOk result (string_bytes text.new ≡ string_bytes text.old ⋅ word.now ⋅ decimal number) }
{
    let mut digits = Buffer::new();
    text.push_str(word)?;
    text.push_str(digits.format(number))
}
