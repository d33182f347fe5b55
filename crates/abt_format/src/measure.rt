//! Rates in cells per second and moments in seconds.
ghost use Rattle.std.specs.Prelude.{◌≡◌, ◌^◌, ◌<◌, ◌≤◌, ◌++◌, IfOk, OnOk, string_bytes};
ghost use Rattle.abt_format.specs.Measures.{digits_of, rest_text, fraction_text, cells_text, seconds_text};

use std::alloc::{AllocError, Global};

/// A rate in units of 1/512 cell/s, as text in cells per second, exactly.
pub fn cells_text(alloc: Global, units: u64) -> Result<String, AllocError>
    ensures { IfOk result (λ text. string_bytes text ≡ cells_text units) }
{
    fraction_text(alloc, 9, 512, units)
}

/// A moment in picoseconds, as text in seconds, exactly.
pub fn seconds_text(alloc: Global, moment: u64) -> Result<String, AllocError>
    ensures { IfOk result (λ text. string_bytes text ≡ seconds_text moment) }
{
    fraction_text(alloc, 12, 1_000_000_000_000, moment)
}

// A number as a decimal fraction, given how many parts are one, with at most so many places.
fn fraction_text(alloc: Global, places: u8, parts: u64, number: u64) -> Result<String, AllocError>
    requires some { 0 < parts }
    requires few { parts ≤ 10 ^ 12 }
    ensures { IfOk result (λ text. string_bytes text ≡ fraction_text places parts number) }
{
    let whole = number / parts;
    let behind = rest_text(alloc, places, parts, number % parts)?;
    format!(in alloc; "{whole}{behind}")
}

// The point and the digits behind it, if there is a rest.
fn rest_text(alloc: Global, places: u8, parts: u64, rest: u64) -> Result<String, AllocError>
    requires some { 0 < parts }
    requires few { parts ≤ 10 ^ 12 }
    requires below { rest < parts }
    ensures { IfOk result (λ text. string_bytes text ≡ rest_text places parts rest) }
{
    if rest == 0 {
        return Ok(String::new(alloc));
    }
    let mut digits = String::new(alloc);
    push_digits(&mut digits, places, parts, rest)?;
    format!(in alloc; ".{digits}")
}

// The digits behind the point.
fn push_digits(text: &mut String, places: u8, parts: u64, rest: u64) -> Result<(), AllocError>
    requires some { 0 < parts }
    requires few { parts ≤ 10 ^ 12 }
    requires below { rest < parts }
    ensures { OnOk result (string_bytes text.new ≡ string_bytes text.old ++ digits_of places parts rest) }
{
    if places == 0 || rest == 0 {
        return Ok(());
    }
    let tenfold = rest * 10;
    let digit = tenfold / parts;
    write!(text, "{digit}")?;
    push_digits(text, places - 1, parts, tenfold % parts)
}
