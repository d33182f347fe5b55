//! The record that has begun.
ghost use Rattle.std.specs.Prelude.{◌≡◌, ◌<◌, OnOk, OnErr, length};
ghost use Rattle.std.specs.Option.{option_map};
ghost use Rattle.abt_lines.specs.Lines.{seen_of};
ghost use Rattle.abt_records.specs.Records.{ended_by, ends_with, go_on, is_cell, record_of};

use abt_lines::LINE_MAX;
use std::alloc::AllocError;

/// The least octet that stands before a cell.
pub const MARK_MIN: u8 = 128;

/// The octets of a cell and the one before it.
pub const RECORD_OCTETS: usize = 53;

/// Whether a record that begins so is a cell: its first octet isn't ASCII.
pub fn is_cell(octets: &[u8]) -> bool
    ensures { result ≡ is_cell octets.now }
{
    match octets {
        [first, ..] => *first >= MARK_MIN,
        [] => false,
    }
}

// Whether an octet ends the record that has begun.
pub(crate) fn ends_with(begun: &[u8], octet: u8) -> bool
    ensures { result ≡ ends_with begun.now octet }
{
    if is_cell(begun) {
        begun.len() == RECORD_OCTETS - 1
    } else {
        octet == b'\n'
    }
}

// Adds an octet to the record that has begun. If it is a line that is too long already, the octet is as good as lost.
pub(crate) fn go_on(begun: &mut Vec<u8>, octet: u8) -> Result<(), AllocError>
    ensures { OnOk result (begun.new.items ≡ go_on begun.old.items octet) }
{
    if begun.len() >= LINE_MAX + 2 {
        return Ok(());
    }
    begun.push(octet)?;
    Ok(())
}

// Ends the record that has begun by an octet.
pub(crate) fn end_by(begun: &mut Vec<u8>, octet: u8) -> Result<(), AllocError>
    ensures { OnOk result (begun.new.items ≡ ended_by begun.old.items octet) }
{
    if !is_cell(begun.as_slice()) {
        return Ok(());
    }
    begun.push(octet)?;
    Ok(())
}

// What is seen of a record.
pub(crate) fn record_of(octets: &[u8]) -> Option<&[u8]>
    ensures { option_map (λ seen. seen.now) result ≡ record_of octets.now }
{
    if is_cell(octets) {
        return Some(octets);
    }
    seen_of(octets)
}

// What is seen of a line: it without the carriage return at its end, or nothing if that is too long.
fn seen_of(line: &[u8]) -> Option<&[u8]>
    ensures { option_map (λ seen. seen.now) result ≡ seen_of line.now }
{
    let line = line.strip_suffix(b"\r").unwrap_or(line);
    if line.len() > LINE_MAX {
        return None;
    }
    Some(line)
}
