//! The lines in which places of a text stand.
ghost use Rattle.std.specs.Prelude.{◌≡◌, ◌+◌, IfOk, drop, take};
ghost use Rattle.abt_places.specs.Places.{line_at, lines_at, line_feeds};

use crate::place::before;
use std::alloc::{AllocError, Global};

/// The lines in which some places of a text stand, counted from 1: each place is that behind so many octets, or the text's end if it has
/// fewer. Places in rising order cost one walk along the text.
///
/// # Errors
/// If memory is refused.
pub fn lines_at(alloc: Global, text: &str, places: &[usize]) -> Result<Vec<u64>, AllocError>
    ensures { IfOk result (λ lines. lines.items ≡ lines_at text.now places.now) }
{
    let octets = text.as_bytes();
    let mut lines = Vec::with_capacity(alloc, places.len())?;
    let mut last = 0;
    let mut line = 1;
    for at in places {
        line = line_from(octets, last, line, *at);
        last = *at;
        lines.push(line)?;
    }
    Ok(lines)
}

// The line of a place, by that of another one.
fn line_from(octets: &[u8], last: usize, line: u64, at: usize) -> u64
    requires { line ≡ line_at last octets.now }
    ensures { result ≡ line_at at octets.now }
{
    let first = before(octets, at);
    if last <= at {
        line + line_feeds(behind(first, last))
    } else {
        1 + line_feeds(first)
    }
}

// The octets behind a place.
fn behind(octets: &[u8], at: usize) -> &[u8]
    ensures { result.now ≡ drop at octets.now }
{
    if at < octets.len() {
        &octets[at..]
    } else {
        &[]
    }
}

// How many lines some octets end.
#[tactic(auto, using(crate::proofs::Feeds::feeds_within))]
fn line_feeds(octets: &[u8]) -> u64
    ensures { result ≡ line_feeds octets.now }
{
    let mut count = 0;
    for octet in octets {
        if *octet == b'\n' {
            count += 1;
        }
    }
    count
}
