//! Scenarios with the places of their events.
ghost use Rattle.std.specs.Prelude.{◌≡◌, IfOk, length};
ghost use Rattle.abt_places.specs.Placed.{IsPlacedIn};
ghost use Rattle.abt_places.specs.Places as places;

use abt_places::{Placed, place_at, read_placed};
use abt_scenario::EngineFault;
use std::alloc::Global;

/// The scenario of a text, with the lines in which its events stand.
pub fn placed_in(alloc: Global, text: &str) -> Result<Placed, EngineFault>
    ensures { IfOk result (λ placed. IsPlacedIn placed text.now) }
{
    let mut octets = text.as_bytes();
    read_placed(alloc, &mut octets)
}

/// The line in which a text ends, from 1.
pub fn last_line(text: &str) -> u64
    ensures { result ≡ places.line_at (length text.now) text.now }
{
    let end = place_at(text, text.len());
    end.line
}
