//! The messages that cross a picture.
ghost use Rattle.std.specs.Prelude.{◌≡◌, ◌+◌, ◌<◌, ◌≤◌, IfOk, length};
ghost use Rattle.abt_chart.specs.Charts.{IsCrossing, AreCrossings};

use crate::before::Before;
use crate::behind::departures_of;
use crate::{Arrival, Departure, Told};
use abt_model::Sequence;
use std::alloc::{AllocError, Global};

/// What an event brings, and what it sends.
#[derive(Clone, Copy, Debug)]
pub struct Crossing {
    /// The message that it brings to where it happens, if it brings one.
    pub arrival: Option<Arrival>,
    /// The message that it sends, if it sends one.
    pub departure: Option<Departure>,
}

// What the events from one place to another bring and send.
pub(crate) fn crossings_of(
    alloc: Global,
    told: &[Told],
    first: usize,
    count: usize,
) -> Result<Sequence<Crossing>, AllocError>
    requires { first + count ≤ length told.now }
    ensures { IfOk result (AreCrossings told.now first count) }
{
    let departures = departures_of(alloc, told, first + count, count)?;
    let departures = departures.as_slice();
    let mut before = Before::of(alloc, told, first)?;
    let mut crossings = Sequence::new(alloc);
    for index in 0..count {
        crossings.push(Crossing {
            arrival: before.arrival_at(told, first + index),
            departure: departures[count - 1 - index],
        })?;
        before.note(told, first + index)?;
    }
    Ok(crossings)
}
