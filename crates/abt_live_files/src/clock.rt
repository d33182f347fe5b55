//! The clock of the machine.
ghost use Rattle.std.specs.Prelude.{◌≡◌, ◌^◌, None, Some};
ghost use Rattle.std.specs.Duration.{as_nanos};
ghost use Rattle.abt_text.specs.Words.{below};

use abt_live::NanoClock;
use std::marker::Model;
use std::rt::Clock;
use std::time::Duration;

/// The monotonic clock of a system. Contracts see what its last reading gave, if one did.
#[derive(Drop)]
pub(crate) struct MachineClock<'rt, T: Clock> {
    rt: &'rt T,
    reading: Option<u64>,
}

impl<'rt, T: Clock> Model for MachineClock<'rt, T> {
    ghost use Rattle.std.specs.Prelude.{ℕ, Option};

    ghost Value = { Option ℕ };

    ghost view = { λ c. c.reading };
}

impl<'rt, T: Clock> MachineClock<'rt, T> {
    // The clock of a system, which isn't read yet.
    pub(crate) fn new(rt: &'rt T) -> MachineClock<'rt, T>
        ensures { result ≡ None }
    {
        MachineClock { rt, reading: None }
    }
}

impl<'rt, T: Clock> NanoClock for MachineClock<'rt, T> {
    ghost use Rattle.abt_live_files.specs.Clock.{KeepsReading};

    ghost reads = { KeepsReading };

    fn nanoseconds(&mut self) -> Option<u64> {
        let reading = match self.rt.monotonic() {
            Ok(duration) => nanoseconds_of(duration),
            Err(_) => None,
        };
        self.reading = reading;
        reading
    }
}

// The nanoseconds of a duration, if they have 64 bits.
fn nanoseconds_of(duration: Duration) -> Option<u64>
    ensures { result ≡ below (2 ^ 64) (Some (as_nanos duration)) }
{
    let nanoseconds = duration.as_nanos();
    if nanoseconds <= u128::from(u64::MAX) {
        Some(nanoseconds as u64)
    } else {
        None
    }
}
