//! The clock of a run.
ghost use Rattle.std.specs.Prelude.{◌≡◌};
ghost use Rattle.abt_live.specs.Clock.{Reads, moment_read};

use crate::fault::LiveFault;
use crate::nano_clock::NanoClock;

/// The picoseconds of a nanosecond.
const PICOSECONDS: u64 = 1000;

/// A clock, from the beginning of a run of all sources on (docs/LIVE.md, "Moments").
#[derive(Drop)]
pub struct RunClock<N: NanoClock> {
    /// The clock.
    pub clock: N,
    /// The nanoseconds that it counted when the run began.
    pub epoch: u64,
}

impl<N: NanoClock> RunClock<N> {
    /// Reads the clock, and gives the moment, in picoseconds from the beginning of the run on.
    ///
    /// # Errors
    /// `Clock` if it can't be read, `ClockBack` if it stands before the beginning, `TimeRange` if the moment has more than 64 bits.
    pub fn moment(&mut self) -> Result<u64, LiveFault>
        ensures { Reads N.reads self.old result self.new }
    {
        let reading = self.clock.nanoseconds();
        moment_read(self.epoch, reading)
    }
}

// The moment of a reading, in a run that began when the clock counted `epoch` nanoseconds.
fn moment_read(epoch: u64, reading: Option<u64>) -> Result<u64, LiveFault>
    ensures { result ≡ moment_read epoch reading }
{
    let Some(nanoseconds) = reading else {
        return Err(LiveFault::Clock);
    };
    if nanoseconds < epoch {
        return Err(LiveFault::ClockBack);
    }
    match (nanoseconds - epoch).checked_mul(PICOSECONDS) {
        Some(moment) => Ok(moment),
        None => Err(LiveFault::TimeRange),
    }
}
