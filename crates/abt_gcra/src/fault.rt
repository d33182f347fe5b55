//! Why a cell is given no verdict.
ghost use Rattle.std.specs.Prelude.{◌≡◌, ◌<◌, ◌≤◌, ◌↔◌, IsErrOf};
ghost use Rattle.abt_rate.specs.Limits.{arrive_max};

use crate::limits::ARRIVE_MAX;
use thiserror::Error;

/// Why an arrival is refused: the first of these that applies.
#[derive(Clone, Copy, Debug, PartialEq, Eq, Error)]
pub enum GcraFault {
    /// The arrival is below that of the last cell that was given a verdict.
    #[error("the clock went back")]
    ClockBack,
    /// The arrival is above [`ARRIVE_MAX`](crate::ARRIVE_MAX).
    #[error("the arrival is out of range")]
    TimeRange,
}

/// Why a list of cells is given no verdicts. Memory is looked for before the others.
#[derive(Clone, Copy, Debug, PartialEq, Eq, Error)]
pub enum PoliceFault {
    /// This cell is the first that is refused: its arrival is below that of the one before it.
    #[error("the clock went back at cell {index}")]
    ClockBack { index: usize },
    /// This cell is the first that is refused: its arrival is above
    /// [`ARRIVE_MAX`](crate::ARRIVE_MAX).
    #[error("the arrival of cell {index} is out of range")]
    TimeRange { index: usize },
    /// There is no memory for the verdicts.
    #[error("out of memory")]
    Memory,
}

// Whether a cell may arrive at a moment, if the last one arrived at the clock.
pub(crate) fn may_arrive(clock: u64, at: u64) -> Result<(), GcraFault>
    ensures clock_back { IsErrOf result GcraFault.ClockBack ↔ (at < clock) }
    ensures time_range { IsErrOf result GcraFault.TimeRange ↔ ((clock ≤ at) × (arrive_max < at)) }
{
    if at < clock {
        return Err(GcraFault::ClockBack);
    }
    if at > ARRIVE_MAX {
        return Err(GcraFault::TimeRange);
    }
    Ok(())
}
