//! Why a cell doesn't leave.
use thiserror::Error;

/// Why a cell may not leave: the first of these that applies.
#[derive(Clone, Copy, Debug, PartialEq, Eq, Error)]
pub enum ShapeFault {
    /// The moment is below that of the last cell that left.
    #[error("the clock went back")]
    ClockBack,
    /// The moment is above [`EMIT_MAX`](crate::EMIT_MAX).
    #[error("the moment is out of range")]
    TimeRange,
    /// There is no rate to leave at.
    #[error("the rate is zero")]
    Zero,
    /// The line is taken up until the next moment, in picoseconds.
    #[error("too soon: the next cell leaves at {next}")]
    TooSoon { next: u64 },
}
