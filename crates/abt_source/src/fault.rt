//! Why a source doesn't start, and why it doesn't ask.
use thiserror::Error;

/// Why a source didn't start: the first of these that applies.
#[derive(Clone, Copy, Debug, PartialEq, Eq, Error)]
pub enum StartFault {
    /// The store didn't give its record.
    #[error("the store did not give its record")]
    Keep,
    /// The moment is above [`START_MAX`](crate::START_MAX).
    #[error("the moment of the start is out of range")]
    TimeRange,
}

/// Why a source didn't ask: the first of these that applies.
#[derive(Clone, Copy, Debug, PartialEq, Eq, Error)]
pub enum AskFault {
    /// The last sequence number is used up.
    #[error("no sequence number is left")]
    SeqExhausted,
    /// The store didn't take the next record.
    #[error("the store did not take the next record")]
    Keep,
}
