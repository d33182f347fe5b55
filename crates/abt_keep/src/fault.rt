//! Why a store didn't answer, and why octets are no record.
use thiserror::Error;

/// Why a store didn't answer.
#[derive(Clone, Copy, Debug, PartialEq, Eq, Error)]
pub enum StoreFault {
    /// The device beneath it failed.
    #[error("the store failed")]
    Device,
}

/// Why octets are no record: the first of these that applies.
#[derive(Clone, Copy, Debug, PartialEq, Eq, Error)]
pub enum RecordFault {
    /// There are neither 4 nor 12.
    #[error("a record has 4 or 12 octets")]
    Length,
    /// No rate has the spacing that they say.
    #[error("no rate has the spacing of the record")]
    Spacing,
}
