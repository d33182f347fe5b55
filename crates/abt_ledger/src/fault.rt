//! Why a capacity isn't set.
use thiserror::Error;

/// Why a capacity was not set: the first of these that applies, in this order.
#[derive(Clone, Copy, Debug, PartialEq, Eq, Error)]
pub enum CapacityFault {
    /// It is below the sum of the holds.
    #[error("the capacity is below the sum of what is held")]
    BelowSum,
    /// It is above the greatest capacity of a link.
    #[error("the capacity is above its limit")]
    AboveLimit,
}
