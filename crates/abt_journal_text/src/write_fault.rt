//! Why a text isn't written whole.
use thiserror::Error;

/// Why not all lines of a text of journals went out.
#[derive(Clone, Copy, Debug, PartialEq, Eq, Error)]
pub enum WriteFault {
    /// The next line has more octets than a line may have.
    #[error("a line is too long")]
    TooLong,
    /// The writer failed, or took no octet.
    #[error("the output can't be written")]
    Write,
    /// Memory was refused.
    #[error("out of memory")]
    Memory,
}
