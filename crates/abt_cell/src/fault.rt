//! Why octets are no cell, and why a cell is no request and no answer.
use thiserror::Error;

/// Why octets are no cell.
#[derive(Clone, Copy, Debug, PartialEq, Eq, Hash, Error)]
pub enum CellFault {
    /// There are not 52 of them: 4 of header without the HEC octet, and 48 of payload.
    #[error("a cell has 52 octets")]
    Length,
}

/// Why a cell is neither a request nor an answer (docs/FORMATS.md, "The RM cell"). A reader looks for these in this
/// order and returns the first that applies.
#[derive(Clone, Copy, Debug, PartialEq, Eq, Hash, Error)]
pub enum RmFault {
    /// The payload type isn't that of an RM cell of a virtual channel, binary 110 (I.361).
    #[error("not an RM cell")]
    NotRm,
    /// The payload isn't divisible by the generator of the CRC-10.
    #[error("the check is wrong")]
    Crc,
    /// The protocol identifier isn't 2, that of ATM block transfer.
    #[error("the protocol identifier is not 2")]
    Protocol,
    /// The maintenance bit is set.
    #[error("a maintenance cell")]
    Maintenance,
    /// The rigid bit isn't set, and elastic mode isn't served.
    #[error("elastic mode")]
    Elastic,
    /// A request goes backward, or an answer forward.
    #[error("a request is forward, an answer backward")]
    Direction,
    /// The sequence number is 0, and numbers begin at 1.
    #[error("sequence number 0")]
    SeqZero,
    /// The asked rate is below the floor.
    #[error("the asked rate is below the floor")]
    RateOrder,
}
