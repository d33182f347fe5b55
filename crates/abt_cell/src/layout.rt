//! Where the fields of an RM cell lie, and the values that some of them have (docs/FORMATS.md, "The RM cell").
//!
//! A place counts octets from 0, without the HEC octet: the header's octets 1 to 4 are at places 0 to 3, and octet n of
//! the payload, 6 to 53, is at place n - 2. A bit's place counts from 0 at the least significant: bit n of an octet,
//! 8 to 1, is at place n - 1.

/// How many octets a cell has without its HEC octet.
pub(crate) const CELL_LENGTH: usize = 52;

/// How many octets a payload has.
pub(crate) const PAYLOAD_LENGTH: usize = 48;

/// The header, octets 1 to 4.
pub(crate) const HEADER: usize = 0;

/// The payload, octets 6 to 53.
pub(crate) const PAYLOAD: usize = 4;

/// The protocol identifier, octet 6.
pub(crate) const PROTOCOL: usize = 4;

/// The flags, octet 7.
pub(crate) const FLAGS: usize = 5;

/// The code of the asked rate, octets 8 and 9.
pub(crate) const ASK: usize = 6;

/// The code of the floor, octets 10 and 11.
pub(crate) const FLOOR: usize = 8;

/// Octets that carry nothing, 12 to 17.
pub(crate) const UNUSED: usize = 10;

/// The sequence number, octets 18 to 21.
pub(crate) const SEQ: usize = 16;

/// Octets that carry nothing, 22 to 51, and are written as [`FILLER_OCTET`].
pub(crate) const FILLER: usize = 20;

/// Six bits that carry nothing and the ten of the check, octets 52 and 53.
pub(crate) const CHECK: usize = 50;

/// The flag that is set in an answer, which goes backward.
pub(crate) const DIRECTION: u32 = 7;

/// The traffic management flag, which is written 0 and says nothing here.
pub(crate) const TRAFFIC_MANAGEMENT: u32 = 6;

/// The flag that is set in a no.
pub(crate) const CONGESTION: u32 = 5;

/// The flag of a maintenance cell.
pub(crate) const MAINTENANCE: u32 = 4;

/// The flag that is set in an answer.
pub(crate) const ACKNOWLEDGEMENT: u32 = 3;

/// The flag of rigid mode.
pub(crate) const RIGID: u32 = 2;

/// The payload type of an RM cell of a virtual channel, binary 110 (I.361).
pub(crate) const RM_CELL: u8 = 6;

/// The protocol identifier of ABT.
pub(crate) const ABT: u8 = 2;

/// What is written where a payload carries nothing, up to its end.
pub(crate) const FILLER_OCTET: u8 = 0x6a;
