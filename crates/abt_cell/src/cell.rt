//! Cells of 52 octets.

ghost use Rattle.std.specs.Prelude.{◌≡◌, ◌↔◌, length, IsTrue, IsOk, IfOk};
ghost use Rattle.abt_cell.specs.Layout.{header_of, channel_of, pti_of, clp_of, payload_of};

use crate::fault::CellFault;
use crate::layout::{CELL_LENGTH, HEADER, PAYLOAD, PAYLOAD_LENGTH};
use crate::vc::Vc;
use std::marker::Model;

/// A cell without its HEC octet: four octets of header, as at a network node interface (I.361), and 48 of payload.
///
/// Contracts see a cell as the list of its octets.
#[derive(Clone, Copy, Debug, PartialEq, Eq, Hash)]
pub struct Cell {
    pub(crate) octets: [u8; CELL_LENGTH],
}

impl Model for Cell {
    ghost use Rattle.std.specs.Prelude.{ℕ, List};

    ghost Value = { List ℕ };

    ghost view = { λ c. c.octets };

    ghost use Rattle.abt_cell.specs.Layout.{IsCell};

    ghost invariant = { λ c. IsCell c.octets };

    ghost inverse = { λ octets. record { octets = octets } };
}

impl Cell {
    /// The cell of these octets, or [`CellFault::Length`] if there aren't 52. Any 52 octets are a cell.
    pub fn from_octets(octets: &[u8]) -> Result<Cell, CellFault>
        ensures ok { IsOk result ↔ (length octets.now ≡ 52) }
        ensures value { IfOk result (λ cell. cell ≡ octets.now) }
    {
        if octets.len() != CELL_LENGTH {
            return Err(CellFault::Length);
        }
        let mut copy = [0; CELL_LENGTH];
        copy.copy_from_slice(octets);
        Ok(Cell { octets: copy })
    }

    /// The octets in the order in which they are sent, the header first.
    pub fn to_octets(&self) -> [u8; CELL_LENGTH]
        ensures { result ≡ self.now }
    {
        self.octets
    }

    /// The virtual channel that the header names: 12 bits of VPI and 16 of VCI (I.361).
    pub fn vc(&self) -> Vc
        ensures { result ≡ channel_of self.now }
    {
        Vc::of_header(self.header())
    }

    /// The payload type, three bits (I.361). Binary 110 is an RM cell of a virtual channel.
    pub fn pti(&self) -> u8
        ensures { result ≡ pti_of self.now }
    {
        ((self.header() >> 1) % 8) as u8
    }

    /// Whether the bit of the cell loss priority is set (I.361): such a cell may be lost before others.
    pub fn clp(&self) -> bool
        ensures { IsTrue result ↔ (clp_of self.now ≡ 1) }
    {
        self.header() % 2 == 1
    }

    /// The 48 octets after the header.
    #[tactic(auto, using(crate::proofs::Payload::whole_payload))]
    pub fn payload(&self) -> [u8; PAYLOAD_LENGTH]
        ensures { result ≡ payload_of self.now }
    {
        let mut payload = [0; PAYLOAD_LENGTH];
        payload.copy_from_slice(&self.octets[PAYLOAD..]);
        payload
    }

    fn header(&self) -> u32
        ensures { result ≡ header_of self.now }
    {
        self.long_at(HEADER)
    }
}
