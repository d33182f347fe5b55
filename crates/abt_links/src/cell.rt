//! RM cells on their way to a port.
ghost use Rattle.std.specs.Prelude.{◌≡◌, IfSome};
ghost use Rattle.abt_cell.specs.Reading.{Reads};
ghost use Rattle.abt_history.specs.Modes.{When};
ghost use Rattle.abt_links.specs.Carried.{IsCarried};

use crate::parcel::message_in;
use abt_history::{Keeping, LetterOf};
use std::marker::Model;

/// The octets of an RM cell for the port of this number, with what was seen when it was sent, if the run keeps its history.
#[derive(Drop)]
pub struct CellOf<K: Keeping> {
    port: u16,
    octets: [u8; 52],
    front: K::Front,
}

impl<K: Keeping> Model for CellOf<K> {
    ghost use Rattle.abt_history.specs.Modes.{When};
    ghost use Rattle.abt_links.specs.Carried.{CellView, IsCarried};

    ghost Value = { CellView };

    ghost view = { λ c. record { port = c.port; octets = c.octets; front = K.log c.front } };

    ghost invariant = { λ c. When K.kept (IsCarried K.net (K.log c.front) c.port c.octets) };
}

impl<K: Keeping> CellOf<K> {
    // The cell of these octets, by what was seen.
    pub(crate) fn new(port: u16, octets: [u8; 52], front: K::Front) -> CellOf<K>
        requires { When K.kept (IsCarried K.net (K.log front) port octets) }
        ensures { result ≡ record { port = port; octets = octets; front = K.log front } }
    {
        CellOf {
            port,
            octets,
            front,
        }
    }

    // The parts of the cell.
    pub(crate) fn into_parts(self) -> (u16, [u8; 52], K::Front)
        ensures value { (result.0 ≡ self.port) × (result.1 ≡ self.octets) × (K.log result.2 ≡ self.front) }
        ensures carried { When K.kept (IsCarried K.net (K.log result.2) result.0 result.1) }
    {
        let CellOf {
            port,
            octets,
            front,
        } = self;
        (port, octets, front)
    }

    // The port.
    pub(crate) fn port(&self) -> u16
        ensures { result ≡ self.now.port }
    {
        self.port
    }

    // The message that the cell says, if it says one.
    pub(crate) fn letter(&self) -> Option<LetterOf<K>>
        ensures { IfSome result (λ letter. (letter.port ≡ self.now.port) ×
            Reads self.now.octets letter.message) }
    {
        let message = message_in(&self.octets)?;
        Some(LetterOf::new(self.port, message, K::again(&self.front)))
    }
}
