//! Virtual channels.

ghost use Rattle.std.specs.Prelude.{◌≡◌, ◌<◌, ◌/◌, ◌%◌, ◌^◌, ◌↔◌, IsSome, IfSome};

use std::marker::Model;

/// A virtual channel: its virtual path identifier of 12 bits and its virtual channel identifier of 16, as cells carry
/// them at a network node interface (I.361).
///
/// Channels are ordered by their path and then by their own identifier. Contracts see a channel as the record of the two.
#[derive(Clone, Copy, Debug, PartialEq, Eq, PartialOrd, Ord, Hash)]
pub struct Vc {
    vpi: u16,
    vci: u16,
}

impl Model for Vc {
    ghost use Rattle.std.specs.Prelude.{◌<◌, ◌^◌};
    ghost use Rattle.abt_cell.specs.Channel.{Channel, channel_code};

    ghost Value = { Channel };

    ghost coded = { channel_code };

    ghost view = { λ v. record { vpi = v.vpi; vci = v.vci } };

    ghost invariant = { λ v. v.vpi < 2 ^ 12 };

    ghost inverse = { λ c. record { vpi = c.vpi; vci = c.vci } };
}

impl Vc {
    /// The channel of these identifiers, or `None` if `vpi` doesn't fit its 12 bits.
    pub fn new(vpi: u16, vci: u16) -> Option<Vc>
        ensures some { IsSome result ↔ (vpi < 2 ^ 12) }
        ensures value { IfSome result (λ vc. vc ≡ record { vpi = vpi; vci = vci }) }
    {
        if vpi < 4096 {
            Some(Vc { vpi, vci })
        } else {
            None
        }
    }

    // The channel in the upper 28 bits of a header.
    pub(crate) fn of_header(header: u32) -> Vc
        ensures { result ≡ record { vpi = header / 2 ^ 20; vci = header / 2 ^ 4 % 2 ^ 16 } }
    {
        Vc {
            vpi: (header >> 20) as u16,
            vci: ((header >> 4) % 65536) as u16,
        }
    }

    /// The virtual path identifier, at most 4095 (I.361).
    pub fn vpi(self) -> u16
        ensures value { result ≡ self.vpi }
        ensures within { result < 2 ^ 12 }
    {
        self.vpi
    }

    /// The virtual channel identifier (I.361).
    pub fn vci(self) -> u16
        ensures { result ≡ self.vci }
    {
        self.vci
    }
}
