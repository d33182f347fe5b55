//! The octet before a cell.
ghost use Rattle.std.specs.Prelude.{◌≡◌, ◌∷◌, OnOk};
ghost use Rattle.abt_cell.specs.Codec.{written_of};
ghost use Rattle.abt_text.specs.Text.{◌⋅◌};
ghost use Rattle.abt_live.specs.Marks.{mark_of, port_of};

use abt_cell::{Rm, write_rm};
use abt_records::MARK_MIN;
use std::alloc::AllocError;

/// The octet of the source of the connection that the cell names.
pub(crate) const SOURCE_MARK: u8 = 255;

/// The ports below this number have an octet, which is 128 and the number.
const MARKED_PORTS: u16 = 127;

// The port whose octet it is.
pub(crate) fn port_of(mark: u8) -> Option<u16>
    ensures { result ≡ port_of mark }
{
    if mark < MARK_MIN {
        return None;
    }
    let port = u16::from(mark - MARK_MIN);
    if port < MARKED_PORTS {
        Some(port)
    } else {
        None
    }
}

// The octet of a port, if it has one.
pub(crate) fn mark_of(port: u16) -> Option<u8>
    ensures { result ≡ mark_of port }
{
    if port < MARKED_PORTS {
        Some(MARK_MIN + port as u8)
    } else {
        None
    }
}

// Adds the cell of a message behind an octet.
pub(crate) fn push_cell(octets: &mut Vec<u8>, mark: u8, rm: &Rm) -> Result<(), AllocError>
    ensures { OnOk result (octets.new.items ≡ octets.old.items ⋅ (mark ∷ written_of rm.now)) }
{
    octets.push(mark)?;
    octets.extend_from_slice(&write_rm(rm).to_octets())
}
