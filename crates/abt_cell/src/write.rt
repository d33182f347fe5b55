//! RM cells, written.

ghost use Rattle.std.specs.Prelude.{◌≡◌, ℕ, ◌+◌, ◌*◌, ◌^◌, ◌<◌, List};
ghost use Rattle.abt_cell.specs.Codec.{written_of, draft_of, octets_with, header_for, IsSayable};
ghost use Rattle.abt_cell.specs.Layout.{IsCell, rm_type};
ghost use Rattle.abt_cell.specs.Reading.{Reads, IsWritten, IsOnlyWritten};
ghost use Rattle.abt_cell.specs.declared.message.Rm.{Rm};

use crate::cell::Cell;
use crate::crc::remainder;
use crate::layout::{
    ABT, ASK, CELL_LENGTH, CHECK, FILLER, FILLER_OCTET, FLAGS, FLOOR, HEADER, PAYLOAD, PROTOCOL,
    RM_CELL, SEQ, UNUSED,
};
use crate::message::Rm;
use crate::vc::Vc;

/// The one cell that is written for a request or an answer: with cell loss priority 0, every field that a reader
/// ignores as it is to be written, and canonical codes (docs/FORMATS.md, "The RM cell").
pub fn write_rm(rm: &Rm) -> Cell
    ensures value { result ≡ written_of rm.now }
    ensures written { IsWritten rm.now result }
    ensures only_cell { (other : List ℕ) → IsCell other → IsWritten rm.now other → other ≡ result }
    ensures only_reading { (other : Rm) → Reads result other → other ≡ rm.now }
{
    Cell {
        octets: checked(rm),
    }
}

// The octets of the cell, with its check.
#[tactic(auto, unfolding(crate::specs::Codec::written_of))]
fn checked(rm: &Rm) -> [u8; CELL_LENGTH]
    ensures cell { IsCell result }
    ensures value { result ≡ written_of rm.now }
    ensures only { IsOnlyWritten rm.now result }
{
    let mut octets = draft(rm);
    let check = remainder(&octets[PAYLOAD..]);
    let [high, low] = check.to_be_bytes();
    octets[CHECK] = high;
    octets[CHECK + 1] = low;
    octets
}

// The cell for a request or an answer with 0 for a check.
fn draft(rm: &Rm) -> [u8; CELL_LENGTH]
    ensures cell { IsCell result }
    ensures value { result ≡ draft_of rm.now 0 }
    ensures sayable { IsSayable rm.now }
{
    let request = rm.request();
    let header = header(request.vc());
    let ask = request.ask().code();
    let floor = request.floor().code();
    let seq = request.seq();
    octets_with(header, rm.flags(), ask, floor, seq)
}

// The header of an RM cell on a channel.
fn header(vc: Vc) -> u32
    ensures value { result ≡ vc.vpi * 2 ^ 20 + vc.vci * 2 ^ 4 + rm_type * 2 }
    ensures fits { (vc.vpi < 2 ^ 12) × (vc.vci < 2 ^ 16) }
{
    ((vc.vpi() as u32) << 20) + ((vc.vci() as u32) << 4) + ((RM_CELL as u32) << 1)
}

// All octets of a cell with these fields, the check 0 and the others as they are written.
fn octets_with(header: u32, flags: u8, ask: u16, floor: u16, seq: u32) -> [u8; CELL_LENGTH]
    ensures { result ≡ octets_with header flags ask floor seq 0 }
{
    let mut octets = [0; CELL_LENGTH];
    octets[HEADER..PAYLOAD].copy_from_slice(&header.to_be_bytes());
    octets[PROTOCOL] = ABT;
    octets[FLAGS] = flags;
    octets[ASK..FLOOR].copy_from_slice(&ask.to_be_bytes());
    octets[FLOOR..UNUSED].copy_from_slice(&floor.to_be_bytes());
    octets[SEQ..FILLER].copy_from_slice(&seq.to_be_bytes());
    octets[FILLER..CHECK].fill(FILLER_OCTET);
    octets
}
