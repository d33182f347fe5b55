//! Parcels between workers.
ghost use Rattle.std.specs.Prelude.{◌≡◌, IfSome, Some};
ghost use Rattle.abt_cell.specs.Codec.{written_of};
ghost use Rattle.abt_cell.specs.Reading.{Reads};
ghost use Rattle.abt_cell.specs.declared.message.Rm.{Rm};

use crate::cell::CellOf;
use abt_cell::{Answer, Cell, Rm, read_rm, write_rm};
use abt_history::Keeping;
use std::collections::VecDeque;
use std::sync::Mutex;

/// The answers that wait for a source, the oldest first.
pub type AnswerBox = Mutex<VecDeque<Answer>>;

/// A parcel that link workers take from their channel.
#[derive(Clone, Copy, Debug, PartialEq, Eq)]
pub enum Parcel {
    /// An RM cell for the port of this number.
    Cell { port: u16, octets: [u8; 52] },
    /// The worker that takes it ends.
    Stop,
}

impl Parcel {
    /// The parcel that brings a message to a port.
    pub fn of(port: u16, rm: &Rm) -> Parcel
        ensures { result ≡ Parcel.Cell port (written_of rm.now) }
    {
        Parcel::Cell {
            port,
            octets: write_rm(rm).to_octets(),
        }
    }
}

/// A parcel of a run that keeps its history.
#[derive(Drop)]
pub enum ParcelOf<K: Keeping> {
    /// An RM cell.
    Cell(CellOf<K>),
    /// The worker that takes it ends.
    Stop,
}

// The message whose cell these octets are, if there is one.
pub(crate) fn message_in(octets: &[u8; 52]) -> Option<Rm>
    ensures some { IfSome result (Reads octets.now) }
    ensures only { (rm : Rm) → Reads octets.now rm → result ≡ Some rm }
{
    let cell = Cell::from_octets(octets).ok()?;
    read_rm(&cell).ok()
}
