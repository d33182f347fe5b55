//! Cells of 52 octets, and the requests and answers that RM cells carry: reading, writing and the check
//! (docs/FORMATS.md). Nothing here takes memory.
#![tactic(auto)]

mod cell;
mod crc;
mod fault;
mod field;
mod fold;
mod law;
mod layout;
mod message;
mod read;
mod vc;
mod write;

pub use cell::Cell;
pub use crc::crc10;
pub use fault::{CellFault, RmFault};
pub use law::damage_is_refused;
pub use message::{Answer, Request, Rm};
pub use read::read_rm;
pub use vc::Vc;
pub use write::write_rm;
