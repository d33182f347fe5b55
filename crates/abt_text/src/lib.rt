//! Whole texts over any reader and any writer, and the words that texts are made of.
#![tactic(auto)]

mod code;
mod numeral;
mod reading;
mod spaced;
mod writing;

pub use code::HexCode;
pub use numeral::{u16_of, u32_of, u64_of};
pub use reading::{TEXT_MAX, TextFault, Unread, octets_of, read_some};
pub use spaced::words_of;
pub use writing::{Unwritten, put};
