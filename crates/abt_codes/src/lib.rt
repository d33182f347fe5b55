//! Rates in words, the codes nearest to them, cells in words, and what is printed of these.
#![tactic(auto)]

mod doubt;
mod duration;
mod fault;
mod message;
mod nearest;
mod objects;
mod performing;
mod plan;
mod quantity;
mod text;
mod written;

pub use doubt::{code_below, code_doubt};
pub use duration::picoseconds_in;
pub use fault::CodesFault;
pub use message::{Kind, MessageWords, rm_in};
pub use nearest::{SaidRate, above, below, exactly, rate_said};
pub use objects::{code_objects, written_object};
pub use performing::perform_codes;
pub use plan::CodesPlan;
pub use quantity::{Quantity, RateUnit, quantity_in, units_in};
pub use text::code_text;
pub use written::{write_text, written_is_read};
