//! Lines and cells of any reader, answered one after the other, in memory that doesn't grow with the input.
#![tactic(auto)]

mod answers;
mod begun;
mod server;
mod serving;

pub use begun::{MARK_MIN, RECORD_OCTETS, is_cell};
pub use server::RecordServer;
pub use serving::serve_records;
