//! What happened to one connection, found by number.
#![tactic(auto)]

mod emissions;
mod fact_index;
mod hops;
mod lookups;
mod message;
mod messages;

pub use fact_index::FactIndex;
pub use lookups::Lookups;
