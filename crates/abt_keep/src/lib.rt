//! Stores that keep a record of a source over restarts.
#![tactic(auto)]

mod fault;
mod memory;
mod plan;
mod record;
mod store;

pub use fault::{RecordFault, StoreFault};
pub use memory::MemoryStore;
pub use plan::StorePlan;
pub use record::Record;
pub use store::SeqStore;
