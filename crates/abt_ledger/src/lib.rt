//! The running sum of a link, and the holds that make it up.
#![tactic(auto)]

mod fault;
mod hold;
mod ledger;

pub use fault::CapacityFault;
pub use hold::Hold;
pub use ledger::Ledger;
