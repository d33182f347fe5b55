//! Ports with journals and callers with receipts, what is sent after a reply, and what a run left, gathered.
#![tactic(auto)]

mod entry;
mod fault;
mod following;
mod gather_fault;
mod gathering;
mod input;
mod journals;
mod looks;
mod next_message;
mod path;
mod seat;
mod seen_counts;
mod state;

pub use entry::{Entry, Receipt};
pub use fault::ServeFault;
pub use following::follow;
pub use gather_fault::GatherFault;
pub use gathering::gather;
pub use input::{PortInput, PortReply};
pub use journals::Journals;
pub use next_message::Next;
pub use seat::Seat;
pub use state::PortState;
