//! What the program does once its words are read: what a rate code means, what an RM cell says, what a port of a switch does with RM
//! cells, and what a whole net does in a scenario.
#![tactic(auto)]

mod cell;
mod fault;
mod naming;
mod performing;
mod plan;
mod port;
mod rate;
mod telling;

pub use cell::{message_hex, message_of, push_message_text};
pub use fault::Fault;
pub use performing::perform;
pub use plan::{Plan, WordsFault};
pub use port::push_served;
pub use rate::rate_line;
pub use telling::{MEMORY_LINE, OPEN_LINE, WRITE_LINE, tell_fault, tell_text};
