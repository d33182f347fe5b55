//! A port of a switch: what it reserves for each connection, and what it does with requests, answers and cells.
#![tactic(auto)]

mod any_grant;
mod fault;
mod grant;
mod laws;
mod port;
mod reply;
mod row;

pub use abt_ledger::CapacityFault;
pub use fault::{AddFault, ArriveFault};
pub use grant::{Decided, Grant, Open, Shut, State};
pub use laws::{
    answers_change_their_connection, answers_follow_the_rule, requests_change_their_connection,
    requests_follow_the_rule,
};
pub use port::Port;
pub use reply::{Back, DropCause, Onward};
