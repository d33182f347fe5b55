//! What was sent can be served: messages, capacities and cells.
#![tactic(auto)]

mod laws;

pub use laws::{capacities_come, cells_arrive_at_once, replies_lead_on, sent_messages_come};
