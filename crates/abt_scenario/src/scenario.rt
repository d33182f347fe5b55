//! Scenarios.
use abt_model::{Event, Operation, Script, Sequence};
use abt_net::Net;

/// A net, what happens in it, and what its sources and its operator do.
#[derive(Debug, Drop)]
pub struct Scenario {
    /// The ports and the connections.
    pub net: Net,
    /// The events, in order.
    pub events: Sequence<Event>,
    /// The script of each connection's source, in the order of the connections.
    pub scripts: Sequence<Script>,
    /// The operations, in order.
    pub operator: Sequence<Operation>,
}
