//! Nets: ports with their capacities, and the connections that run over them.
#![tactic(auto)]

mod channels;
mod conn;
mod fault;
mod limits;
mod net;
mod path;
mod places;
mod rules;

pub use conn::Conn;
pub use fault::NetFault;
pub use limits::{DELAY_MAX, HOPS_MAX, PORTS_MAX};
pub use net::Net;
pub use path::Path;
