//! Whole nets, carried through lists of events.
#![tactic(auto)]

mod cells;
mod connection_state;
mod dispatch;
mod ends;
mod fresh;
mod hops;
mod links;
mod messages;
mod opening;
mod progress;
mod running;
mod safety;
mod world;

pub use abt_actor::SourceActor;
pub use abt_model::{Cause, Event, Heard, Outcome, Sequence, SourceCommand, Trace};
pub use abt_net::{Conn, Net, NetFault, Path};
pub use opening::opening_port;
pub use progress::Progress;
pub use running::run;
pub use world::World;
