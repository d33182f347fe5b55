//! The source of a connection, whose state is a type: an illegal change of state doesn't compile.
#![tactic(auto)]

mod answer;
mod any;
mod ask;
mod fault;
mod need;
mod parts;
mod source;
mod start;
mod state;

pub use answer::Answered;
pub use any::{AnySource, Phase};
pub use ask::AskRefused;
pub use fault::{AskFault, StartFault};
pub use parts::SourceParts;
pub use source::Source;
pub use start::{HOLD_OFF_MAX, START_MAX, StartRefused};
pub use state::{Asking, Down, Idle, State, Up};
