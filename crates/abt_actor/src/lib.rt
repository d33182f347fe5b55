//! Actors: sources with their stores, in whichever state they are.
#![tactic(auto)]

mod actor;
mod added;
mod any_source;

pub use abt_model::{Cause, Heard, Outcome, SourceCommand};
pub use actor::SourceActor;
pub use added::Added;
