//! Journals as devices write them, with what they can't know: which requests and cells of a source its first port served.
#![tactic(auto)]

mod completing;
mod completion;
mod derived;
mod restarting;
mod served;
mod told;
mod walk;

pub use completion::derive;
pub use restarting::restart;
