//! Live processes as a pure machine, and what holds of each of its runs.
#![tactic(auto)]

mod laws;

pub use laws::{processes_are_safe, runs_are_events};
