//! A slow walk of the definitions, which tests compare the code with, and lists of events that are drawn along it.
#![tactic(auto)]

pub mod cells;
mod choices;
pub mod drawn;
pub mod draws;
mod generate;
mod hops;
pub mod nets;
mod sources;
mod step;
pub mod walk;
pub mod words;
