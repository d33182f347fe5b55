//! Cell rates: their codes, their units of 1/512 cell per second, and the spacing of cells that keeps one.
#![tactic(auto)]

mod limits;
mod rate;

pub use limits::{CAPACITY_MAX, CONNECTIONS_MAX, TAU_MAX, WORKERS_MAX, limits_are_kept};
pub use rate::Rate;
