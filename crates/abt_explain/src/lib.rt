//! `abt explain`: a scenario is run, and each of its events is told with its reason. So are events that were woven.
#![tactic(auto)]

mod answers;
mod explaining;
mod telling;
mod written;

pub use explaining::{explain_text, perform_explain};
pub use telling::{tell_events, told_text};
