//! The facts that one connection's events leave, and what a list of them says of its source, its hops and its cells.
#![tactic(auto)]

mod fact;
mod verdicts;

pub use fact::Fact;
pub use verdicts::verdicts_keep_windows;
