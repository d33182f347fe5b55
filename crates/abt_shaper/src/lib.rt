//! A shaper: the cells of a source leave no sooner than the rate at which the last one left allows
//! (docs/RULES.md, "Shaper").
#![tactic(auto)]

mod fault;
mod limits;
mod shaper;

pub use fault::ShapeFault;
pub use limits::EMIT_MAX;
pub use shaper::Shaper;
