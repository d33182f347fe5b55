//! The generic cell rate algorithm of I.371 over whole picoseconds, by virtual scheduling and as a
//! leaky bucket, and a policer that follows a rate as it changes (docs/RULES.md, "GCRA").
#![tactic(auto)]

mod bucket;
mod fault;
mod gcra;
mod law;
mod limits;
mod list;
mod policer;
mod verdict;

pub use bucket::Bucket;
pub use fault::{GcraFault, PoliceFault};
pub use gcra::Gcra;
pub use law::{conforming_cells_are_taken, shaped_cells_conform, verdict_is_found};
pub use limits::{ARRIVE_MAX, SPACING_MAX, limits_are_kept};
pub use list::police;
pub use policer::Policer;
pub use verdict::Verdict;
