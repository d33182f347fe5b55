//! How far a task has read its input, drawn on a terminal while it works.
#![tactic(auto)]

mod cleared;
mod deciding;
mod drawing;
mod line;
mod meter;
mod progress;
mod watched;

pub use cleared::Cleared;
pub use deciding::draws_line;
pub use progress::Progress;
pub use watched::Watched;
