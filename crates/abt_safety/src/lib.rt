//! Whether what ports hold covers what is sent.
#![tactic(auto)]

mod holding;
mod sums;
mod violations;

pub use holding::{Shaped, held_along, is_held, is_held_after, is_held_at};
pub use sums::{fits, is_above, is_over};
pub use violations::{ViolationFlags, Violations, recount};
