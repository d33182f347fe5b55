//! Why the events of a net have their outcomes, in words and numbers.
#![tactic(auto)]

mod ending;
mod explanation;
mod grounds;
mod reason;
mod refusal;
mod seen;
mod sighting;
mod sightings;

pub use explanation::explanation_of;
pub use grounds::{Grounds, Numbers, grounds_of};
pub use reason::push_reason;
pub use sighting::{Sighting, Sought};
pub use sightings::Sightings;
