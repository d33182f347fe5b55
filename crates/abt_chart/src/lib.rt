//! What a picture of a run shows, as values: messages, and what is held and shaped meanwhile.
#![tactic(auto)]

mod arrow;
mod before;
mod behind;
mod chart;
mod crossings;
mod frame;
mod holdings;
mod message;
mod places;
mod requests;
mod told;

pub use arrow::{Arrival, Departure};
pub use chart::{Chart, chart_of};
pub use crossings::Crossing;
pub use frame::{Frame, frame_of};
pub use message::{Kind, Message, Stop};
pub use told::{Told, told_of};
