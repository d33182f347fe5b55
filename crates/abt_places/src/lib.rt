//! Lines and columns of places in texts, the keys of a TOML text, and scenarios with the lines of their events.
#![tactic(auto)]

mod layout;
mod lines;
mod lines_of_events;
mod place;
mod placed;
mod walk;

pub use layout::{Entry, Layout, Section};
pub use lines::lines_at;
pub use lines_of_events::event_lines;
pub use place::{Place, place_at};
pub use placed::{Placed, read_placed};
pub use walk::layout_of;
