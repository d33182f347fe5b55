//! Plays: a scenario's scripts carried out in one thread, with deliveries, losses and repeats drawn by a seed.
#![tactic(auto)]

mod blocks;
mod command_events;
mod draws;
mod fault;
mod fitting;
mod followed;
mod hand;
mod inboxes;
mod parcel;
mod performing;
mod player;
mod playing;
mod stage;
mod tally;
mod under_way;

pub use abt_plans::{Chances, Fate, PlayPlan};
pub use fault::{PlayFault, ShowFault, StopFault};
pub use followed::following;
pub use performing::{ScenarioPlay, show_play, tell_show_fault};
pub use playing::{Played, play};
