//! Laws of live processes: what their journals say over any lines.
#![tactic(auto)]

mod law;

pub use law::{
    clocked_journals_are_deeds, journals_are_deeds, journals_are_steps, octets_are_read,
    pasts_are_told, source_steps_are_moves, switch_steps_are_moves,
};
