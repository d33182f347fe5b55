//! The proved parts for C programs: rates, RM cells and their check, the generic cell rate algorithm and the shaper, over states that the
//! C program keeps (docs/C.md; include/abt.h is what a C program sees).
//!
//! Each export stands for one call of a crate below, and what that call requires is a fault here. No export takes memory.
#![tactic(auto)]

mod asking;
mod bucket;
mod cell;
mod gcra;
mod lifetime;
mod outcome;
mod policer;
mod policer_burst;
mod port;
mod port_look;
mod port_state;
mod rate;
mod record;
mod shaper;
mod source;
mod source_look;
mod source_state;
mod spacing;
mod state;
mod table;
mod table_arrival;
mod table_burst;
mod table_cell;
mod table_message;
mod table_removal;
mod table_state;
mod turn;
