//! The texts of events, commands, outcomes, rates and moments, and the report of a run.
#![tactic(auto)]

mod command;
mod event;
mod event_words;
mod lines;
mod measure;
mod names;
mod operation;
mod outcome;
mod pieces;
mod report;
mod value;

pub use command::command_of;
pub use event::event_of;
pub use event_words::push_event;
pub use lines::safe_line;
pub use measure::{cells_text, seconds_text};
pub use names::{
    ask_fault_name, capacity_fault_name, cause_name, heard_name, start_fault_name, verdict_name,
};
pub use operation::operation_of;
pub use outcome::push_outcome;
pub use report::report_text;
pub use value::rate_of;
