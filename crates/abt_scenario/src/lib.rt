//! Scenarios from texts and as texts, and the reports of their runs.
#![tactic(auto)]

mod comparing;
mod draft;
mod engine;
mod fault;
mod key;
mod laws;
mod reports;
mod sample;
mod scenario;
mod sending;
mod text;
mod text_fault;
mod value;
mod writing;

pub use engine::{EngineFault, read_from, run_text, trace_of};
pub use fault::ScenarioFault;
pub use key::Key;
pub use laws::{each_text_has_one_reading, each_text_has_one_report};
pub use reports::report;
pub use sample::sample_text;
pub use scenario::Scenario;
pub use sending::{save_events, write_events};
pub use text::read;
pub use text_fault::EventsFault;
pub use writing::scenario_text;
