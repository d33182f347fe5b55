//! A switch and a source as the program runs them: over the files of their journals, and of the source's store.
#![tactic(auto)]

mod answering;
mod clock;
mod fault;
mod journal_fault;
mod opening;
mod source;
mod stores;
mod switch;
mod telling;

pub use abt_plans::{SourcePlan, SwitchPlan};
pub use fault::LiveStop;
pub use journal_fault::JournalFault;
pub use source::perform_source;
pub use stores::Stores;
pub use switch::perform_switch;
