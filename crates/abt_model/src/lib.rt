//! The outcomes of a net's events and what they leave behind, as definitions, and what is proved of every list of
//! events. With the types that runs and journals are made of: lists, traces, scripts, and what a source did.
#![tactic(auto)]

mod append;
mod command;
mod entry;
mod event;
mod headline;
mod journal;
mod net_fact;
mod operation;
mod outcome;
mod port_laws;
mod script;
mod script_command;
mod sequence;
mod target;
mod target_laws;
mod trace;

pub use append::append_event;
pub use command::SourceCommand;
pub use entry::SourceEntry;
pub use event::Event;
pub use headline::{
    arrivals_conform, every_past_is_safe, messages_agree, rates_wait_for_answers,
    stores_cover_sources,
};
pub use journal::SourceJournal;
pub use net_fact::NetFact;
pub use operation::Operation;
pub use outcome::{Cause, Heard, Outcome};
pub use port_laws::{tables_follow_facts, tables_stand_for_facts};
pub use script::Script;
pub use script_command::Command;
pub use sequence::Sequence;
pub use target::{HopEvent, SourceEvent, Target};
pub use target_laws::each_event_has_one_target;
pub use trace::Trace;
