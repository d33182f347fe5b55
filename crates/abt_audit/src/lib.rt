//! `abt audit`: journals of texts, woven into events, or what doesn't fit.
#![tactic(auto)]

mod auditing;
mod coming;
mod deciding;
mod entry_object;
mod fault;
mod fault_text;
mod finding;
mod form;
mod gathering;
mod laws;
mod marks;
mod missing;
mod naming;
mod obeying;
mod objects;
mod one_log;
mod one_log_fault;
mod one_log_laws;
mod parting;
mod performing;
mod performing_one;
mod protocol;
mod putting;
mod reason_lines;
mod settling;
mod standing;
mod stuck;
mod unordered;
mod waiting;
mod why;
mod wording;

pub use auditing::{Audited, AuditedRun, audit};
pub use fault::AuditFault;
pub use form::Form;
pub use gathering::read_all;
pub use laws::{each_way_is_tried, mismatches_are_contradicted};
pub use marks::{Mark, marks_of};
pub use one_log::{LogVerdict, judge_log};
pub use one_log_fault::LogFault;
pub use one_log_laws::woven_logs_obey;
pub use parting::{WovenPart, weave_part};
pub use performing::{perform_audit, show_audit};
pub use performing_one::perform_log_audit;
