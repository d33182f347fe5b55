//! The files that a program writes: whole or not at all, and apart from those that it reads.
#![tactic(auto)]

mod apart;
mod beside;
mod calls;
mod links;
mod names;
mod opening;
mod output;
mod place;
mod showing;
mod streams;
mod telling;
mod whole;
mod why;

pub use apart::are_apart;
pub use calls::{CallLog, OutCall};
pub use names::is_standard;
pub use opening::create_output;
pub use output::{Gone, Kept, Output, Unkept};
pub use showing::{shown, shown_letter};
pub use streams::fill_streams;
pub use telling::put_shown;
pub use whole::write_output;
pub use why::{OutFault, Why, line_of, unwritten_words, why_of};
