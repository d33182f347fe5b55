//! `abt check`: what is wrong or doubtful in a scenario, with its place in the text.
#![tactic(auto)]

mod checking;
mod doubts;
mod events;
mod expectations;
mod finding;
mod keys;
mod located;
mod named;
mod near;
mod net;
mod objects;
mod outcome_words;
mod performing;
mod rates;
mod strict;
mod telling;
mod testing;
mod texts;
mod unable;
mod unread;
mod words;

pub use checking::check;
pub use expectations::ExpectFault;
pub use finding::{Checked, FOUND_MAX, Found, Warning};
pub use named::{FileForm, FileSaid, check_named, unread_said};
pub use performing::perform_check;
pub use strict::first_unable;
pub use telling::{Answer, answer_of};
