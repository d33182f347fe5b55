//! Laws of nets: what is proved of every list of events beside the headline.
#![tactic(auto)]

mod decreases;
mod grants;
mod holds;
mod round_trip;

pub use decreases::{decide, decreases_are_never_refused};
pub use grants::what_fits_is_granted;
pub use holds::holds_stay_until_a_request_or_a_no;
pub use round_trip::ask_with_nothing_between;
