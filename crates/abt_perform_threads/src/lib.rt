//! `abt threads`, carried out: a scenario's scripts run in threads, what they left is gathered, woven into events, and judged.
#![tactic(auto)]

mod faults;
mod judging;
mod keeping;
mod performing;
mod ran;
mod showing;
mod telling;

pub use faults::{fault_of_run, fault_of_show};
pub use judging::{Judged, judge};
pub use keeping::{KeepFault, KeepPlan, keep_all, keep_run, tell_unkept};
pub use performing::{JudgedRun, perform_threads, show_scenario};
pub use ran::{Ran, Unrun};
pub use showing::{ShowFault, Shown, show_run};
pub use telling::TellPlan;
