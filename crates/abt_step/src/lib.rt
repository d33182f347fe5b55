//! A net that events happen to line by line: each is answered by its outcome before the next one is read.
#![tactic(auto)]

mod asked;
mod happening;
mod law;
mod lines;
mod net_at_work;
mod net_state;
mod objects;
mod performing;
mod plan;
mod possible;
mod possible_members;
mod possible_words;
mod reason_numbers;
mod shown;
mod state_members;
mod state_words;
mod stepped;
mod telling;

pub use abt_plans::AnswerForm;
pub use asked::{Asked, AskedFault, Query};
pub use law::{a_net_is_stepped, what_is_possible};
pub use net_state::NetState;
pub use performing::{perform_step, perform_step_as};
pub use plan::StepPlan;
pub use possible::{CellWindow, Possible};
pub use stepped::SteppedLines;
