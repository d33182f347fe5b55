//! What `abt rate`, `abt cell`, `abt run` and `abt explain` say, as JSON: one object a line (docs/FORMATS.md, "JSON").
#![tactic(auto)]

mod cell;
mod exact;
mod explain;
mod object;
mod outcome;
mod perform;
mod plan;
mod rate;
mod report;
mod scenario;

pub use cell::{cell_json, push_message};
pub use exact::push_exact;
pub use explain::{explanation_json, push_explained};
pub use object::{begin_kind, end_line};
pub use perform::perform_json;
pub use plan::{JsonPlan, Telling};
pub use rate::{push_rate_members, rate_json};
pub use report::{push_codes, report_json};
pub use scenario::scenario_json;
