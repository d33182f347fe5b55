//! A source over its whole lifetime: starts, asks, answers, emissions and crashes, over any store that keeps its promise.
#![tactic(auto)]

mod any_source;
mod call;
mod laws;
mod stored_source;

pub use call::SourceCall;
pub use laws::numbers_rise_over_any_store;
pub use stored_source::StoredSource;
