//! Plans of runs whose woven events are told or written.

/// A run in threads whose events are to be told, or written as a scenario, or both.
#[derive(Drop)]
pub struct TellPlan {
    /// The file of the scenario, or `None` for the standard input.
    pub file: Option<String>,
    /// How many link workers there are.
    pub workers: u16,
    /// Whether the events are told, and a check of the scenario besides.
    pub tells: bool,
    /// The file for the scenario of the events, if they are to be written.
    pub events: Option<String>,
}
