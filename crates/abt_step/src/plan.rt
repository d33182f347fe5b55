//! The plan of `abt step`.

/// A net, an event a line.
#[derive(Drop)]
pub struct StepPlan {
    /// The file of the scenario that has the net.
    pub file: String,
}
