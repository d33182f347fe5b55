//! The plans of commands with `--json`.

/// A plan whose output is JSON, one object a line.
#[derive(Drop)]
pub enum JsonPlan {
    /// What a rate code means.
    Rate(String),
    /// What the RM cell says that a text spells.
    Cell(String),
    /// The report of a scenario's run: that of this file, or of the standard input.
    Run(Option<String>),
    /// The explanation of such a scenario's run.
    Explain(Option<String>),
}

/// The parts of a scenario's run that are told.
#[derive(Clone, Copy, Debug, PartialEq, Eq)]
pub enum Telling {
    /// The report of its run.
    Report,
    /// The explanation of its run.
    Explanation,
}
