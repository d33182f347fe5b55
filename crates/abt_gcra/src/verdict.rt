//! Verdicts.

/// The verdict of a policer on a data cell (docs/RULES.md, "GCRA").
#[derive(Clone, Copy, Debug, PartialEq, Eq)]
pub enum Verdict {
    /// The cell keeps every window with the cells that were taken before it, and is taken.
    Conforming,
    /// The cell comes too early, and isn't taken.
    TooEarly,
    /// No rate is held for its connection, so it isn't taken.
    NoRate,
}
