//! What is done with a source.
use abt_cell::Answer;
use abt_rate::Rate;

/// What is done with a source over its lifetime. One that its state doesn't allow does nothing. Moments are picoseconds.
#[derive(Clone, Copy, Debug, PartialEq, Eq)]
pub enum SourceCall {
    /// It starts, from what its store gives.
    Start { now: u64 },
    /// It asks for a rate.
    Ask { rate: Rate },
    /// It takes an answer, whatever that is.
    Answer(Answer),
    /// It wants to send a cell.
    Emit { now: u64 },
    /// It loses all but its store.
    Crash,
}
