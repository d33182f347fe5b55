//! Commands of scripts.
use abt_keep::StorePlan;
use abt_rate::Rate;

/// A command to the source of one connection (docs/FORMATS.md, "Scripts"). Moments are picoseconds.
#[derive(Clone, Copy, Debug, PartialEq, Eq)]
pub enum Command {
    /// It starts.
    Start { now: u64 },
    /// It asks for a rate. The plan is that of the one write into its store.
    Ask { rate: Rate, plan: StorePlan },
    /// It sends its open request once more.
    Again,
    /// It loses all but its store.
    Crash,
    /// It wants to send a cell, which comes to the first hop this much later than its access line's delay, if it isn't
    /// lost.
    Emit { now: u64, jitter: Option<u64> },
    /// It looks for answers at most this often, while it waits for one.
    Listen { turns: u32 },
}
