//! The plans of the commands that answer lines.
use abt_rate::Rate;

/// The server of the lines of the standard input.
#[derive(Clone, Copy, Debug, PartialEq, Eq)]
pub enum PartsPlan {
    /// A policer that has taken no cell yet, of a tolerance in picoseconds, where this rate is held all the time.
    Police { tau: u64, rate: Rate },
    /// A shaper that may send at once, at this rate all the time.
    Shape { rate: Rate },
    /// What each cell says.
    Cells,
    /// A port without connections, whose link has this capacity in units of 1/512 cell/s.
    Port { capacity: u64 },
}
