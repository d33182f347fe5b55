//! Traces.
use crate::{Outcome, Sequence};
use abt_rate::Rate;

/// The outcomes of a run of events, and the state of the net in the end.
///
/// Contracts see its lists as lists, of rates as their units of 1/512 cell/s.
#[derive(Debug, Drop)]
pub struct Trace {
    /// The outcome of each event, in the order of the events.
    pub outcomes: Sequence<Outcome>,
    /// The rate at which each connection's source shapes in the end.
    pub rates: Sequence<Rate>,
    /// For each connection, what each hop of its path holds for it in the end, the first hop's first.
    pub held: Sequence<Sequence<Rate>>,
    /// The sum of what each port holds in the end, in units of 1/512 cell/s.
    pub totals: Sequence<u64>,
    /// The capacity of each port in the end, in units of 1/512 cell/s.
    pub capacities: Sequence<u64>,
    /// Whether the state in the end and all verdicts are safe (docs/GUARANTEES.md).
    pub safe: bool,
}
