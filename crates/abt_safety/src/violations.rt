//! Counts of violations.
ghost use Rattle.std.specs.Prelude.{◌≡◌, ◌+◌, ◌<◌, ◌≤◌, ◌==◌, ◌&&◌, false};
ghost use Rattle.abt_safety.specs.Tallies.{one_if, is_above as is_table_above, IsRecounted};

use crate::sums::is_above;
use abt_node::Port;

/// Whether one connection and one port have violations.
#[derive(Clone, Copy, Debug, PartialEq, Eq)]
pub struct ViolationFlags {
    /// The source of the connection shapes above what a hop holds for it.
    pub above: bool,
    /// The port holds more than its capacity.
    pub over: bool,
    /// A cell of the connection came that wasn't found conforming.
    pub broken: bool,
}

impl ViolationFlags {
    /// No violation, of a connection or of a port.
    pub fn none() -> ViolationFlags
        ensures above { result.above ≡ false }
        ensures over { result.over ≡ false }
        ensures broken { result.broken ≡ false }
    {
        ViolationFlags {
            above: false,
            over: false,
            broken: false,
        }
    }

    /// Whether a port has a violation, beside a connection that has none.
    pub fn of_port(port: &Port) -> ViolationFlags
        ensures above { result.above ≡ false }
        ensures over { result.over ≡ is_table_above port.now }
        ensures broken { result.broken ≡ false }
    {
        ViolationFlags {
            above: false,
            over: is_above(port),
            broken: false,
        }
    }
}

/// How many violations of each kind a net has.
#[derive(Clone, Copy, Debug, PartialEq, Eq)]
pub struct Violations {
    /// Connections whose source shapes above what a hop holds for them.
    pub above: u64,
    /// Ports that hold more than their capacity.
    pub over: u64,
    /// Connections that had a cell which wasn't found conforming.
    pub broken: u64,
}

/// A count after one item may have changed: whether that one counted before, and whether it does now.
pub fn recount(count: u64, before: bool, after: bool) -> u64
    ensures { IsRecounted count before after result }
{
    match (before, after) {
        (true, false) => count.saturating_sub(1),
        (false, true) => count.saturating_add(1),
        _ => count,
    }
}

impl Violations {
    /// Nothing counts.
    pub fn none() -> Violations
        ensures above { result.above ≡ 0 }
        ensures over { result.over ≡ 0 }
        ensures broken { result.broken ≡ 0 }
    {
        Violations {
            above: 0,
            over: 0,
            broken: 0,
        }
    }

    /// The counts after one connection and one port changed.
    pub fn after(&self, before: &ViolationFlags, after: &ViolationFlags) -> Violations
        ensures above { IsRecounted self.now.above before.now.above after.now.above result.above }
        ensures over { IsRecounted self.now.over before.now.over after.now.over result.over }
        ensures broken { IsRecounted self.now.broken before.now.broken after.now.broken result.broken }
    {
        Violations {
            above: recount(self.above, before.above, after.above),
            over: recount(self.over, before.over, after.over),
            broken: recount(self.broken, before.broken, after.broken),
        }
    }

    /// Whether nothing counts.
    pub fn is_safe(&self) -> bool
        ensures { result ≡ (self.now.above == 0 && self.now.over == 0 && self.now.broken == 0) }
    {
        self.above == 0 && self.over == 0 && self.broken == 0
    }
}
