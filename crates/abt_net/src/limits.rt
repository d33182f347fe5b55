//! The limits that nets alone have (docs/RULES.md, "Limits").

/// The most ports of a net.
pub const PORTS_MAX: usize = 256;

/// The most hops of a path.
pub const HOPS_MAX: usize = 16;

/// The greatest delay of an access line, in picoseconds.
pub const DELAY_MAX: u64 = 10_000_000_000_000;
