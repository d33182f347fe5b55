//! The limit of a shaper (docs/RULES.md, "Limits").

/// The greatest moment at which a cell leaves, in picoseconds: 2^61.
pub const EMIT_MAX: u64 = 2305843009213693952;
