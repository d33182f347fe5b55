//! Operations of the operator of a net.

/// A capacity that the operator gives the link of a port: the number of the port, and the capacity in units of 1/512 cell/s
/// (docs/FORMATS.md, "Operator").
pub type Operation = (u16, u64);
