//! Why two lists are no net.
use thiserror::Error;

/// Why ports and connections are no net: the first of these that applies, in this order, at the
/// lowest connection to which it applies (docs/RULES.md, "Limits").
#[derive(Clone, Copy, Debug, PartialEq, Eq, Error)]
pub enum NetFault {
    /// A path names a port that isn't in the net.
    #[error("connection {connection} names a port that is not in the net")]
    NoPort { connection: u64 },
    /// A path has no hop, or more than 16.
    #[error("the path of connection {connection} does not have 1 to 16 hops")]
    PathLength { connection: u64 },
    /// A path visits a port twice.
    #[error("connection {connection} visits a port twice")]
    PathRepeat { connection: u64 },
    /// An earlier connection has this one's channel.
    #[error("connection {connection} has the channel of an earlier one")]
    VcRepeat { connection: u64 },
    /// The ports, the connections, a capacity, a tau or a delay are above their limits.
    #[error("the net is past its limits")]
    Limit,
    /// Memory was refused.
    #[error("out of memory")]
    Memory,
}
