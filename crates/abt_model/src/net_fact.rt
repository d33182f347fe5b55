//! The facts of a whole net.
use abt_facts::Fact;

/// A fact of a net: of one of its connections, or of one of its ports. The past of a net is the list of these.
#[derive(Clone, Copy, Debug, PartialEq, Eq)]
pub enum NetFact {
    /// What happened to a connection, which is its place in the net, from 0.
    OfConn { conn: u16, fact: Fact },
    /// The link behind a port was given this capacity, in units.
    Capped { port: u16, capacity: u64 },
}
