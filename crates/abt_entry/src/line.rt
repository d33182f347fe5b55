//! The lines of journals.
use abt_journal::Entry;
use abt_model::SourceEntry;
use abt_net::Conn;
use std::marker::Model;

/// Ports and connections, before anybody asks whether they are a net. Contracts see them as a net is seen.
#[derive(Debug, Drop)]
pub struct NetDraft {
    /// The capacities of the ports, in units of 1/512 cell/s.
    pub capacities: Vec<u64>,
    /// The connections.
    pub conns: Vec<Conn>,
}

impl Model for NetDraft {
    ghost use Rattle.abt_net.specs.Topology.{Topology};

    ghost Value = { Topology };

    ghost view = { λ n. record { capacities = n.capacities.items; conns = n.conns.items } };
}

/// One line of a text of journals (docs/JOURNALS.md).
#[derive(Debug, Drop)]
pub enum Line {
    /// The net whose journals these are.
    Net(NetDraft),
    /// A step of the port of this number.
    Port { port: u16, entry: Entry },
    /// Such a step that doesn't say its place, which is that behind the port's steps so far. Its entry has 0 there.
    Unplaced { port: u16, entry: Entry },
    /// An entry of the source of the connection of this number.
    Source { source: u16, entry: SourceEntry },
    /// Such an entry, of an ask whose write failed, that leaves open whether the record was stored. Its plan is that it wasn't.
    Open { source: u16, entry: SourceEntry },
    /// The end: nothing follows.
    End,
}
