//! Connections.

use crate::limits::HOPS_MAX;
use crate::path::Path;
use abt_cell::Vc;

/// A connection: its channel, its path, and what its access line may do to its cells.
#[derive(Debug, Drop)]
pub struct Conn {
    /// The channel, which is the connection's own along its whole path.
    pub vc: Vc,
    /// The ports that its requests visit.
    pub path: Path,
    /// How long a cell travels from the source to the first hop, in picoseconds.
    pub delay: u64,
    /// By how much a cell may come too early at the first hop, in picoseconds.
    pub tau: u64,
}

impl Conn {
    ghost use Rattle.std.specs.Prelude.{◌≡◌, ◌<◌, ◌≤◌, ◌↔◌, ◌⊎◌, IsTrue, length};
    ghost use Rattle.abt_net.specs.Faults.{LeavesNet, HasWrongLength, VisitsTwice};
    ghost use Rattle.abt_net.specs.Paths.{policer_at};

    /// What the policer at a port of the path is given, if the path goes through the port: the tolerance at the first port,
    /// which polices the connection's cells, and nothing at the others (docs/RULES.md, "Node").
    pub fn policer_at(&self, port: u16) -> Option<Option<u64>>
        ensures { result ≡ policer_at self.now port }
    {
        let hop = self.path.hop_of(port)?;
        Some(if hop == 1 { Some(self.tau) } else { None })
    }

    // Whether the path names a port that a net of so many ports doesn't have.
    pub(crate) fn leaves_net(&self, ports: usize) -> bool
        ensures { IsTrue result ↔ LeavesNet ports self.now }
    {
        self.path
            .as_slice()
            .iter()
            .any(|port| usize::from(*port) >= ports)
    }

    // Whether the path has no hop, or too many.
    pub(crate) fn has_wrong_length(&self) -> bool
        ensures { IsTrue result ↔ HasWrongLength self.now }
    {
        self.path.is_empty() || self.path.len() > HOPS_MAX
    }

    // Whether the path visits a port twice.
    pub(crate) fn visits_twice(&self) -> bool
        ensures { IsTrue result ↔ VisitsTwice self.now }
    {
        let ports = self.path.as_slice();
        for (hop, port) in ports.iter().enumerate() {
            if ports[..hop].contains(port) {
                return true;
            }
        }
        false
    }
}
