//! What a switch and a source are to be.

/// Ports of the net of a scenario, as a switch.
#[derive(Debug, Drop)]
pub struct SwitchPlan {
    /// The file of the scenario.
    pub file: String,
    /// The numbers of its ports in the net.
    pub ports: Vec<u16>,
    /// The file of its journal.
    pub journal: String,
    /// Whether messages come and go as cells, and not as lines (docs/LIVE.md, "Cells as octets").
    pub is_binary: bool,
}

/// The source of a connection of the net of a scenario.
#[derive(Debug, Drop)]
pub struct SourcePlan {
    /// The file of the scenario.
    pub file: String,
    /// The number of its connection in the net.
    pub conn: u16,
    /// The file of its store.
    pub store: String,
    /// The file of its journal.
    pub journal: String,
    /// Whether it is new: its store and its journal are made. Else they are there.
    pub is_new: bool,
    /// Whether messages come and go as cells, and not as lines (docs/LIVE.md, "Cells as octets").
    pub is_binary: bool,
    /// The nanoseconds that the machine's monotonic clock counted when the run began, if moments are read from it. Else they are handed in.
    pub epoch: Option<u64>,
}
