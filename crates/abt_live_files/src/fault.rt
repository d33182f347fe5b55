//! Why a switch or a source doesn't answer all lines.
use crate::journal_fault::JournalFault;
use abt_disk::FileFault;
use abt_live::ServeFault;
use abt_scenario::EngineFault;

/// Why a switch or a source doesn't answer all lines.
#[derive(Clone, Copy, Debug, PartialEq, Eq)]
pub enum LiveStop {
    /// No scenario was read.
    Scenario(EngineFault),
    /// The net has no port of this number.
    Port(u16),
    /// The net has no connection of this number.
    Connection(u16),
    /// The store isn't made or opened.
    Store(FileFault),
    /// The journal isn't opened.
    Journal(JournalFault),
    /// The lines can't be read, answered or written, or the journal can't be written.
    Serving(ServeFault),
}
