//! The journals and receipts that a run leaves.
use abt_journal::Journals;
use abt_model::SourceJournal;

/// The journals of a run: those of the ports and those of the sources, by their numbers.
#[derive(Debug, Drop)]
pub struct Gathered {
    /// The journals of the ports.
    pub journals: Journals,
    /// The journals of the sources, one for each connection.
    pub sources: Vec<SourceJournal>,
}
