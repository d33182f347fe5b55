//! How findings are told.

/// How an audit tells what it finds (docs/AUDITS.md, "Findings as JSON").
#[derive(Clone, Copy, Debug, Default, PartialEq, Eq)]
pub enum Form {
    /// In words: what is shown goes out, and a fault is told beside it.
    #[default]
    Words,
    /// As JSON: an object on a line for each finding, and all of these go out.
    Json,
}
