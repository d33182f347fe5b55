//! Where a line stands.

/// A line of a text of journals. Texts and their lines count from 1.
#[derive(Clone, Copy, Debug, PartialEq, Eq)]
pub struct Spot {
    /// The number of the text, in the order in which texts are read.
    pub text: u64,
    /// The number of its line.
    pub line: u64,
}
