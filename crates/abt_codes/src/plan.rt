//! The plans of `abt code` and `abt write`.
use crate::message::MessageWords;

/// What to say of codes, or in them.
#[derive(Drop)]
pub enum CodesPlan {
    /// Which codes are nearest to the rate that a text says.
    Code(String),
    /// The cell of a message.
    Write(MessageWords),
}
