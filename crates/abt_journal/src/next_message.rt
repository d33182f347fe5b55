//! The message that is sent next.
use abt_cell::{Answer, Rm};

/// What becomes of a message once a port replied to it (docs/RULES.md, "Path").
#[derive(Clone, Copy, Debug, PartialEq, Eq)]
pub enum Next {
    /// This message goes to the port of this number.
    Send { port: u16, rm: Rm },
    /// The source of the connection of this number is told this answer.
    Tell { conn: u16, answer: Answer },
    /// Nothing is sent.
    Nothing,
}
