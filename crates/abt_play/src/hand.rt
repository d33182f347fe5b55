//! Sources with commands left.
use abt_model::Command;

/// A source that has commands left of its script.
#[derive(Clone, Copy, Debug)]
pub(crate) struct Hand<'net> {
    // The number of its connection.
    pub(crate) conn: u16,
    // The commands that are left, at least one.
    pub(crate) commands: &'net [Command],
    // How often it has listened, if the next command is to listen.
    pub(crate) looks: u32,
}
