//! Scripts.
use crate::Sequence;
use crate::script_command::Command;

/// The commands of the source of one connection, in order. Contracts see the list of its commands.
pub type Script = Sequence<Command>;
