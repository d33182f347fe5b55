//! Replies of ports to messages.
use abt_cell::Answer;

/// Why a port drops a message: the first of these that applies, in this order (docs/RULES.md, "Node").
#[derive(Clone, Copy, Debug, PartialEq, Eq)]
pub enum DropCause {
    /// The connection was never added to the port.
    UnknownVc,
    /// The number is below the newest.
    Stale,
    /// The message isn't of the request that was decided under its number.
    Conflict,
    /// The floor of a request is above what the connection holds.
    FloorAbove,
}

impl DropCause {
    ghost use Rattle.std.specs.Prelude.{◌≡◌};
    ghost use Rattle.abt_node.specs.Names.{drop_name};

    /// The cause's name, which reports and `abt port` print (docs/FORMATS.md, "Report").
    pub fn name(self) -> &'static str
        ensures { result.now ≡ drop_name self }
    {
        match self {
            DropCause::UnknownVc => "UnknownVc",
            DropCause::Stale => "Stale",
            DropCause::Conflict => "Conflict",
            DropCause::FloorAbove => "FloorAbove",
        }
    }
}

/// The reply of a port to a request.
#[derive(Clone, Copy, Debug, PartialEq, Eq)]
pub enum Onward {
    /// It goes on to the next port.
    Pass,
    /// This answer, its no, goes back.
    Refuse(Answer),
    /// It goes nowhere.
    Drop(DropCause),
}

/// The reply of a port to an answer.
#[derive(Clone, Copy, Debug, PartialEq, Eq)]
pub enum Back {
    /// It goes on towards its source.
    Pass,
    /// It goes nowhere.
    Drop(DropCause),
}
