//! Commands to one source.
ghost use Rattle.std.specs.Prelude.{◌≡◌};
ghost use Rattle.abt_model.specs.Commands.{event_told};

use crate::target::SourceEvent;
use abt_cell::Answer;
use abt_keep::StorePlan;
use abt_rate::Rate;

/// A command to one source. It answers as the event of that name does (docs/FORMATS.md, "Events and outcomes"), but that
/// an answer may be any, also one that was never sent.
#[derive(Clone, Copy, Debug, PartialEq, Eq)]
pub enum SourceCommand {
    /// Start at this moment, in picoseconds.
    Start { now: u64 },
    /// Ask for a rate. The plan is that of the one write into the store.
    Ask { rate: Rate, plan: StorePlan },
    /// Send the open request once more.
    Again,
    /// Lose all but the store.
    Crash,
    /// Send a cell at this moment, in picoseconds.
    Emit { now: u64 },
    /// Take an answer.
    Told(Answer),
}

impl SourceCommand {
    /// The event of that name.
    pub fn event(&self) -> SourceEvent
        ensures value { result ≡ event_told self.now }
    {
        match *self {
            SourceCommand::Start { now } => SourceEvent::Start { now },
            SourceCommand::Ask { rate, plan } => SourceEvent::Ask { rate, plan },
            SourceCommand::Again => SourceEvent::Again,
            SourceCommand::Crash => SourceEvent::Crash,
            SourceCommand::Emit { now } => SourceEvent::Emit { now },
            SourceCommand::Told(answer) => SourceEvent::Told {
                seq: answer.seq(),
                granted: answer.granted(),
            },
        }
    }
}
