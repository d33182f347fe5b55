//! Why the events of a run aren't written as a scenario.
ghost use Rattle.std.specs.Prelude.{◌≡◌};
ghost use Rattle.abt_scenario.specs.Faults.{fault_line};

use std::alloc::AllocError;
use thiserror::Error;

/// Why the events of a run aren't written as a scenario.
#[derive(Clone, Copy, Debug, PartialEq, Eq, Error)]
pub enum EventsFault {
    /// The text would have more octets than that of a scenario may have.
    #[error("the scenario is too long")]
    TooLong,
    /// No scenario says these events: a number of theirs has more digits than a scenario's.
    #[error("no scenario says these events")]
    Unsaid,
    /// The file can't be made or opened.
    #[error("the file of the events can't be opened")]
    Open,
    /// The file can't be written.
    #[error("the file of the events can't be written")]
    Write,
    /// Memory was refused.
    #[error("out of memory")]
    Memory,
}

impl From<AllocError> for EventsFault {
    ghost use Rattle.std.specs.Prelude.{◌≡◌};
    ghost use Rattle.abt_scenario.specs.declared.text_fault.EventsFault.TheVariants.{Memory};

    ghost from_gives = { λ _ fault. fault ≡ Memory };

    fn from(_: AllocError) -> EventsFault {
        EventsFault::Memory
    }
}

impl EventsFault {
    /// The line that tells it.
    pub fn line(self) -> &'static str
        ensures { result.now ≡ fault_line self }
    {
        match self {
            EventsFault::TooLong => "fault: events TooLong\n",
            EventsFault::Unsaid => "fault: events Unsaid\n",
            EventsFault::Open => "fault: events open\n",
            EventsFault::Write => "fault: events write\n",
            EventsFault::Memory => "fault: memory\n",
        }
    }
}
