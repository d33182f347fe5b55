//! Why a line isn't served, and why none is any more.
ghost use Rattle.std.specs.Prelude.{◌≡◌, OnOk, string_bytes};
ghost use Rattle.abt_text.specs.Text.{◌⋅◌};
ghost use Rattle.abt_live.specs.Faults.{fault_line};

use abt_perform::Fault;
use abt_text::Unwritten;
use std::alloc::AllocError;
use thiserror::Error;

/// Why a line isn't served. It shows itself by the name that the answer to the line has (docs/LIVE.md, "Faults of lines").
#[derive(Clone, Copy, Debug, PartialEq, Eq)]
pub enum LiveFault {
    /// The line is too long.
    TooLong,
    /// The line is no UTF-8 text.
    NotUtf8,
    /// The line has words that say nothing.
    Words,
    /// The cell that the line spells is no request and no answer.
    Cell(Fault),
    /// The input ends within the cell.
    Cut,
    /// The switch has no port of this number, or the cell isn't for a source.
    Port,
    /// No connection of this channel goes through the port, or the source is that of another.
    UnknownVc,
    /// The cell is a request, which no source takes.
    Request,
    /// The store didn't give its record.
    Store,
    /// The clock can't be read.
    Clock,
    /// The clock stands before the beginning of the run.
    ClockBack,
    /// The moment of the clock has more than 64 bits.
    TimeRange,
}

impl LiveFault {
    // Adds the line that answers a line with this fault to a text.
    pub(crate) fn push_to(self, text: &mut String) -> Result<(), AllocError>
        ensures { OnOk result (string_bytes text.new ≡ string_bytes text.old ⋅ fault_line self) }
    {
        match self {
            LiveFault::TooLong => text.push_str("fault TooLong\n"),
            LiveFault::NotUtf8 => text.push_str("fault NotUtf8\n"),
            LiveFault::Words => text.push_str("fault words\n"),
            LiveFault::Cell(fault) => write!(text, "fault {fault}\n"),
            LiveFault::Cut => text.push_str("fault cut\n"),
            LiveFault::Port => text.push_str("fault port\n"),
            LiveFault::UnknownVc => text.push_str("fault UnknownVc\n"),
            LiveFault::Request => text.push_str("fault request\n"),
            LiveFault::Store => text.push_str("fault store\n"),
            LiveFault::Clock => text.push_str("fault clock\n"),
            LiveFault::ClockBack => text.push_str("fault ClockBack\n"),
            LiveFault::TimeRange => text.push_str("fault TimeRange\n"),
        }
    }
}

/// Why a server of lines stops.
#[derive(Clone, Copy, Debug, PartialEq, Eq, Error)]
pub enum StopFault {
    /// The journal can't be written.
    #[error("the journal can't be written")]
    Journal,
    /// No memory was found.
    #[error("out of memory")]
    Memory,
}

impl From<AllocError> for StopFault {
    ghost use Rattle.std.specs.Prelude.{◌≡◌};
    ghost use Rattle.abt_live.specs.declared.fault.StopFault.TheVariants.{Memory};

    ghost from_gives = { λ _ fault. fault ≡ Memory };

    fn from(_: AllocError) -> StopFault {
        StopFault::Memory
    }
}

impl From<Unwritten> for StopFault {
    ghost use Rattle.std.specs.Prelude.{◌≡◌};
    ghost use Rattle.abt_live.specs.declared.fault.StopFault.TheVariants.{Journal};

    ghost from_gives = { λ _ fault. fault ≡ Journal };

    fn from(_: Unwritten) -> StopFault {
        StopFault::Journal
    }
}
