//! Why texts are no journals.
use crate::spot::Spot;
use abt_entry::LineFault;
use abt_net::NetFault;
use std::alloc::{AllocError, AllocFailed};
use thiserror::Error;

/// Why the texts are no journals, at the first line where they aren't.
#[derive(Clone, Copy, Debug, PartialEq, Eq)]
pub struct TextFault {
    /// The line.
    pub spot: Spot,
    /// The cause there.
    pub cause: Cause,
}

/// What is wrong with a line, or what kept it from being read (docs/JOURNALS.md, "Faults").
#[derive(Clone, Copy, Debug, PartialEq, Eq, Error)]
pub enum Cause {
    /// The line has more octets than a line may have.
    #[error("the line is too long")]
    TooLong,
    /// The end of the text comes before the line.
    #[error("the line stands behind the end of its text")]
    Behind,
    /// The line is no line of a journal.
    #[error("{0}")]
    Line(LineFault),
    /// The net isn't known yet.
    #[error("the first line is not that of the net")]
    NoNet,
    /// The net is known already.
    #[error("the net comes a second time")]
    SecondNet,
    /// The ports and connections aren't a net.
    #[error("{0}")]
    Net(NetFault),
    /// The net hasn't this port.
    #[error("the net has no port of this number")]
    NoPort,
    /// The net hasn't this connection.
    #[error("the net has no connection of this number")]
    NoSource,
    /// It isn't the port's next step.
    #[error("the place is not how many steps of this port came before")]
    Place,
    /// The reader failed.
    #[error("the input can not be read")]
    Read,
    /// There are 2^64 lines, or as many reads.
    #[error("the input is too long")]
    Endless,
    /// Memory was refused.
    #[error("out of memory")]
    Memory,
}

impl From<AllocError> for Cause {
    ghost use Rattle.std.specs.Prelude.{◌≡◌};
    ghost use Rattle.abt_journal_text.specs.declared.fault.Cause.TheVariants.{Memory};

    ghost from_gives = { λ refused cause. cause ≡ Memory };

    fn from(_refused: AllocError) -> Cause {
        Cause::Memory
    }
}

impl<T: Drop> From<AllocFailed<T>> for Cause {
    ghost use Rattle.std.specs.Prelude.{◌≡◌};
    ghost use Rattle.abt_journal_text.specs.declared.fault.Cause.TheVariants.{Memory};

    ghost from_gives = { λ _ cause. cause ≡ Memory };

    fn from(_: AllocFailed<T>) -> Cause {
        Cause::Memory
    }
}
