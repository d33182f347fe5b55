//! Why a text is no line of a journal.
use crate::member::Member;
use abt_cell::RmFault;
use std::alloc::{AllocError, AllocFailed};
use thiserror::Error;

/// Why a text is no line of a journal: the first of these that is found (docs/JOURNALS.md, "Faults").
#[derive(Clone, Copy, Debug, PartialEq, Eq, Error)]
pub enum LineFault {
    /// It isn't UTF-8.
    #[error("the line is not UTF-8")]
    Utf8,
    /// It isn't JSON.
    #[error("the line is not JSON")]
    Json,
    /// A member comes twice in one object.
    #[error("a member comes twice in one object")]
    Twice,
    /// The line is of no kind that a journal has.
    #[error("no line of a journal is of this kind")]
    Kind,
    /// A member is missing, of another type, or out of its range.
    #[error("the member {0} is missing, or not what it has to be")]
    Member(Member),
    /// A cell isn't 52 octets in hexadecimal digits.
    #[error("a cell is not 52 octets in hexadecimal digits")]
    Hex,
    /// A cell is no RM cell of this protocol.
    #[error("{0}")]
    Cell(RmFault),
    /// Memory was refused.
    #[error("out of memory")]
    Memory,
}

impl From<AllocError> for LineFault {
    ghost use Rattle.std.specs.Prelude.{◌≡◌};
    ghost use Rattle.abt_entry.specs.declared.fault.LineFault.TheVariants.{Memory};

    ghost from_gives = { λ refused fault. fault ≡ Memory };

    fn from(_refused: AllocError) -> LineFault {
        LineFault::Memory
    }
}

impl<T: Drop> From<AllocFailed<T>> for LineFault {
    ghost use Rattle.std.specs.Prelude.{◌≡◌};
    ghost use Rattle.abt_entry.specs.declared.fault.LineFault.TheVariants.{Memory};

    ghost from_gives = { λ _ fault. fault ≡ Memory };

    fn from(_: AllocFailed<T>) -> LineFault {
        LineFault::Memory
    }
}
