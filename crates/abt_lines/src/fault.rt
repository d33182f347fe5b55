//! Why lines aren't all answered.
use abt_text::Unread;
use std::alloc::AllocError;
use thiserror::Error;

/// Why the lines of a reader aren't all answered.
#[derive(Clone, Copy, Debug, PartialEq, Eq, Error)]
pub enum LinesFault {
    /// The reader failed.
    #[error("the input can't be read")]
    Read,
    /// There are 2^64 lines, or as many reads.
    #[error("the input is too long")]
    TooLong,
    /// The writer failed, or took no octet.
    #[error("the output can't be written")]
    Write,
    /// No memory was found.
    #[error("out of memory")]
    Memory,
}

impl From<Unread> for LinesFault {
    ghost use Rattle.std.specs.Prelude.{◌≡◌};
    ghost use Rattle.abt_lines.specs.declared.fault.LinesFault.TheVariants.{Read};

    ghost from_gives = { λ _ fault. fault ≡ Read };

    fn from(_: Unread) -> LinesFault {
        LinesFault::Read
    }
}

impl From<AllocError> for LinesFault {
    ghost use Rattle.std.specs.Prelude.{◌≡◌};
    ghost use Rattle.abt_lines.specs.declared.fault.LinesFault.TheVariants.{Memory};

    ghost from_gives = { λ _ fault. fault ≡ Memory };

    fn from(_: AllocError) -> LinesFault {
        LinesFault::Memory
    }
}
