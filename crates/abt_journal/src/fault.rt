//! Why a step wasn't done.

use std::alloc::AllocError;
use thiserror::Error;

/// Why a port did no step for a caller: the first of these that applies, in this order. Nothing has changed then.
#[derive(Clone, Copy, Debug, PartialEq, Eq, Error)]
pub enum ServeFault {
    /// The journal is shorter than what the caller has seen of it, so it can't be the one that it saw.
    #[error("the journal has {found} entries, and {seen} were seen of it")]
    Wound { seen: u64, found: u64 },
    /// Memory was refused.
    #[error("out of memory")]
    Memory,
}

impl From<AllocError> for ServeFault {
    ghost use Rattle.std.specs.Prelude.{◌≡◌};
    ghost use Rattle.abt_journal.specs.declared.fault.ServeFault.TheVariants.{Memory};

    ghost from_gives = { λ refused fault. fault ≡ Memory };

    fn from(_refused: AllocError) -> ServeFault {
        ServeFault::Memory
    }
}
