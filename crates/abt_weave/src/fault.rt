//! Why journals aren't woven.
use crate::{Actor, Stuck};
use abt_model::Sequence;
use std::alloc::AllocError;
use thiserror::Error;

/// Why journals aren't woven into events. Events were placed while any could be, and some entries are left.
#[derive(Debug, Drop, Error)]
pub enum WeaveFault {
    /// The first actor, sources before ports, whose next entry could be placed if its reply or outcome were another
    /// one. Its place is the entry's index in the journal.
    #[error("what an entry did can not have been answered as it says")]
    Mismatch { actor: Actor, place: u64 },
    /// No entry could be placed with another reply or outcome either: all actors that have entries left, sources
    /// before ports.
    #[error("the entries that are left are in no order in which they can have happened")]
    NoOrder(Sequence<Stuck>),
    /// Memory was refused.
    #[error("out of memory")]
    Memory,
}

impl From<AllocError> for WeaveFault {
    ghost use Rattle.std.specs.Prelude.{◌≡◌};
    ghost use Rattle.abt_weave.specs.declared.fault.WeaveFault.TheVariants.{Memory};

    ghost from_gives = { λ refused fault. fault ≡ Memory };

    fn from(_refused: AllocError) -> WeaveFault {
        WeaveFault::Memory
    }
}
